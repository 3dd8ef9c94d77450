ghost use Rattle.std.specs.Prelude.{◌≡◌, length};
ghost use Rattle.std.specs.Int.{w64, from_le_bytes};
ghost use Rattle.snapshot_file.specs.Nodes.{dimension_of, extent_of};
ghost use Rattle.snapshot_file.specs.Snapshots.{info_of};

use file_fields::{id12, u32_of};
use snapshot_file::ManifestInfo;

/// The number of these 8 bytes, the lowest first.
fn u64_of(bytes: &[u8]) -> u64
    requires { length bytes.now ≡ 8 }
    ensures { result ≡ from_le_bytes w64 bytes.now }
{
    u64::from_le_bytes([
        bytes[0], bytes[1], bytes[2], bytes[3], bytes[4], bytes[5], bytes[6], bytes[7],
    ])
}

/// The length of a dimension and that of a chunk in it.
pub(crate) fn dimension_of(bytes: &[u8]) -> (u64, u64)
    requires { length bytes.now ≡ 16 }
    ensures { result ≡ dimension_of bytes.now }
{
    let (length, chunk) = bytes.split_at(8);
    (u64_of(length), u64_of(chunk))
}

/// The part of a dimension in which chunks are held.
pub(crate) fn extent_of(bytes: &[u8]) -> (u32, u32)
    requires { length bytes.now ≡ 8 }
    ensures { result ≡ extent_of bytes.now }
{
    let (from, to) = bytes.split_at(4);
    (u32_of(from), u32_of(to))
}

/// A manifest of the snapshot.
pub(crate) fn info_of(bytes: &[u8]) -> ManifestInfo
    requires { length bytes.now ≡ 32 }
    ensures { result ≡ info_of bytes.now }
{
    ManifestInfo {
        id: id12(&bytes[..12]),
        size: u64_of(&bytes[16..24]),
        refs: u32_of(&bytes[24..28]),
    }
}
