ghost use Rattle.std.specs.Prelude.{◌≡◌, ◌<◌, ◌^◌, IsTrue, IfOk};
ghost use Rattle.std.specs.Int.{w32, w64, to_le_bytes};
ghost use Rattle.std.specs.Str.{IsUtf8};
ghost use Rattle.zarr_path.specs.Paths.{is_path};
ghost use Rattle.ice_base.specs.Lists.{IsBytes};
ghost use Rattle.file_fields.specs.Fields.{bytes_part};
ghost use Rattle.flat_tables.specs.Layout.{scalar};
ghost use Rattle.flat_tables.specs.Trees.{part_of, is_writable_slot};
ghost use Rattle.ice_ids.specs.Text.{IsId12};
ghost use Rattle.snapshot_file.specs.Layout.{text_part, dimension_bytes, extent_bytes, info_head, info_tail, IsDimension, IsExtent};

use file_fields::id12_bytes;
use flat_tables::Slot;
use ice_base::Bytes;
use ice_ids::Id12;
use std::alloc::{AllocError, Global};
use zarr_path::Path;

/// A string.
pub fn text_slot(alloc: Global, text: &str) -> Result<Slot, AllocError>
    ensures part { IfOk result (λ s. part_of s ≡ text_part text.now) }
    ensures writable { IfOk result (λ s. IsTrue (is_writable_slot s)) }
    ensures text { IsUtf8 text.now }
{
    Ok(Slot::Text(String::from_str(alloc, text)?))
}

/// A text is UTF-8. It does nothing: the contract tells what the type says.
fn text_fits(text: &str)
    ensures { IsUtf8 text.now }
{}

/// The string of a path.
pub fn path_slot(path: Path) -> Slot
    ensures part { part_of result ≡ text_part path }
    ensures writable { IsTrue (is_writable_slot result) }
    ensures path { IsTrue (is_path path) }
    ensures text { IsUtf8 path }
{
    text_fits(path.as_str());
    Slot::Text(path.into_string())
}

/// The field of bytes.
pub fn data_slot(bytes: Bytes) -> Slot
    ensures part { part_of result ≡ bytes_part bytes }
    ensures writable { IsTrue (is_writable_slot result) }
    ensures bytes { IsBytes bytes }
{
    let _bytes = bytes.as_slice();
    Slot::Structs {
        align: 1,
        size: 1,
        bytes: bytes.into_vec(),
    }
}

/// A number of 8 bits.
pub fn u8_slot(value: u8) -> Slot
    ensures part { part_of result ≡ scalar 1 value }
    ensures writable { IsTrue (is_writable_slot result) }
{
    Slot::Scalar {
        size: 1,
        value: u64::from(value),
    }
}

/// The bytes of a number, the lowest first.
fn u64_bytes(number: u64) -> [u8; 8]
    ensures bytes { result ≡ to_le_bytes w64 number }
    ensures small { number < 2 ^ 64 }
{
    number.to_le_bytes()
}

/// The bytes of a number, the lowest first.
fn u32_bytes(number: u32) -> [u8; 4]
    ensures bytes { result ≡ to_le_bytes w32 number }
    ensures small { number < 2 ^ 32 }
{
    number.to_le_bytes()
}

/// The bytes of a dimension.
pub fn dimension_bytes(dimension: &(u64, u64)) -> [u8; 16]
    ensures bytes { result ≡ dimension_bytes dimension.now }
    ensures numbers { IsDimension dimension.now }
{
    let mut bytes = [0; 16];
    bytes[..8].copy_from_slice(&u64_bytes(dimension.0));
    bytes[8..].copy_from_slice(&u64_bytes(dimension.1));
    bytes
}

/// The bytes of an extent.
pub fn extent_bytes(extent: &(u32, u32)) -> [u8; 8]
    ensures bytes { result ≡ extent_bytes extent.now }
    ensures numbers { IsExtent extent.now }
{
    let mut bytes = [0; 8];
    bytes[..4].copy_from_slice(&u32_bytes(extent.0));
    bytes[4..].copy_from_slice(&u32_bytes(extent.1));
    bytes
}

/// The first half of a manifest's bytes: its id, and zero bytes.
pub fn info_head(id: &Id12) -> [u8; 16]
    ensures bytes { result ≡ info_head id.now }
    ensures sized { IsId12 id.now }
{
    let mut bytes = [0; 16];
    bytes[..12].copy_from_slice(&id12_bytes(id));
    bytes
}

/// The second half of a manifest's bytes: the length of its file, its number of chunks, and zero bytes.
pub fn info_tail(size: u64, refs: u32) -> [u8; 16]
    ensures bytes { result ≡ info_tail size refs }
    ensures size { size < 2 ^ 64 }
    ensures refs { refs < 2 ^ 32 }
{
    let mut bytes = [0; 16];
    bytes[..8].copy_from_slice(&u64_bytes(size));
    bytes[8..12].copy_from_slice(&u32_bytes(refs));
    bytes
}
