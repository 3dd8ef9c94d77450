//! The bytes of chunks, of which each has as many as a chunk of its array.

ghost use Rattle.std.specs.Prelude.{◌≡◌, ◌+◌, ◌-◌, ◌≤◌, min, length, take, drop};
ghost use Rattle.repo_objects.specs.Readings.{read_inline, read_chunk};
ghost use Rattle.repo_objects.specs.Loading.{Loads};

use crate::bad_objects::{Bad, Unread};
use ice_base::Bytes;
use std::alloc::Global;

/// The bytes of a chunk that stand in a manifest: a copy, if they are as many as a chunk has.
pub fn inline_read(alloc: Global, want: u64, bytes: &[u8]) -> Result<Bytes, Unread>
    ensures { Loads (read_inline want bytes.now) result }
{
    let got = bytes.len() as u64;
    if got != want {
        return Err(Unread::Bad(Bad::Chunk { want, got }));
    }
    Ok(Bytes::of(alloc, bytes)?)
}

/// How many bytes of a part an object of this length gives.
fn given(len: u64, offset: u64, size: u64) -> u64
    ensures { result ≡ min size (len - offset) }
{
    size.min(len.saturating_sub(offset))
}

/// The part of bytes. It moves to the front, and takes no memory.
fn part(bytes: Bytes, offset: usize, size: usize) -> Bytes
    requires { offset + size ≤ length bytes }
    ensures { result ≡ take size (drop offset bytes) }
{
    if size == bytes.len() {
        return bytes;
    }
    let mut bytes = bytes.into_vec();
    bytes.rotate_left(offset);
    bytes.truncate(size);
    Bytes::from_vec(bytes)
}

/// The chunk in a part of an object's bytes, if the part lies in them and has as many bytes as a chunk. It takes no memory:
/// where the part is the whole object, its bytes come back as they are.
pub fn chunk_read(want: u64, offset: u64, size: u64, bytes: Bytes) -> Result<Bytes, Bad>
    ensures { result ≡ read_chunk want offset size bytes }
{
    let len = bytes.len() as u64;
    if offset <= len && size <= len - offset && size == want {
        return Ok(part(bytes, offset as usize, size as usize));
    }
    Err(Bad::Chunk {
        want,
        got: given(len, offset, size),
    })
}
