//! The extents of an array's chunks.

ghost use Rattle.std.specs.Prelude.{◌≡◌, ◌<◌, length, IsTrue, IfOk, All};
ghost use Rattle.manifest_index.specs.Extents.{are_low, extents_for, IsExtent};

use ice_items::Items;
use manifest_file::ChunkRef;
use snapshot_file::Extents;
use std::alloc::{AllocError, Global};

/// The least extent of some chunks in dimension `k`.
fn extent_at(refs: &[ChunkRef], k: usize) -> (u32, u32)
    requires filled { 0 < length refs.now }
    requires ranks { All (λ r. k < length r.index) refs.now }
    requires low { All (λ r. IsTrue (are_low r.index)) refs.now }
    ensures { IsExtent k refs.now result }
{
    let mut first = refs[0].index.parts()[k];
    let mut last = first;
    for chunk in refs {
        let number = chunk.index.parts()[k];
        first = first.min(number);
        last = last.max(number);
    }
    (first, last + 1)
}

/// The least extents of some chunks, which have this rank. It asks that no index has the number 4,294,967,295, behind
/// which no extent of 32 bits can end.
///
/// # Errors
///
/// Memory may run out.
pub fn extents_of(alloc: Global, rank: usize, refs: &[ChunkRef]) -> Result<Extents, AllocError>
    requires filled { 0 < length refs.now }
    requires ranks { All (λ r. length r.index ≡ rank) refs.now }
    requires low { All (λ r. IsTrue (are_low r.index)) refs.now }
    ensures { IfOk result (λ extents. extents ≡ extents_for rank refs.now) }
{
    let mut extents = Items::new(alloc);
    for k in 0..rank {
        extents.push(extent_at(refs, k))?;
    }
    Ok(extents)
}
