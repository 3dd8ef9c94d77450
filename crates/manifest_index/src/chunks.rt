//! The chunks of an array by their indices.

ghost use Rattle.std.specs.Prelude.{◌≡◌, ◌&&◌, ℕ, List, None, if◌then◌else◌, bytes_eq, IfOk, OnOk};
ghost use Rattle.manifest_index.specs.inside.Chunks.{chunk_at, AreRows};

use ice_items::Items;
use manifest_file::{ChunkRef, Place};
use std::alloc::{AllocError, Global};
use std::collections::BTreeMap;
use zarr_path::Index;

/// Where the chunks of an array are.
pub(crate) type Chunks = BTreeMap<Index, Place>;

/// The chunk at an index is here from now on, and nowhere where there is no place.
pub(crate) fn set(chunks: &mut Chunks, index: Index, place: Option<Place>) -> Result<(), AllocError>
    ensures { OnOk result ((q : List ℕ)
        → chunk_at q chunks.new ≡ (if bytes_eq index q then place else chunk_at q chunks.old)) }
{
    match place {
        Some(place) => {
            chunks.insert(index, place)?;
        }
        None => {
            chunks.remove(&index);
        }
    }
    Ok(())
}

/// The chunks in the strict order of their indices.
pub(crate) fn into_refs(alloc: Global, chunks: Chunks) -> Result<Items<ChunkRef>, AllocError>
    ensures { IfOk result (AreRows chunks) }
{
    let mut refs = Items::from_vec(Vec::with_capacity(alloc, chunks.len())?);
    for (index, place) in chunks {
        refs.push(ChunkRef { index, place })?;
    }
    Ok(refs)
}
