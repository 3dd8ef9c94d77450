//! Indices and places in memory of their own.

ghost use Rattle.std.specs.Prelude.{◌≡◌, IfOk};
ghost use Rattle.held_manifest.specs.Places.{place_seen};

use held_manifest::{PlaceView, RefView};
use ice_base::Bytes;
use manifest_file::Place;
use std::alloc::{AllocError, Global};
use zarr_path::Index;

/// The index of a chunk that is read in place.
pub(crate) fn own_index(alloc: Global, chunk: &RefView<'_>) -> Result<Index, AllocError>
    ensures { IfOk result (λ index. index ≡ chunk.now.index) }
{
    let mut numbers = Vec::new(alloc);
    for k in 0..chunk.rank() {
        numbers.push(chunk.part(k))?;
    }
    Ok(Index::from_parts(numbers))
}

/// The place of a chunk that is read in place.
pub(crate) fn own_place(alloc: Global, place: PlaceView<'_>) -> Result<Place, AllocError>
    ensures { IfOk result (λ own. own ≡ place_seen place.entry) }
{
    match place {
        PlaceView::Inline(bytes) => Ok(Place::Inline(Bytes::of(alloc, bytes)?)),
        PlaceView::Object { id, offset, length } => Ok(Place::Object { id, offset, length }),
    }
}
