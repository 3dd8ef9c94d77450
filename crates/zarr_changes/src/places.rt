//! Copies of places.

ghost use Rattle.std.specs.Prelude.{◌≡◌, IfOk};
ghost use Rattle.zarr_changes.specs.Sets.{length_of};

use manifest_file::Place;
use std::alloc::{AllocError, Global};

/// How many bytes a place has.
pub(crate) fn length_of(place: &Place) -> u64
    ensures { result ≡ length_of place.now }
{
    match place {
        Place::Inline(bytes) => bytes.len() as u64,
        Place::Object { length, .. } => *length,
    }
}

/// The same place once more.
fn copy_place(alloc: Global, place: &Place) -> Result<Place, AllocError>
    ensures { IfOk result (λ copy. copy ≡ place.now) }
{
    match place {
        Place::Inline(bytes) => Ok(Place::Inline(bytes.copy(alloc)?)),
        Place::Object { id, offset, length } => Ok(Place::Object {
            id: *id,
            offset: *offset,
            length: *length,
        }),
    }
}

/// The same entry once more: where a chunk is, if it is held.
pub(crate) fn copy_entry(alloc: Global, place: &Option<Place>) -> Result<Option<Place>, AllocError>
    ensures { IfOk result (λ copy. copy ≡ place.now) }
{
    match place {
        Some(place) => Ok(Some(copy_place(alloc, place)?)),
        None => Ok(None),
    }
}
