//! A manifest of many chunks.

ghost use Rattle.std.specs.Prelude.{IfOk, IsTrue, All};
ghost use Rattle.manifest_index.specs.Extents.{are_low};

use held_manifest::{HeldManifest, PlaceView, hold};
use ice_base::Bytes;
use ice_ids::{Id8, Id12};
use ice_items::Items;
use manifest_file::{ManifestFile, Place, write};
use manifest_index::merge;
use std::alloc::{AllocError, Global};
use std::test::Fail;
use test_ends::holds;
use zarr_path::Index;

const NODE: Id8 = Id8([0; 8]);

const CHUNKS: u32 = 65_536;

const ROUNDS: u32 = 64;

/// The change that sets so many chunks of one byte.
fn change(alloc: Global) -> Result<Vec<(Index, Option<Place>)>, AllocError>
    ensures { IfOk result (λ change. All (λ c. IsTrue (are_low c.0)) change.items) }
{
    let mut change = Vec::new(alloc);
    for number in 0..CHUNKS {
        let index = Index::from_parts(vec![in alloc; number]?);
        let byte = Bytes::of(alloc, &[7])?;
        change.push((index, Some(Place::Inline(byte))))?;
    }
    Ok(change)
}

/// The file of a manifest of these chunks, if they make one.
fn file_of(alloc: Global, change: Vec<(Index, Option<Place>)>) -> Result<Option<Bytes>, AllocError>
    requires { All (λ c. IsTrue (are_low c.0)) change.items }
{
    let Some(array) = merge(alloc, 1, NODE, &[], change)? else {
        return Ok(None);
    };
    if array.refs.len() > 65_536 {
        drop(array);
        return Ok(None);
    }
    let mut arrays = Items::new(alloc);
    arrays.push(array)?;
    let manifest = ManifestFile {
        id: Id12::INITIAL,
        arrays,
    };
    let file = write(alloc, &manifest);
    drop(manifest);
    match file {
        Ok(file) => Ok(Some(Bytes::from_vec(file))),
        Err(_) => Ok(None),
    }
}

/// The file of the manifest of so many chunks, if they make one.
fn file(alloc: Global) -> Result<Option<Bytes>, AllocError> {
    let change = change(alloc)?;
    file_of(alloc, change)
}

/// Whether each of the chunks is found.
fn has_all(alloc: Global, held: &HeldManifest) -> Result<bool, AllocError> {
    for number in 0..CHUNKS {
        let index = Index::from_parts(vec![in alloc; number]?);
        let found = held.seek(NODE, &index);
        if !matches!(found, Some(PlaceView::Inline([7]))) {
            return Ok(false);
        }
    }
    Ok(true)
}

/// Whether each of the chunks is found, time and again.
fn has_all_often(alloc: Global, held: &HeldManifest) -> Result<bool, AllocError> {
    for _ in 0..ROUNDS {
        if !has_all(alloc, held)? {
            return Ok(false);
        }
    }
    Ok(true)
}

/// The manifest of these chunks, held.
fn held(alloc: Global) -> Option<HeldManifest> {
    let file = file(alloc).ok()??;
    hold(file).ok()
}

/// Whether each chunk of the manifest is found, time and again.
fn are_found(alloc: Global) -> Option<bool> {
    let held = held(alloc)?;
    let has = has_all_often(alloc, &held);
    drop(held);
    has.ok()
}

/// A chunk is found by halves: a walk over the chunks would make more than 100,000,000,000 turns here.
#[test]
fn many_entries(rt: HostRuntime) -> Result<(), Fail> {
    holds(are_found(rt.alloc()) == Some(true), "all are found")
}
