//! Arrays that have entries, and their entries in order.

use crate::chunks::same_bytes;
use crate::looking::found_in;
use crate::places::Places;
use crate::stops::{Stop, expect};
use ice_ids::Id8;
use ice_items::Items;
use manifest_file::Place;
use std::alloc::Global;
use tree_model::{Changes, Nodes};
use zarr_changes::{ChangeSet, ChangedArray};
use zarr_meta::MetaView;
use zarr_path::{Index, Path};
use zarr_tree::{Found, TreeLike};

/// How many dimensions a node has that is an array with entries.
fn changed_rank(changes: &Changes, found: Found<'_>) -> Option<usize> {
    match &found.meta.view {
        MetaView::Array(array) if changes.has_entry(&found.id) => Some(array.shape.len()),
        _ => None,
    }
}

/// Whether this array stands at a path, and has this id and so many dimensions.
fn is_array(array: Option<&ChangedArray>, path: &Path, id: &Id8, rank: usize) -> bool {
    match array {
        Some(array) => {
            array.path.as_str() == path.as_str() && array.node == *id && array.rank == rank
        }
        None => false,
    }
}

/// Whether this is the entry of an index, and these are its bytes.
fn is_entry(
    row: Option<&(Index, Option<Place>)>,
    index: &Index,
    bytes: Option<&Items<u8>>,
) -> bool {
    match row {
        Some(row) => row.0 == *index && same_bytes(row.1.as_ref(), bytes),
        None => false,
    }
}

/// Stops where the entries of a node, as they are listed, differ.
fn compare_listed(
    places: &Places,
    rows: &[(Index, Option<Place>)],
    changes: &Changes,
    id: &Id8,
) -> Result<(), Stop> {
    let mut alike = true;
    let mut at: usize = 0;
    for index in places.indices.as_slice() {
        if let Some(bytes) = changes.entry(id, index) {
            alike &= is_entry(rows.get(at), index, bytes);
            at = at.saturating_add(1);
        }
    }
    let same_number = expect(at == rows.len(), "the number of entries");
    expect(alike, "an entry that is listed").and(same_number)
}

/// Stops where a node has other entries in the set.
fn compare_entries(
    alloc: Global,
    places: &Places,
    set: &ChangeSet,
    changes: &Changes,
    id: &Id8,
) -> Result<(), Stop> {
    let rows = set.chunk_changes(alloc, *id)?;
    compare_listed(places, rows.as_slice(), changes, id)
}

/// Stops where the arrays that have entries, as they are listed, differ, or the entries of one.
fn compare_arrays(
    alloc: Global,
    places: &Places,
    arrays: &[ChangedArray],
    set: &ChangeSet,
    changes: &Changes,
    under: &Nodes,
) -> Result<(), Stop> {
    let mut arrays = arrays.iter();
    let mut alike: Result<(), Stop> = Ok(());
    for path in places.paths.as_slice() {
        if let Some(found) = found_in(under, path.as_str()) {
            if let Some(rank) = changed_rank(changes, found) {
                let listed = is_array(arrays.next(), path, &found.id, rank);
                let entries = compare_entries(alloc, places, set, changes, &found.id);
                alike = alike.and(expect(listed, "a changed array")).and(entries);
            }
        }
    }
    let same_number = expect(arrays.next().is_none(), "the number of changed arrays");
    alike.and(same_number)
}

/// Stops where the arrays that have entries differ, or the entries of one as they are listed.
pub fn compare_changed<B: TreeLike>(
    alloc: Global,
    places: &Places,
    base: &B,
    set: &ChangeSet,
    changes: &Changes,
    under: &Nodes,
) -> Result<(), Stop> {
    let arrays = set.changed_arrays(alloc, base)?;
    compare_arrays(alloc, places, arrays.as_slice(), set, changes, under)
}
