//! The entries of chunks.

ghost use Rattle.std.specs.Prelude.{◌≡◌, option_map, IsTrue, OnOk};
ghost use Rattle.std.specs.List.{list_all};
ghost use Rattle.std.specs.Option.{option_copied};
ghost use Rattle.std.specs.FinMap as map;
ghost use Rattle.zarr_tree.specs.Held.{entry_in};
ghost use Rattle.zarr_tree.specs.Rows.{node_found};
ghost use Rattle.tree_model.specs.Models.{held_of};
ghost use Rattle.ice_model.specs.Alike.{same_bytes, same_chunks, same_entries, same_entry};

use crate::looking::{found_in, same};
use crate::places::Places;
use crate::stops::{Stop, expect};
use ice_ids::Id8;
use ice_items::Items;
use manifest_file::Place;
use tree_model::{Changes, Nodes};
use zarr_changes::ChangeSet;
use zarr_path::{Index, Path};
use zarr_tree::Found;

/// Whether the bytes at a place are these.
pub fn same_bytes(place: Option<&Place>, bytes: Option<&Items<u8>>) -> bool
    ensures { result ≡ same_bytes (option_copied place.entry) (option_copied bytes.entry) }
{
    match (place, bytes) {
        (Some(Place::Inline(place)), Some(bytes)) => same(place.as_slice(), bytes.as_slice()),
        (Some(Place::Object { .. }), Some(_)) => false,
        (None, None) => true,
        (Some(_), None) | (None, Some(_)) => false,
    }
}

/// Whether two entries of a chunk are the same.
fn same_entry(entry: Option<Option<&Place>>, other: Option<Option<&Items<u8>>>) -> bool
    ensures { result ≡ same_entry (option_map option_copied entry.entry)
        (option_map option_copied other.entry) }
{
    match (entry, other) {
        (Some(place), Some(bytes)) => same_bytes(place, bytes),
        (None, None) => true,
        (Some(_), None) | (None, Some(_)) => false,
    }
}

/// Whether the entry of a chunk of a node is the same.
fn same_entry_at(set: &ChangeSet, changes: &Changes, id: &Id8, index: &Index) -> bool
    ensures { result ≡ same_entry (entry_in set.now.chunks id.now index.now)
        (entry_in (held_of changes.now).chunks id.now index.now) }
{
    same_entry(set.chunk(*id, index), changes.entry(id, index))
}

/// Whether all entries of a node are the same.
fn same_entries_of(places: &Places, set: &ChangeSet, changes: &Changes, id: &Id8) -> bool
    ensures { result
        ≡ list_all (λ i. same_entry (entry_in set.now.chunks id.now i)
        (entry_in (held_of changes.now).chunks id.now i)) places.now.indices }
{
    places
        .indices
        .as_slice()
        .iter()
        .all(|index| same_entry_at(set, changes, id, index))
}

/// Whether the entries of a node are the same, if there is one.
fn same_entries(
    places: &Places,
    set: &ChangeSet,
    changes: &Changes,
    found: Option<Found<'_>>,
) -> bool
    ensures { result ≡ same_entries places.now.indices set.now.chunks (held_of changes.now).chunks
        (option_map node_found found.entry) }
{
    match found {
        Some(found) => same_entries_of(places, set, changes, &found.id),
        None => true,
    }
}

/// Whether the entries of the node at a path are the same.
fn same_entries_at(
    places: &Places,
    set: &ChangeSet,
    changes: &Changes,
    nodes: &Nodes,
    path: &Path,
) -> bool
    ensures { result ≡ same_entries places.now.indices set.now.chunks (held_of changes.now).chunks
        (map.get nodes.now path.now) }
{
    same_entries(places, set, changes, found_in(nodes, path.as_str()))
}

/// Whether the entries of the nodes of a tree are the same.
fn same_chunks(places: &Places, set: &ChangeSet, changes: &Changes, nodes: &Nodes) -> bool
    ensures { result ≡ same_chunks places.now.paths places.now.indices set.now.chunks
        (held_of changes.now).chunks nodes.now }
{
    places
        .paths
        .as_slice()
        .iter()
        .all(|path| same_entries_at(places, set, changes, nodes, path))
}

/// Stops where the entries of the nodes of a tree differ.
pub fn compare_chunks(
    places: &Places,
    set: &ChangeSet,
    changes: &Changes,
    nodes: &Nodes,
) -> Result<(), Stop>
    ensures { OnOk result
        (IsTrue (same_chunks places.now.paths places.now.indices set.now.chunks
        (held_of changes.now).chunks nodes.now)) }
{
    expect(
        same_chunks(places, set, changes, nodes),
        "the entry of a chunk",
    )?;
    Ok(())
}
