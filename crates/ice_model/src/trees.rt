//! The tree under changes, and the edited tree.

ghost use Rattle.std.specs.Prelude.{◌≡◌, IsTrue, OnOk};
ghost use Rattle.std.specs.List.{list_all};
ghost use Rattle.std.specs.Option.{option_copied};
ghost use Rattle.std.specs.FinMap as map;
ghost use Rattle.tree_model.specs.Models.{tree_of, under_of};
ghost use Rattle.ice_model.specs.Alike.{same_at, same_chunk, same_found, same_trees};

use crate::looking::{found_in, same, same_found};
use crate::places::Places;
use crate::stops::{Stop, expect};
use ice_items::Items;
use tree_model::{Tree, Under};
use zarr_path::{Index, Path};

/// Whether two chunks have the same bytes.
fn same_chunk(bytes: Option<&Items<u8>>, other: Option<&Items<u8>>) -> bool
    ensures { result ≡ same_chunk (option_copied bytes.entry) (option_copied other.entry) }
{
    match (bytes, other) {
        (Some(bytes), Some(other)) => same(bytes.as_slice(), other.as_slice()),
        (None, None) => true,
        (Some(_), None) | (None, Some(_)) => false,
    }
}

/// Whether a chunk of the tree under changes is that of the edited tree.
fn same_chunk_at(under: &Under<'_>, tree: &Tree, path: &Path, index: &Index) -> bool
    ensures { result ≡ same_chunk ((under_of under.now).chunk path.now index.now)
        ((tree_of tree.now).chunk path.now index.now) }
{
    same_chunk(under.chunk(path, index), tree.chunk(path, index))
}

/// Whether the node of the tree under changes is that of the edited tree.
fn same_node_at(under: &Under<'_>, tree: &Tree, path: &Path) -> bool
    ensures { result ≡ same_found (map.get under.now.nodes path.now)
        (map.get tree.now.nodes path.now) }
{
    same_found(
        found_in(&under.nodes, path.as_str()),
        found_in(&tree.nodes, path.as_str()),
    )
}

/// Whether the chunks of the tree under changes at a path are those of the edited tree.
fn same_chunks_at(places: &Places, under: &Under<'_>, tree: &Tree, path: &Path) -> bool
    ensures { result ≡ list_all (λ i. same_chunk ((under_of under.now).chunk path.now i)
        ((tree_of tree.now).chunk path.now i)) places.now.indices }
{
    places
        .indices
        .as_slice()
        .iter()
        .all(|index| same_chunk_at(under, tree, path, index))
}

/// Whether the tree under changes is the edited tree at a path.
fn same_at(places: &Places, under: &Under<'_>, tree: &Tree, path: &Path) -> bool
    ensures { result
        ≡ same_at places.now.indices (under_of under.now) (tree_of tree.now) path.now }
{
    same_node_at(under, tree, path) && same_chunks_at(places, under, tree, path)
}

/// Whether the tree under changes is the edited tree.
fn same_trees(places: &Places, under: &Under<'_>, tree: &Tree) -> bool
    ensures { result ≡ same_trees places.now.paths places.now.indices (under_of under.now)
        (tree_of tree.now) }
{
    places
        .paths
        .as_slice()
        .iter()
        .all(|path| same_at(places, under, tree, path))
}

/// Stops where the tree under changes isn't the edited tree.
pub fn compare_trees(places: &Places, under: &Under<'_>, tree: &Tree) -> Result<(), Stop>
    ensures { OnOk result
        (IsTrue (same_trees places.now.paths places.now.indices (under_of under.now)
        (tree_of tree.now))) }
{
    expect(
        same_trees(places, under, tree),
        "a node or a chunk of the edited tree",
    )?;
    Ok(())
}
