//! The nodes of a base under changes, and what is asked of them.

ghost use Rattle.std.specs.Prelude.{◌≡◌, IsTrue, OnOk};
ghost use Rattle.std.specs.FinMap as map;
ghost use Rattle.zarr_tree.specs.Held.{nodes_over};
ghost use Rattle.ice_model.specs.Alike.{same_found, same_nodes};

use crate::asking::{compare_may_add, compare_may_set};
use crate::looking::{found_in, same_found};
use crate::places::Places;
use crate::stops::{Stop, expect};
use crate::walking::{compare_beneath, compare_paths, compare_rows};
use std::alloc::Global;
use tree_model::Nodes;
use zarr_changes::ChangeSet;
use zarr_path::Path;
use zarr_tree::TreeLike;

/// Whether a look-up is alike.
fn same_lookup<B: TreeLike>(base: &B, set: &ChangeSet, under: &Nodes, path: &Path) -> bool
    ensures { result ≡ same_found (map.get (nodes_over set.now (B.nodes base.now)) path.now)
        (map.get under.now path.now) }
{
    let found = set.lookup(base, path.as_str());
    same_found(found, found_in(under, path.as_str()))
}

/// Whether all look-ups are alike.
fn same_nodes<B: TreeLike>(places: &Places, base: &B, set: &ChangeSet, under: &Nodes) -> bool
    ensures { result ≡ same_nodes places.now.paths (nodes_over set.now (B.nodes base.now))
        under.now }
{
    places
        .paths
        .as_slice()
        .iter()
        .all(|path| same_lookup(base, set, under, path))
}

/// Stops where what is asked of a path differs.
fn compare_at<B: TreeLike>(
    alloc: Global,
    places: &Places,
    base: &B,
    set: &ChangeSet,
    under: &Nodes,
    path: &Path,
) -> Result<(), Stop> {
    let beneath = compare_beneath(alloc, places, base, set, under, path);
    let mut alike = beneath.and(compare_may_add(alloc, base, set, under, path));
    for index in places.indices.as_slice() {
        alike = alike.and(compare_may_set(alloc, base, set, under, path, index));
    }
    alike
}

/// Stops where the nodes of a base under changes differ, or what is asked of them.
pub fn compare_nodes<B: TreeLike>(
    alloc: Global,
    places: &Places,
    base: &B,
    set: &ChangeSet,
    under: &Nodes,
) -> Result<(), Stop>
    ensures { OnOk result
        (IsTrue (same_nodes places.now.paths (nodes_over set.now (B.nodes base.now)) under.now)) }
{
    expect(same_nodes(places, base, set, under), "a look-up")?;
    let rows = compare_rows(base, set, under);
    let mut alike = rows.and(compare_paths(alloc, places, base, set, under));
    for path in places.paths.as_slice() {
        alike = alike.and(compare_at(alloc, places, base, set, under, path));
    }
    alike
}
