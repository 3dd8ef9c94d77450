//! Nodes and their paths, as they are walked and listed.

use crate::looking::{found_in, same_node};
use crate::places::Places;
use crate::stops::{Stop, expect};
use std::alloc::Global;
use tree_model::Nodes;
use zarr_changes::ChangeSet;
use zarr_meta::MetaView;
use zarr_path::{Path, is_within};
use zarr_tree::{Found, TreeLike};

/// Whether two rows are the same.
fn same_row(row: Option<(&str, Found<'_>)>, other: Option<(&str, Found<'_>)>) -> bool {
    match (row, other) {
        (Some((path, node)), Some((other_path, other))) => {
            path == other_path && same_node(node, other)
        }
        (None, None) => true,
        _ => false,
    }
}

/// Stops where the nodes, as they are walked, differ.
pub fn compare_rows<B: TreeLike>(base: &B, set: &ChangeSet, under: &Nodes) -> Result<(), Stop> {
    let mut overlay = set.over(base);
    let mut rows = under.rows();
    let mut alike = true;
    for _ in 0..under.len() {
        alike &= same_row(overlay.next(), rows.next());
    }
    let at_end = same_row(overlay.next(), rows.next());
    expect(alike, "a row").and(expect(at_end, "the number of rows"))
}

/// Whether this is a path.
fn is_path(listed: Option<&Path>, path: &Path) -> bool {
    match listed {
        Some(listed) => listed.as_str() == path.as_str(),
        None => false,
    }
}

/// Stops where the paths, as they are listed, differ.
fn compare_listed(places: &Places, listed: &[Path], under: &Nodes) -> Result<(), Stop> {
    let mut listed = listed.iter();
    let mut alike = true;
    for path in places.paths.as_slice() {
        if found_in(under, path.as_str()).is_some() {
            alike &= is_path(listed.next(), path);
        }
    }
    let at_end = listed.next().is_none();
    expect(alike, "a path").and(expect(at_end, "the number of paths"))
}

/// Stops where the paths differ.
pub fn compare_paths<B: TreeLike>(
    alloc: Global,
    places: &Places,
    base: &B,
    set: &ChangeSet,
    under: &Nodes,
) -> Result<(), Stop> {
    let listed = set.paths(alloc, base)?;
    compare_listed(places, listed.as_slice(), under)
}

/// Whether this is a path, and tells whether the node there is an array.
fn is_row(row: Option<&(Path, bool)>, path: &Path, found: Found<'_>) -> bool {
    match row {
        Some(row) => {
            row.0.as_str() == path.as_str()
                && row.1 == matches!(found.meta.view, MetaView::Array(_))
        }
        None => false,
    }
}

/// The node at a path that is beneath another.
fn found_beneath<'a>(under: &'a Nodes, of: &Path, path: &Path) -> Option<Found<'a>> {
    if is_within(of.as_str(), path.as_str()) && of.as_str() != path.as_str() {
        found_in(under, path.as_str())
    } else {
        None
    }
}

/// Stops where what is listed beneath a path differs.
fn compare_rows_beneath(
    places: &Places,
    rows: &[(Path, bool)],
    under: &Nodes,
    of: &Path,
) -> Result<(), Stop> {
    let mut alike = true;
    let mut at: usize = 0;
    for path in places.paths.as_slice() {
        if let Some(found) = found_beneath(under, of, path) {
            alike &= is_row(rows.get(at), path, found);
            at = at.saturating_add(1);
        }
    }
    let same_number = expect(at == rows.len(), "the number of paths beneath one");
    expect(alike, "a path beneath one").and(same_number)
}

/// Stops where what stands beneath a path differs.
pub fn compare_beneath<B: TreeLike>(
    alloc: Global,
    places: &Places,
    base: &B,
    set: &ChangeSet,
    under: &Nodes,
    of: &Path,
) -> Result<(), Stop> {
    let rows = set.beneath(alloc, base, of)?;
    compare_rows_beneath(places, rows.as_slice(), under, of)
}
