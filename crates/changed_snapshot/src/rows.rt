//! The rows of a snapshot under changes.

ghost use Rattle.std.specs.Prelude.{◌≡◌, [], Some, None, IfOk, IsTrue, find, option_copied};
ghost use Rattle.std.specs.List.{zip};
ghost use Rattle.zarr_path.specs.Paths.{path_cmp, same_path, is_path};
ghost use Rattle.zarr_tree.specs.Nodes.{array_of_view};
ghost use Rattle.zarr_tree.specs.Rows.{node_found};
ghost use Rattle.flat_tables.specs.Rows.{Ascends};
ghost use Rattle.repo_objects.specs.Trees.{row_at};
ghost use Rattle.changed_snapshot.specs.Rows.{refs_of, new_list, list_key, kind_of, row_of, row_from, row_over, rows_over};

use crate::names::copy_names;
use crate::new_snapshot::{NewList, NewManifest};
use held_snapshot::{HeldNode, HeldNodes};
use ice_items::Items;
use repo_objects::Loaded;
use snapshot_file::{ManifestRef, NodeKind, NodeRow, RowSource, Shape};
use std::alloc::{AllocError, Global};
use std::cmp::Ordering;
use std::marker::Model;
use zarr_changes::{ChangeSet, Row};
use zarr_meta::{ArrayView, MetaView};
use zarr_path::Path;
use zarr_tree::Found;

/// Lengths of dimensions, each with that of a chunk.
fn shape_of(alloc: Global, lengths: &[u64], chunks: &[u64]) -> Result<Shape, AllocError>
    ensures { IfOk result (λ shape. shape ≡ zip lengths.now chunks.now) }
{
    let mut shape = Vec::with_capacity(alloc, lengths.len())?;
    for (length, chunk) in lengths.iter().zip(chunks) {
        shape.push((*length, *chunk))?;
    }
    Ok(Items::from_vec(shape))
}

/// What a row says of a node with this metadata, and with these manifests.
fn kind_of(
    alloc: Global,
    view: &MetaView,
    manifests: Items<ManifestRef>,
) -> Result<NodeKind, AllocError>
    ensures { IfOk result (λ kind. kind ≡ kind_of (array_of_view (Some view.now)) manifests) }
{
    match view {
        MetaView::Group => Ok(NodeKind::Group),
        MetaView::Array(array) => Ok(NodeKind::Array {
            shape: shape_of(alloc, array.shape.as_slice(), array.chunks.as_slice())?,
            names: copy_names(alloc, &array.names)?,
            manifests,
        }),
    }
}

/// The path of this text.
fn path_of(alloc: Global, text: &str) -> Result<Path, AllocError>
    requires { IsTrue (is_path text.now) }
    ensures { IfOk result (λ path. path ≡ text.now) }
{
    Path::read(alloc, text).map_err(|_| AllocError)
}

/// A row of a node at a path, which has these manifests.
fn row_of(
    alloc: Global,
    path: &str,
    found: &Found,
    manifests: Items<ManifestRef>,
) -> Result<NodeRow, AllocError>
    requires { IsTrue (is_path path.now) }
    ensures { IfOk result (λ row. row ≡ row_of path.now (node_found found.now) manifests) }
{
    Ok(NodeRow {
        id: found.id,
        path: path_of(alloc, path)?,
        user_data: found.meta.text.copy(alloc)?,
        kind: kind_of(alloc, &found.meta.view, manifests)?,
    })
}

/// The row of a node at a path, where the base has this one there.
fn row_from(
    alloc: Global,
    path: &str,
    found: &Found,
    old: Option<HeldNode>,
) -> Result<NodeRow, AllocError>
    requires { IsTrue (is_path path.now) }
    ensures { IfOk result (λ row. row ≡ row_from path.now (node_found found.now) old.entry) }
{
    let Some(old) = old else {
        return row_of(alloc, path, found, Items::new(alloc));
    };
    if old.id() != found.id {
        return row_of(alloc, path, found, Items::new(alloc));
    }
    if old.text() == found.meta.text.as_slice() {
        return old.copy(alloc);
    }
    let manifests = old.manifests().copy(alloc)?;
    row_of(alloc, path, found, manifests)
}

/// How a list's path compares with another.
fn compare_list(list: &NewList, path: &str) -> Ordering
    ensures { result ≡ path_cmp list.now.path path.now }
{
    list.path.as_str().cmp(path)
}

/// The new list of the array at a path, found by halves.
fn list_at<'a>(news: &'a [NewList], path: &str) -> Option<&'a NewList>
    requires { Ascends list_key None news.now }
    ensures { option_copied result ≡ find (λ list. same_path list.path path.now) news.now }
{
    match news.binary_search_by(|list| compare_list(list, path)) {
        Ok(at) => Some(&news[at]),
        Err(_) => None,
    }
}

/// The row at a path: where it stands at this place, as is to be expected, nothing else is looked at; else it is found by halves.
fn row_near<'a>(old: &HeldNodes<'a>, place: usize, path: &str) -> Option<HeldNode<'a>>
    ensures { result ≡ row_at old.now path.now }
{
    if place < old.len() {
        let row = old.at(place);
        if row.path().cmp(path).is_eq() {
            return Some(row);
        }
    }
    old.find(path)
}

/// Where a path is to be expected, from a place on at which all paths before it are passed: at the first row that isn't before
/// it. And the place at which all up to it are.
fn place_from(old: &HeldNodes, from: usize, path: &str) -> (usize, usize) {
    for place in from..old.len() {
        match old.at(place).path().cmp(path) {
            Ordering::Less => {}
            Ordering::Equal => return (place, place + 1),
            Ordering::Greater => return (place, place),
        }
    }
    (old.len(), old.len())
}

/// The list of a new manifest, if there is one.
fn refs_of(alloc: Global, manifest: &Option<NewManifest>) -> Result<Items<ManifestRef>, AllocError>
    ensures { IfOk result (λ refs. refs ≡ refs_of manifest.now) }
{
    let mut refs = Items::new(alloc);
    if let Some(manifest) = manifest {
        refs.push(ManifestRef {
            id: manifest.id,
            extents: manifest.extents.copy(alloc)?,
        })?;
    }
    Ok(refs)
}

/// The row of a node at a path, over the rows of a base, in which it is to be expected at this place, with its new list, if it
/// has one.
fn row_over(
    alloc: Global,
    old: &HeldNodes,
    place: usize,
    news: &[NewList],
    path: &str,
    found: &Found,
) -> Result<NodeRow, AllocError>
    requires lists { Ascends list_key None news.now }
    requires path { IsTrue (is_path path.now) }
    ensures { IfOk result (λ row. row ≡ row_over path.now (node_found found.now)
        (row_at old.now path.now) (new_list news.now path.now)) }
{
    match list_at(news, path) {
        Some(list) => row_of(alloc, path, found, refs_of(alloc, &list.manifest)?),
        None => row_from(alloc, path, found, row_near(old, place, path)),
    }
}

/// The rows of nodes over those of a base, with new lists, each made where it is asked for. Contracts see the rows.
#[derive(Drop)]
pub(crate) struct RowsOver<'a> {
    old: HeldNodes<'a>,
    news: &'a [NewList],
    nodes: Vec<Row<'a>>,
    places: Vec<usize>,
}

impl<'a> Model for RowsOver<'a> {
    ghost use Rattle.std.specs.Prelude.{List, map, length, ◌≡◌, None};
    ghost use Rattle.flat_tables.specs.Rows.{Ascends};
    ghost use Rattle.snapshot_file.specs.declared.nodes.NodeRow.{NodeRow as TheRow};
    ghost use Rattle.zarr_tree.specs.Rows.{row_found, ArePaths};
    ghost use Rattle.changed_snapshot.specs.Rows.{list_key, rows_of};

    ghost Value = { List TheRow };

    ghost view = { λ r. rows_of r.news.now r.old (map row_found r.nodes.items) };

    ghost invariant = { λ r. Ascends list_key None r.news.now × ArePaths (map row_found r.nodes.items) × (length r.places.items ≡ length r.nodes.items) };
}

impl<'a> RowSource for RowsOver<'a> {
    ghost rows = { λ rows. rows };

    fn len(&self) -> usize {
        self.nodes.len()
    }

    fn row(&self, alloc: Global, at: usize) -> Result<NodeRow, AllocError> {
        let (path, found) = self.nodes[at];
        row_over(alloc, &self.old, self.places[at], self.news, path, &found)
    }
}

/// The rows of a base's nodes under changes, with these new lists.
#[tactic(auto, unfolding(crate::specs::Rows::rows_over))]
pub(crate) fn rows_over<'a>(
    alloc: Global,
    base: &'a Loaded,
    changes: &'a ChangeSet,
    news: &'a [NewList],
) -> Result<RowsOver<'a>, AllocError>
    requires { Ascends list_key None news.now }
    ensures { IfOk result (λ rows. rows ≡ rows_over changes.now news.now base.now.nodes) }
{
    let old = base.file().nodes();
    let mut left = changes.over(base);
    let most = old.len().saturating_add(changes.added_len());
    let mut nodes = Vec::with_capacity(alloc, most)?;
    let mut places = Vec::with_capacity(alloc, most)?;
    let mut from = 0;
    while let Some(row) = left.next() {
        let (place, behind) = place_from(&old, from, row.0);
        from = behind;
        nodes.push(row)?;
        places.push(place)?;
    }
    Ok(RowsOver {
        old,
        news,
        nodes,
        places,
    })
}
