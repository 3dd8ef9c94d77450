//! Trees under changes.

ghost use Rattle.std.specs.Prelude.{◌≡◌, false, IfOk, OnOk, IsTrue};
ghost use Rattle.std.specs.Option.{option_copied};
ghost use Rattle.std.specs.FinMap as map;
ghost use Rattle.zarr_path.specs.Paths.{is_path};
ghost use Rattle.zarr_tree.specs.Nodes.{Node as TheNode};
ghost use Rattle.zarr_tree.specs.Rows.{node_found};
ghost use Rattle.zarr_tree.specs.Changes.{is_gone, patched, has_id, own_chunk, nodes_under, apply};
ghost use Rattle.tree_model.specs.Models.{changes_of, tree_of, under_of};
ghost use Rattle.tree_model.specs.inside.Putting.{put_kept, put_row};

use crate::changes::Changes;
use crate::kinds::is_array;
use crate::nodes::Nodes;
use crate::trees::Tree;
use ice_ids::Id8;
use ice_items::Items;
use std::alloc::{AllocError, Global};
use zarr_path::{Index, Path};
use zarr_tree::{Found, Node, TreeLike};

/// A tree under changes.
#[derive(Drop)]
pub struct Under<'a> {
    /// Its nodes.
    pub nodes: Nodes,
    /// The changes.
    pub changes: &'a Changes,
    /// The tree that they are of.
    pub tree: &'a Tree,
}

/// Whether a node was found, and has this id.
pub(crate) fn has_id(id: &Id8, found: Option<&Node>) -> bool
    ensures { result ≡ has_id id.now (option_copied found.entry) }
{
    match found {
        Some(node) => node.found().id == *id,
        None => false,
    }
}

/// The node that was found, once more.
fn copy_found(alloc: Global, found: Found<'_>) -> Result<Node, AllocError>
    ensures { IfOk result (λ n. n ≡ node_found found.entry) }
{
    Ok(Node::new(found.id, found.meta.copy(alloc)?))
}

/// Puts all nodes of a map into another, in place of those at the same paths.
fn put_all(alloc: Global, nodes: &Nodes, under: &mut Nodes) -> Result<(), AllocError>
    ensures { OnOk result (under.new ≡ put_kept (λ p. false) (λ (n : TheNode). n) under.old
        (map.entries nodes.now)) }
{
    let mut rows = nodes.rows();
    while let Some((path, found)) = rows.next() {
        under.put(alloc, path, copy_found(alloc, found)?)?;
    }
    Ok(())
}

impl Changes {
    /// A node of the tree, with its other metadata if it has some.
    fn patched(&self, alloc: Global, found: Found<'_>) -> Result<Node, AllocError>
        ensures { IfOk result (λ n. n ≡ patched (changes_of self.now).metas
            (node_found found.entry)) }
    {
        match self.other_meta(&found.id) {
            Some(meta) => Ok(Node::new(found.id, meta.copy(alloc)?)),
            None => copy_found(alloc, found),
        }
    }

    /// Puts a node of the tree into a map, with its other metadata, if it isn't gone.
    fn put_own(
        &self,
        alloc: Global,
        nodes: &Nodes,
        under: &mut Nodes,
        path: &str,
        found: Found<'_>,
    ) -> Result<(), AllocError>
        requires { IsTrue (is_path path.now) }
        ensures { OnOk result (under.new ≡ put_row (is_gone (changes_of self.now).dropped nodes.now)
            (patched (changes_of self.now).metas) under.old (path.now, node_found found.entry)) }
    {
        if self.is_gone(nodes, path) {
            return Ok(());
        }
        under.put(alloc, path, self.patched(alloc, found)?)
    }

    /// The tree's nodes that aren't gone, with their other metadata.
    fn own_nodes(&self, alloc: Global, nodes: &Nodes) -> Result<Nodes, AllocError>
        ensures { IfOk result
            (λ own. own ≡ put_kept (is_gone (changes_of self.now).dropped nodes.now)
            (patched (changes_of self.now).metas) map.empty (map.entries nodes.now)) }
    {
        let mut own = Nodes::new(alloc);
        let mut rows = nodes.rows();
        while let Some((path, found)) = rows.next() {
            self.put_own(alloc, nodes, &mut own, path, found)?;
        }
        Ok(own)
    }

    /// The nodes of a tree under the changes.
    pub fn nodes_under(&self, alloc: Global, nodes: &Nodes) -> Result<Nodes, AllocError>
        ensures { IfOk result (λ under. under ≡ nodes_under (changes_of self.now) nodes.now) }
    {
        let mut under = self.own_nodes(alloc, nodes)?;
        put_all(alloc, &self.added, &mut under)?;
        Ok(under)
    }

    /// The tree under the changes.
    pub fn apply<'a>(&'a self, alloc: Global, tree: &'a Tree) -> Result<Under<'a>, AllocError>
        ensures { IfOk result (λ under. under_of under ≡ apply (changes_of self.now)
            (tree_of tree.now)) }
    {
        Ok(Under {
            nodes: self.nodes_under(alloc, &tree.nodes)?,
            changes: self,
            tree,
        })
    }
}

impl<'a> Under<'a> {
    /// The tree's own chunk, where the node there has this id.
    fn own_chunk(&self, id: &Id8, path: &Path, index: &Index) -> Option<&Items<u8>>
        ensures { option_copied result ≡ own_chunk (map.get self.now.tree.now.nodes path.now) id.now
            ((tree_of self.now.tree.now).chunk path.now index.now) }
    {
        if has_id(id, self.tree.nodes.find(path.as_str())) {
            self.tree.chunk(path, index)
        } else {
            None
        }
    }

    /// The bytes of the chunk that is held at a path and an index.
    pub fn chunk(&self, path: &Path, index: &Index) -> Option<&Items<u8>>
        ensures { option_copied result ≡ (under_of self.now).chunk path.now index.now }
    {
        let found = self.nodes.find(path.as_str())?.found();
        if !is_array(found.meta) {
            return None;
        }
        match self.changes.entry(&found.id, index) {
            Some(entry) => entry,
            None => self.own_chunk(&found.id, path, index),
        }
    }
}

impl<'a> TreeLike for Under<'a> {
    ghost nodes = { λ u. u.nodes };

    fn find(&self, path: &str) -> Option<Found<'_>> {
        match self.nodes.find(path) {
            Some(node) => Some(node.found()),
            None => None,
        }
    }

    fn len(&self) -> usize {
        self.nodes.len()
    }

    fn row(&self, at: usize) -> (&str, Found<'_>) {
        self.nodes.row(at)
    }
}
