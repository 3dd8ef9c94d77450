//! Look-ups in a base under changes.

ghost use Rattle.std.specs.Prelude.{◌≡◌, length, map as list_map, ◌<◌, IfOk, IfSome, option_map};
ghost use Rattle.std.specs.FinMap as map;
ghost use Rattle.zarr_path.specs.Paths.{before_slash};
ghost use Rattle.zarr_tree.specs.Rows.{node_found};
ghost use Rattle.zarr_tree.specs.Changes.{is_dropped, is_gone, patched};
ghost use Rattle.zarr_tree.specs.Touched.{lists, IdsAscend};
ghost use Rattle.zarr_tree.specs.Held.{meta_in, nodes_over};
ghost use Rattle.zarr_changes.specs.inside.Own.{own_node};

use crate::set::ChangeSet;
use ice_ids::Id8;
use std::alloc::{AllocError, Global};
use zarr_meta::Meta;
use zarr_tree::{Found, Ids, TreeLike};

/// The text before the last slash.
pub fn before_slash(text: &str) -> Option<&str>
    ensures value { before_slash text.now ≡ option_map (λ before. before.now) result }
    ensures shorter { IfSome result (λ before. length before.now < length text.now) }
{
    let (before, _) = text.rsplit_once('/')?;
    Some(before)
}

impl ChangeSet {
    /// Whether the base has a node at the path of this text that was dropped.
    fn is_dropped<B: TreeLike>(&self, base: &B, path: &str) -> bool
        ensures { result ≡ is_dropped (lists self.now.dropped)
            (map.get (B.nodes base.now) path.now) }
    {
        match base.find(path) {
            Some(found) => self.dropped.contains(&found.id),
            None => false,
        }
    }

    /// Whether what the base has at a path is gone: it or something above it was dropped.
    pub(crate) fn is_gone<B: TreeLike>(&self, base: &B, path: &str) -> bool
        ensures { result ≡ is_gone (lists self.now.dropped) (B.nodes base.now) path.now }
    {
        if self.dropped.is_empty() {
            return false;
        }
        let mut next = Some(path);
        while let Some(text) = next {
            if self.is_dropped(base, text) {
                return true;
            }
            next = before_slash(text);
        }
        path.starts_with('/') && self.is_dropped(base, "/")
    }

    /// The other metadata that a node of the base has here, if any. It takes no memory.
    pub fn other_meta(&self, id: &Id8) -> Option<&Meta>
        ensures { option_map (λ meta. meta.now.text) result ≡ meta_in self.now.metas id.now }
    {
        self.metas.get(id)
    }

    /// The ids of the nodes of the base that have other metadata here, in the order of their bytes. Where there are none it takes
    /// no memory.
    pub fn other_ids(&self, alloc: Global) -> Result<Ids, AllocError>
        ensures ids { IfOk result (λ ids. ids ≡ list_map (λ row. row.0) self.now.metas) }
        ensures order { IfOk result IdsAscend }
    {
        self.metas.ids(alloc)
    }

    /// A node of the base, with its other metadata if it has some here.
    pub(crate) fn patched<'a>(&'a self, found: Found<'a>) -> Found<'a>
        ensures { node_found result ≡ patched (meta_in self.now.metas) (node_found found.entry) }
    {
        match self.metas.get(&found.id) {
            Some(meta) => Found { id: found.id, meta },
            None => found,
        }
    }

    /// The base's node at a path, if it isn't gone.
    pub(crate) fn own<'a, B: TreeLike>(&'a self, base: &'a B, path: &str) -> Option<Found<'a>>
        ensures { option_map node_found result ≡ own_node self.now (B.nodes base.now) path.now }
    {
        let found = base.find(path)?;
        if self.is_gone(base, path) {
            return None;
        }
        Some(self.patched(found))
    }

    /// The overlay's node at a path; `None` exactly where there is none. It takes no memory.
    pub fn lookup<'a, B: TreeLike>(&'a self, base: &'a B, path: &str) -> Option<Found<'a>>
        ensures { option_map node_found result ≡ map.get (nodes_over self.now (B.nodes base.now))
            path.now }
    {
        match self.added.find(path) {
            Some(node) => Some(node.found()),
            None => self.own(base, path),
        }
    }
}
