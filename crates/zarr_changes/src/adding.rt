//! Adding nodes.

ghost use Rattle.std.specs.Prelude.{◌≡◌, ◌||◌, nat_le, is_some};
ghost use Rattle.std.specs.FinMap as map;
ghost use Rattle.zarr_tree.specs.Edits.{is_group_at, most_nodes, unless};
ghost use Rattle.zarr_tree.specs.Held.{nodes_over};
ghost use Rattle.zarr_changes.specs.Edits.{with_added};
ghost use Rattle.zarr_changes.specs.Sets.{add_refusal, Enters};
ghost use Rattle.zarr_changes.specs.inside.Own.{own_node, place_refusal};

use crate::kinds::is_group;
use crate::set::ChangeSet;
use ice_ids::Id8;
use std::alloc::Global;
use zarr_meta::SharedMeta;
use zarr_path::{Path, parent_text};
use zarr_tree::{EditFault, MOST_NODES, TreeLike};

impl ChangeSet {
    /// Whether a group of the overlay stands at a path.
    fn has_group<B: TreeLike>(&self, base: &B, path: &str) -> bool
        ensures { result ≡ is_group_at (map.get (nodes_over self.now (B.nodes base.now)) path.now) }
    {
        match self.lookup(base, path) {
            Some(found) => is_group(found.meta),
            None => false,
        }
    }

    /// Whether the overlay has as many nodes as a tree may have. Only where base and changes have that many together are
    /// they walked, to find those that stand at one path or are gone.
    fn is_full<B: TreeLike>(&self, base: &B) -> bool
        ensures { result ≡ nat_le most_nodes (map.len (nodes_over self.now (B.nodes base.now))) }
    {
        if self.added.len().saturating_add(base.len()) < MOST_NODES {
            return false;
        }
        self.over(base).reaches(MOST_NODES)
    }

    /// Why no node can be added at a path where none stands.
    fn place_fault<B: TreeLike>(&self, base: &B, path: &Path) -> Option<EditFault>
        ensures { result ≡ place_refusal (nodes_over self.now (B.nodes base.now)) path.now }
    {
        if !path.is_root() && !self.has_group(base, parent_text(path.as_str())) {
            return Some(EditFault::NoParent);
        }
        if self.is_full(base) {
            return Some(EditFault::Full);
        }
        None
    }

    /// Whether a node at this path is refused even where no added one stands there.
    fn is_closed<B: TreeLike>(&self, base: &B, path: &Path) -> bool
        ensures { result ≡ (is_some (own_node self.now (B.nodes base.now) path.now) || is_some
            (place_refusal (nodes_over self.now (B.nodes base.now)) path.now)) }
    {
        self.own(base, path.as_str()).is_some() || self.place_fault(base, path).is_some()
    }

    /// Refuses exactly as adding a node at this path to the overlay would, whatever its id and its metadata. It takes no
    /// memory.
    pub fn may_add<B: TreeLike>(&self, base: &B, path: &Path) -> Result<(), EditFault>
        ensures { result ≡ unless (add_refusal (nodes_over self.now (B.nodes base.now)) path.now)
            tt }
    {
        if self.lookup(base, path.as_str()).is_some() {
            return Err(EditFault::NodeExists);
        }
        match self.place_fault(base, path) {
            Some(fault) => Err(fault),
            None => Ok(()),
        }
    }

    /// Adds a node. It doesn't ask whether the id is a new one: where it isn't, the node is entered all the same. After a
    /// refusal, and where memory runs out, the set is as before. Among added nodes its path is searched for once.
    pub fn add<B: TreeLike>(
        &mut self,
        alloc: Global,
        base: &B,
        path: &Path,
        id: Id8,
        meta: SharedMeta,
    ) -> Result<(), EditFault>
        ensures { Enters (add_refusal (nodes_over self.old (B.nodes base.now)) path.now)
            (with_added self.old path.now (record { id = id; text = meta.text })) self.old result
            self.new }
    {
        if self.is_closed(base, path) {
            drop(meta);
            return self.may_add(base, path);
        }
        let free = self.added.insert_new(alloc, path, id, meta)?;
        if !free {
            return Err(EditFault::NodeExists);
        }
        Ok(())
    }
}
