//! Dropping nodes.

ghost use Rattle.std.specs.Prelude.{◌≡◌, ◌&&◌, IfOk};
ghost use Rattle.std.specs.List.{list_any};
ghost use Rattle.std.specs.FinMap as map;
ghost use Rattle.ice_ids.specs.declared.Id8.{Id8 as TheId};
ghost use Rattle.zarr_tree.specs.Changes.{has_id, has_id_within};
ghost use Rattle.zarr_tree.specs.Touched.{lists};
ghost use Rattle.zarr_tree.specs.Held.{nodes_over};
ghost use Rattle.zarr_changes.specs.Edits.{without_node};
ghost use Rattle.zarr_changes.specs.Sets.{drop_refusal, Enters};
ghost use Rattle.zarr_changes.specs.inside.Own.{within_rows, texts_left, chunks_left};

use crate::ids::IdSet;
use crate::overlay::Overlay;
use crate::set::ChangeSet;
use ice_ids::Id8;
use std::alloc::{AllocError, Global};
use zarr_path::{Path, is_within};
use zarr_tree::{EditFault, TreeLike};

/// Whether a node of this id stands at a path of the base.
fn has_own<B: TreeLike>(base: &B, path: &str, id: Id8) -> bool
    ensures { result ≡ has_id id (map.get (B.nodes base.now) path.now) }
{
    match base.find(path) {
        Some(own) => own.id == id,
        None => false,
    }
}

/// The ids of an overlay's nodes at a path and beneath it.
fn ids_within<B: TreeLike>(
    alloc: Global,
    mut overlay: Overlay<'_, B>,
    of: &str,
) -> Result<IdSet, AllocError>
    ensures { IfOk result (λ ids. (id : TheId) → lists ids id ≡ within_rows overlay.entry of.now
        id) }
{
    let mut ids = IdSet::new(alloc);
    while let Some((path, found)) = overlay.next() {
        if is_within(of, path) {
            ids.insert(found.id)?;
        }
    }
    Ok(ids)
}

impl ChangeSet {
    /// The ids of the overlay's nodes at a path and beneath it, as far as other metadata or entries may be theirs: where there
    /// are neither, the overlay isn't walked.
    fn ids_with_changes<B: TreeLike>(
        &self,
        alloc: Global,
        base: &B,
        path: &str,
    ) -> Result<IdSet, AllocError>
        ensures texts { IfOk result (λ ids. texts_left self.now (lists ids) ≡ texts_left self.now
            (has_id_within (nodes_over self.now (B.nodes base.now)) path.now)) }
        ensures chunks { IfOk result (λ ids. chunks_left self.now (lists ids) ≡ chunks_left self.now
            (has_id_within (nodes_over self.now (B.nodes base.now)) path.now)) }
    {
        if self.metas.is_empty() && self.entries.is_empty() {
            return Ok(IdSet::new(alloc));
        }
        ids_within(alloc, self.over(base), path)
    }

    /// Drops the overlay's node at a path, and all beneath it. After a refusal, and where memory runs out, the set is as
    /// before.
    pub fn drop_node<B: TreeLike>(
        &mut self,
        alloc: Global,
        base: &B,
        path: &Path,
    ) -> Result<(), EditFault>
        ensures { Enters (drop_refusal (nodes_over self.old (B.nodes base.now)) path.now)
            (without_node self.old (B.nodes base.now) path.now) self.old result self.new }
    {
        let text = path.as_str();
        let Some(found) = self.lookup(base, text) else {
            return Err(EditFault::NoNode);
        };
        let id = found.id;
        let ids = self.ids_with_changes(alloc, base, text)?;
        if has_own(base, text, id) {
            self.dropped.insert(id)?;
        }
        self.added.remove_within(text);
        self.metas.remove_all(&ids);
        self.entries.remove_all(&ids);
        Ok(())
    }
}
