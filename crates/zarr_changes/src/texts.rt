//! Metadata of nodes by their ids.

ghost use Rattle.std.specs.Prelude.{◌≡◌, ◌==◌, [], map, length, not, IfOk, OnOk, OnErr, option_map};
ghost use Rattle.std.specs.List.{filter};
ghost use Rattle.zarr_tree.specs.Touched.{lists, IdsAscend};
ghost use Rattle.zarr_tree.specs.Held.{meta_in};
ghost use Rattle.zarr_changes.specs.Edits.{with_row};

use crate::ids::IdSet;
use ice_ids::Id8;
use ice_items::Items;
use std::alloc::{AllocError, Global};
use std::collections::BTreeMap;
use std::marker::Model;
use zarr_meta::{Meta, SharedMeta};

/// Metadata of nodes. Contracts see the ids and the texts, in the order of the ids' bytes.
#[derive(Debug, Drop)]
pub(crate) struct Texts {
    metas: BTreeMap<Id8, SharedMeta>,
}

impl Model for Texts {
    ghost use Rattle.std.specs.Prelude.{ℕ, List};
    ghost use Rattle.std.specs.Map.{keys_of};
    ghost use Rattle.ice_ids.specs.declared.Id8.{Id8 as TheId};
    ghost use Rattle.zarr_tree.specs.Touched.{IdsAscend};
    ghost use Rattle.zarr_changes.specs.inside.Kept.{text_rows};

    ghost Value = { List (TheId × List ℕ) };

    ghost view = { λ t. text_rows t.metas.entries };

    ghost invariant = { λ t. IdsAscend (keys_of t.metas.entries) };
}

impl Texts {
    /// No metadata. It takes no memory.
    pub(crate) fn new(alloc: Global) -> Texts
        ensures { result ≡ [] }
    {
        Texts {
            metas: BTreeMap::new(alloc),
        }
    }

    /// Whether there is none.
    pub(crate) fn is_empty(&self) -> bool
        ensures { result ≡ (length self.now == 0) }
    {
        self.metas.is_empty()
    }

    /// The metadata of a node.
    pub(crate) fn get(&self, id: &Id8) -> Option<&Meta>
        ensures { option_map (λ meta. meta.now.text) result ≡ meta_in self.now id.now }
    {
        match self.metas.get(id) {
            Some(meta) => Some(meta),
            None => None,
        }
    }

    /// Metadata of a node, in place of what it has here. Where memory runs out, all is as before.
    pub(crate) fn insert(&mut self, id: Id8, meta: SharedMeta) -> Result<(), AllocError>
        ensures ok { OnOk result (self.new ≡ with_row self.old id meta.text) }
        ensures err { OnErr result (self.new ≡ self.old) }
    {
        self.metas.insert(id, meta)?;
        Ok(())
    }

    /// Takes away the metadata of these nodes.
    pub(crate) fn remove_all(&mut self, ids: &IdSet)
        ensures { self.new ≡ filter (λ row. not (lists ids.now row.0)) self.old }
    {
        self.metas.retain(|id, _| !ids.contains(id));
    }

    /// The ids of the nodes that have metadata here, in their order.
    pub(crate) fn ids(&self, alloc: Global) -> Result<Items<Id8>, AllocError>
        ensures ids { IfOk result (λ ids. ids ≡ map (λ row. row.0) self.now) }
        ensures order { IfOk result IdsAscend }
    {
        let mut ids = Items::new(alloc);
        for (id, _) in self.metas.iter() {
            ids.push(*id)?;
        }
        Ok(ids)
    }

    /// The same metadata once more.
    pub(crate) fn copy(&self, alloc: Global) -> Result<Texts, AllocError>
        ensures { IfOk result (λ texts. texts ≡ self.now) }
    {
        let mut copy = Texts::new(alloc);
        for (id, meta) in self.metas.iter() {
            copy.insert(*id, meta.share()?)?;
        }
        Ok(copy)
    }
}
