//! Sets of ids.

ghost use Rattle.std.specs.Prelude.{◌≡◌, ◌==◌, [], length, IfOk, OnOk, OnErr};
ghost use Rattle.zarr_tree.specs.Touched.{lists};
ghost use Rattle.zarr_changes.specs.Edits.{with_id};

use ice_ids::Id8;
use ice_items::Items;
use std::alloc::{AllocError, Global};
use std::collections::BTreeSet;
use std::marker::Model;

/// A set of ids. Contracts see them in the order of their bytes.
#[derive(Debug, Drop)]
pub struct IdSet {
    ids: BTreeSet<Id8>,
}

impl Model for IdSet {
    ghost use Rattle.std.specs.Prelude.{List};
    ghost use Rattle.ice_ids.specs.declared.Id8.{Id8 as TheId};
    ghost use Rattle.zarr_tree.specs.Touched.{IdsAscend};

    ghost Value = { List TheId };

    ghost view = { λ s. s.ids.keys };

    ghost invariant = { λ s. IdsAscend s.ids.keys };
}

impl IdSet {
    /// No ids. It takes no memory.
    pub fn new(alloc: Global) -> IdSet
        ensures { result ≡ [] }
    {
        IdSet {
            ids: BTreeSet::new(alloc),
        }
    }

    /// Whether there are none.
    pub fn is_empty(&self) -> bool
        ensures { result ≡ (length self.now == 0) }
    {
        self.ids.is_empty()
    }

    /// Whether an id is in the set.
    pub fn contains(&self, id: &Id8) -> bool
        ensures { result ≡ lists self.now id.now }
    {
        self.ids.contains(id)
    }

    /// One more id. Where memory runs out, all is as before.
    pub fn insert(&mut self, id: Id8) -> Result<(), AllocError>
        ensures ok { OnOk result (self.new ≡ with_id self.old id) }
        ensures err { OnErr result (self.new ≡ self.old) }
    {
        self.ids.insert(id)?;
        Ok(())
    }

    /// The same ids once more.
    pub fn copy(&self) -> Result<IdSet, AllocError>
        ensures { IfOk result (λ ids. ids ≡ self.now) }
    {
        Ok(IdSet {
            ids: self.ids.clone()?,
        })
    }

    /// The ids in their order.
    pub fn items(&self, alloc: Global) -> Result<Items<Id8>, AllocError>
        ensures { IfOk result (λ ids. ids ≡ self.now) }
    {
        Ok(Items::from_vec(self.ids.iter().copied().collect(alloc)?))
    }
}
