//! Sets of ids of objects.

ghost use Rattle.std.specs.Prelude.{◌≡◌, ◌==◌, [], ◌∷◌, not, length, IfOk, OnOk, OnErr};
ghost use Rattle.ice_ids.specs.declared.Id12.{Id12 as TheId};
ghost use Rattle.ice_ids.specs.Sets.{ObjectsAscend, has_object, with_object};

use crate::Id12;
use std::alloc::{AllocError, Global};
use std::collections::BTreeSet;
use std::marker::Model;

/// A set of ids of objects. Contracts see it as its ids in the order of their bytes, each once. It waits for the collection,
/// which keeps the objects that are named.
#[derive(Debug, Drop)]
pub struct ObjectIds {
    ids: BTreeSet<Id12>,
}

impl Model for ObjectIds {
    ghost use Rattle.std.specs.Prelude.{List};
    ghost use Rattle.ice_ids.specs.declared.Id12.{Id12 as TheId};
    ghost use Rattle.ice_ids.specs.Sets.{ObjectsAscend};

    ghost Value = { List TheId };

    ghost view = { λ s. s.ids.keys };

    ghost invariant = { λ s. ObjectsAscend s.ids.keys };
}

impl ObjectIds {
    /// No ids. It takes no memory.
    pub fn new(alloc: Global) -> ObjectIds
        ensures { result ≡ [] }
    {
        ObjectIds {
            ids: BTreeSet::new(alloc),
        }
    }

    /// How many ids there are. They stand in the strict order of their bytes.
    pub fn len(&self) -> usize
        ensures count { result ≡ length self.now }
        ensures order { ObjectsAscend self.now }
    {
        self.ids.len()
    }

    /// Whether there are none.
    pub fn is_empty(&self) -> bool
        ensures { result ≡ (length self.now == 0) }
    {
        self.ids.is_empty()
    }

    /// Whether an id is in the set.
    pub fn contains(&self, id: &Id12) -> bool
        ensures { result ≡ has_object self.now id.now }
    {
        self.ids.contains(id)
    }

    /// One more id; whether it is new. Where memory runs out, all is as before.
    pub fn insert(&mut self, id: Id12) -> Result<bool, AllocError>
        ensures ok { OnOk result (self.new ≡ with_object self.old id) }
        ensures added { IfOk result (λ added. added ≡ not (has_object self.old id)) }
        ensures members { OnOk result ((other : TheId) → has_object self.new other
            ≡ has_object (id ∷ self.old) other) }
        ensures err { OnErr result (self.new ≡ self.old) }
    {
        let added = self.ids.insert(id)?;
        Ok(added)
    }
}
