//! Which put stands at each key.

ghost use Rattle.mem_store.specs.Shelves.{IsSorted};

use crate::kept_events::{changed_key, left_by};
use object_store::{Key, Op, Part};
use std::alloc::{AllocError, Global};
use std::collections::BTreeMap;

/// The positions of the puts that stand: a map for each part, in the order of its listing.
#[derive(Debug, Drop)]
pub(crate) struct Index {
    shelves: [BTreeMap<Key, u64>; Part::COUNT],
    ghost sorted: { IsSorted shelves },
}

impl Index {
    ghost use Rattle.std.specs.Prelude.{◌≡◌, Bool, if◌then◌else◌, None, OnErr, OnOk};
    ghost use Rattle.object_store.specs.Machine.{same_key};
    ghost use Rattle.mem_store.specs.Places.{shelf_of, place_in, place_after};
    ghost use Rattle.object_store.specs.declared.keys.Key.{Key as Name};

    /// Where nothing stands.
    pub(crate) fn new(alloc: Global) -> Index
        ensures { (key : Name) → place_in result key ≡ None }
    {
        Index {
            shelves: [
                BTreeMap::new(alloc),
                BTreeMap::new(alloc),
                BTreeMap::new(alloc),
                BTreeMap::new(alloc),
                BTreeMap::new(alloc),
                BTreeMap::new(alloc),
                BTreeMap::new(alloc),
            ],
        }
    }

    /// What stands in a part, in the order of its listing.
    pub(crate) fn shelf(&self, part: Part) -> &BTreeMap<Key, u64>
        ensures { shelf_of self.now part ≡ Some result.now }
    {
        &self.shelves[part.place()]
    }

    /// The put that stands at a key.
    pub(crate) fn place(&self, key: &Key) -> Option<u64>
        ensures { result ≡ place_in self.now key.now }
    {
        self.shelf(key.part()).get(key).copied()
    }

    /// A put stands at its key.
    fn enter(&mut self, key: Key, place: u64) -> Result<(), AllocError>
        ensures ok { OnOk result ((q : Name)
            → place_in self.new q ≡ (if same_key key q then Some place else place_in self.old q)) }
        ensures err { OnErr result ((q : Name) → place_in self.new q ≡ place_in self.old q) }
    {
        self.shelves[key.part().place()].insert(key, place)?;
        Ok(())
    }

    /// Nothing stands at the key any more.
    fn leave(&mut self, key: &Key)
        ensures { (q : Name)
            → place_in self.new q ≡ (if same_key key.now q then None else place_in self.old q) }
    {
        self.shelves[key.part().place()].remove(key);
    }

    /// One more operation, at this place. Without memory nothing has changed.
    pub(crate) fn follow(
        &mut self,
        alloc: Global,
        op: &Op,
        done: bool,
        place: u64,
    ) -> Result<(), AllocError>
        ensures ok { OnOk result ((q : Name) → place_in self.new q ≡ place_after place op.now done q
            (place_in self.old q)) }
        ensures err { OnErr result ((q : Name) → place_in self.new q ≡ place_in self.old q) }
    {
        let Some(key) = changed_key(op) else {
            return Ok(());
        };
        let at = self.place(key);
        let left = left_by(op, done, place, at);
        if left == at {
            return Ok(());
        }
        match left {
            None => {
                self.leave(key);
                Ok(())
            }
            Some(place) => self.enter(key.copy(alloc)?, place),
        }
    }
}
