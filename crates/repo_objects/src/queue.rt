//! Ids that were found, each to be taken in the order of finding.

ghost use Rattle.std.specs.Prelude.{◌≡◌, [], length, OnOk};
ghost use Rattle.ice_ids.specs.Sets.{has_object};
ghost use Rattle.held_manifest.specs.Objects.{objects_of};
ghost use Rattle.repo_objects.specs.Lines.{enter, enter_some, enter_ids, enter_refs, enter_rows, no_ids, Pops};

use held_manifest::HeldManifest;
use held_snapshot::{HeldManifestRefs, HeldNodes};
use ice_ids::{Id12, ObjectIds};
use std::alloc::{AllocError, Global};
use std::collections::VecDeque;
use std::marker::Model;

/// Ids, each once, and those of them that are still to be taken, in the order of finding.
#[derive(Drop)]
pub struct Queue {
    found: ObjectIds,
    left: VecDeque<Id12>,
}

impl Model for Queue {
    ghost use Rattle.repo_objects.specs.Lines.{Line};

    ghost Value = { Line };

    ghost view = { λ q. record { all = q.found; todo = q.left.items } };
}

impl Queue {
    /// No ids. It takes no memory.
    pub fn new(alloc: Global) -> Queue
        ensures { result ≡ no_ids }
    {
        Queue {
            found: ObjectIds::new(alloc),
            left: VecDeque::new(alloc),
        }
    }

    /// Whether an id was found.
    pub fn has(&self, id: &Id12) -> bool
        ensures { result ≡ has_object self.now.all id.now }
    {
        self.found.contains(id)
    }

    /// Adds an id, where it is new.
    pub fn enter(&mut self, id: Id12) -> Result<(), AllocError>
        ensures { OnOk result (self.new ≡ enter id self.old) }
    {
        if self.found.insert(id)? {
            self.left.push_back(id)?;
        }
        Ok(())
    }

    /// Adds an id, if there is one, where it is new.
    pub fn enter_some(&mut self, id: Option<Id12>) -> Result<(), AllocError>
        ensures { OnOk result (self.new ≡ enter_some id self.old) }
    {
        match id {
            None => Ok(()),
            Some(id) => self.enter(id),
        }
    }

    /// Adds these ids, those that are new.
    pub fn enter_ids(&mut self, ids: &[Id12]) -> Result<(), AllocError>
        ensures { OnOk result (self.new ≡ enter_ids ids.now self.old) }
    {
        for id in ids {
            self.enter(*id)?;
        }
        Ok(())
    }

    /// Adds the objects in which a manifest has chunks, those that are new.
    pub fn enter_objects(&mut self, held: &HeldManifest) -> Result<(), AllocError>
        ensures { OnOk result (self.new ≡ enter_ids (objects_of held.now) self.old) }
    {
        for id in held.objects() {
            self.enter(id)?;
        }
        Ok(())
    }

    /// Adds the manifests that an array names, those that are new.
    fn enter_refs(&mut self, manifests: &HeldManifestRefs) -> Result<(), AllocError>
        ensures { OnOk result (self.new ≡ enter_refs manifests.now self.old) }
    {
        for at in 0..manifests.len() {
            self.enter(manifests.at(at).id())?;
        }
        Ok(())
    }

    /// Adds the manifests that rows name, those that are new.
    pub fn enter_rows(&mut self, rows: &HeldNodes) -> Result<(), AllocError>
        ensures { OnOk result (self.new ≡ enter_rows rows.now self.old) }
    {
        for at in 0..rows.len() {
            self.enter_refs(&rows.at(at).manifests())?;
        }
        Ok(())
    }

    /// Leaves none to be taken. It takes no memory.
    pub fn leave(&mut self)
        ensures { self.new ≡ record self.old { todo = [] } }
    {
        self.left.clear();
    }

    /// How many are still to be taken.
    pub fn waiting(&self) -> usize
        ensures { result ≡ length self.now.todo }
    {
        self.left.len()
    }

    /// Takes the next one.
    pub fn take(&mut self) -> Option<Id12>
        ensures { Pops self.old result self.new }
    {
        self.left.pop_front()
    }
}
