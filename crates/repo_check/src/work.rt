//! What a check has met, and the faults that it found.

ghost use Rattle.std.specs.Prelude.{◌≡◌, ◌<◌, ◌++◌, ◌∷◌, [], if◌then◌else◌, vec_len, vec_capacity, IfOk, OnOk, OnErr};
ghost use Rattle.ice_ids.specs.Sets.{has_object};
ghost use Rattle.intact.specs.Told.{found_log, found_part};
ghost use Rattle.repo_check.specs.Plays.{told_log, told_part};
ghost use Rattle.repo_check.specs.Works.{no_work, new_walk, has_file, has_part, meet_snapshot, meet_file, meet_part, tell, verdict};
ghost use Rattle.repo_check.specs.inside.Telling.{Notes};

use check_reports::{CheckFault, CheckFaults, Checked, FaultKind};
use ice_ids::{Id12, ObjectIds};
use ice_items::Items;
use intact::{FileVisit, PartVisit, log_seen, part_seen};
use std::alloc::{AllocError, Global};
use std::collections::BTreeSet;
use std::marker::Model;
use std::mem;
use store_api::{Got, Key, Refusal};

/// What a check has met, and the faults that it found. Sets are ordered, so that a look-up takes few steps whatever the ids are.
#[derive(Drop)]
pub(crate) struct Work {
    alloc: Global,
    met: ObjectIds,
    walk: ObjectIds,
    files: BTreeSet<FileVisit>,
    parts: BTreeSet<PartVisit>,
    objects: ObjectIds,
    bad_files: ObjectIds,
    bad_objects: ObjectIds,
    faults: Vec<CheckFault>,
}

impl Model for Work {
    ghost use Rattle.repo_check.specs.Works.{Work as TheWork};
    ghost use Rattle.repo_check.specs.inside.Telling.{AreTold};

    ghost Value = { TheWork };

    ghost view = { λ w. record { met = w.met; walk = w.walk; files = w.files.keys; parts = w.parts.keys; objects = w.objects; faults = w.faults.items } };

    ghost invariant = { λ w. AreTold w.bad_files w.bad_objects w.faults.items };
}

impl Work {
    /// Nothing met, and no fault. It takes no memory.
    pub fn new(alloc: Global) -> Work
        ensures { result ≡ no_work }
    {
        Work {
            alloc,
            met: ObjectIds::new(alloc),
            walk: ObjectIds::new(alloc),
            files: BTreeSet::new(alloc),
            parts: BTreeSet::new(alloc),
            objects: ObjectIds::new(alloc),
            bad_files: ObjectIds::new(alloc),
            bad_objects: ObjectIds::new(alloc),
            faults: Vec::new(alloc),
        }
    }

    /// Whether this walk has met a snapshot.
    pub fn in_walk(&self, id: &Id12) -> bool
        ensures { result ≡ has_object self.now.walk id.now }
    {
        self.walk.contains(id)
    }

    /// Whether any walk has met a snapshot.
    pub fn has_met(&self, id: &Id12) -> bool
        ensures { result ≡ has_object self.now.met id.now }
    {
        self.met.contains(id)
    }

    /// Whether a manifest was got for this.
    pub fn has_file(&self, visit: &FileVisit) -> bool
        ensures { result ≡ has_file self.now.files visit.now }
    {
        self.files.contains(visit)
    }

    /// Whether an object was got for this.
    pub fn has_part(&self, visit: &PartVisit) -> bool
        ensures { result ≡ has_part self.now.parts visit.now }
    {
        self.parts.contains(visit)
    }

    /// Another walk begins.
    pub fn begin_walk(&mut self)
        ensures { self.new ≡ new_walk self.old }
    {
        drop(mem::replace(&mut self.walk, ObjectIds::new(self.alloc)));
    }

    /// A snapshot was got.
    pub fn meet_snapshot(&mut self, id: Id12) -> Result<(), AllocError>
        ensures ok { OnOk result (self.new ≡ meet_snapshot id self.old) }
        ensures err { OnErr result (self.new.faults ≡ self.old.faults) }
    {
        let _new = self.met.insert(id)?;
        let _new = self.walk.insert(id)?;
        Ok(())
    }

    /// A manifest was got for this.
    pub fn meet_file(&mut self, visit: FileVisit) -> Result<(), AllocError>
        ensures ok { OnOk result (self.new ≡ meet_file visit self.old) }
        ensures err { OnErr result (self.new.faults ≡ self.old.faults) }
    {
        let _new = self.files.insert(visit)?;
        Ok(())
    }

    /// An object was got for this.
    pub fn meet_part(&mut self, visit: PartVisit) -> Result<(), AllocError>
        ensures ok { OnOk result (self.new ≡ meet_part visit self.old) }
        ensures err { OnErr result (self.new.faults ≡ self.old.faults) }
    {
        let _new = self.parts.insert(visit)?;
        let _new = self.objects.insert(visit.object)?;
        Ok(())
    }

    /// Tells a fault. A manifest and an object with chunks have one fault at most.
    pub fn tell(&mut self, key: Key, kind: FaultKind) -> Result<(), AllocError>
        ensures ok { OnOk result (self.new ≡ tell key kind self.old) }
        ensures err { OnErr result (self.new.faults ≡ self.old.faults) }
    {
        let fault = CheckFault { key, kind };
        match make_room(
            &mut self.faults,
            &mut self.bad_files,
            &mut self.bad_objects,
            &fault.key,
        ) {
            Ok(new) => {
                push_new(&mut self.faults, fault, new);
                Ok(())
            }
            Err(none) => {
                drop(fault);
                Err(none)
            }
        }
    }

    /// A manifest was got for this, and this is wrong with it.
    pub fn miss_file(&mut self, visit: FileVisit, kind: FaultKind) -> Result<(), AllocError>
        ensures ok { OnOk result (self.new ≡ tell (Key.Manifest visit.manifest) kind
            (meet_file visit self.old)) }
        ensures err { OnErr result (self.new.faults ≡ self.old.faults) }
    {
        match self.meet_file(visit) {
            Ok(()) => self.tell(Key::Manifest(visit.manifest), kind),
            Err(none) => {
                drop(kind);
                Err(none)
            }
        }
    }

    /// An object was got for this, and this is wrong with it.
    fn miss_part(&mut self, visit: PartVisit, kind: FaultKind) -> Result<(), AllocError>
        ensures ok { OnOk result (self.new ≡ tell (Key.Chunk visit.object) kind
            (meet_part visit self.old)) }
        ensures err { OnErr result (self.new.faults ≡ self.old.faults) }
    {
        match self.meet_part(visit) {
            Ok(()) => self.tell(Key::Chunk(visit.object), kind),
            Err(none) => {
                drop(kind);
                Err(none)
            }
        }
    }

    /// Takes what the get of a log found.
    pub fn take_log(&mut self, id: Id12, got: Got) -> Result<(), AllocError>
        ensures ok { OnOk result (self.new ≡ told_log id (found_log id got) self.old) }
        ensures err { OnErr result (self.new.faults ≡ self.old.faults) }
    {
        match log_seen(id, got) {
            Ok(()) => Ok(()),
            Err(kind) => self.tell(Key::Txn(id), kind),
        }
    }

    /// Takes what the get of an object for a part found.
    pub fn take_part(&mut self, visit: PartVisit, got: Got) -> Result<(), AllocError>
        ensures ok { OnOk result (self.new ≡ told_part visit (found_part visit got) self.old) }
        ensures err { OnErr result (self.new.faults ≡ self.old.faults) }
    {
        match part_seen(&visit, got) {
            Ok(()) => self.meet_part(visit),
            Err(kind) => self.miss_part(visit, kind),
        }
    }

    /// How many objects there are, or how many faults.
    pub fn verdict(&self) -> Result<Checked, Refusal>
        ensures { result ≡ verdict self.now }
    {
        if self.faults.is_empty() {
            return Ok(Checked {
                snapshots: self.met.len() as u64,
                chunks: self.objects.len() as u64,
            });
        }
        Err(Refusal::Unsound(self.faults.len() as u64))
    }

    /// The faults, in the order of finding.
    pub fn into_faults(self) -> CheckFaults
        ensures { result ≡ self.faults }
    {
        Items::from_vec(self.faults)
    }
}

/// Takes the memory for a fault of this object, and notes it; whether it is to be told.
fn make_room(
    faults: &mut Vec<CheckFault>,
    files: &mut ObjectIds,
    objects: &mut ObjectIds,
    key: &Key,
) -> Result<bool, AllocError>
    ensures ok { IfOk result (λ new. Notes key.now files.old objects.old new files.new
        objects.new) }
    ensures room { OnOk result (vec_len faults.new < vec_capacity faults.new) }
    ensures faults { faults.new.items ≡ faults.old.items }
    ensures files { OnErr result (files.new ≡ files.old) }
    ensures objects { OnErr result (objects.new ≡ objects.old) }
{
    faults.reserve(1)?;
    note(files, objects, key)
}

/// Notes a fault of this object; whether it is to be told.
fn note(files: &mut ObjectIds, objects: &mut ObjectIds, key: &Key) -> Result<bool, AllocError>
    ensures ok { IfOk result (λ new. Notes key.now files.old objects.old new files.new
        objects.new) }
    ensures files { OnErr result (files.new ≡ files.old) }
    ensures objects { OnErr result (objects.new ≡ objects.old) }
{
    match key {
        Key::Manifest(id) => files.insert(*id),
        Key::Chunk(id) => objects.insert(*id),
        Key::Snapshot(_) | Key::Txn(_) => Ok(true),
        Key::Branch(_) | Key::Tag(_) | Key::Tombstone(_) | Key::Lease(_) => Ok(true),
    }
}

/// One more fault, where it is new.
fn push_new(faults: &mut Vec<CheckFault>, fault: CheckFault, new: bool)
    requires { vec_len faults.old < vec_capacity faults.old }
    ensures { faults.new.items
        ≡ (if new then faults.old.items ++ fault ∷ [] else faults.old.items) }
{
    if !new {
        drop(fault);
        return;
    }
    faults.push_reserved(fault);
}
