//! The machine that marks what refs and leases reach, and answers what is doomed.

ghost use Rattle.std.specs.Prelude.{◌≡◌, ℕ, ◌+◌, ◌-◌, ◌<◌, ◌≤◌, ◌++◌, length, Result, Ok, Err, IfOk, IfErr, OnOk, Some, true, false};
ghost use Rattle.object_store.specs.declared.events.Op.TheVariants as Op;
ghost use Rattle.object_store.specs.declared.keys.Part.TheVariants as Part;
ghost use Rattle.store_api.specs.Callers.{Fits};
ghost use Rattle.store_api.specs.Program.{IsAsk, IsDone, Lands, Steps, is_fault};
ghost use Rattle.store_api.specs.Driving.{Awaits, Took};
ghost use Rattle.repo_read.specs.Chains.{most_snapshots};
ghost use Rattle.live_refs.specs.Live.{live};
ghost use Rattle.chunk_gc.specs.Programs.{asks, with_ref, with_lease, get_refs, with_file, get_files, with_snapshot, mark_files, mark_got, begin_leased, keeps, dooms, swept, sweeping, list_objects, told_doomed, list_snapshots, list_logs, list_manifests, list_chunks, list_leases, list_tags, list_branches, marking, mark_program, MayRefuseMark};
ghost use Rattle.held_manifest.specs.Objects.{objects_of};
ghost use Rattle.chunk_gc.specs.Lines.{with_ids};
ghost use Rattle.chunk_gc.specs.inside.Working.{work_of, branch_rest, tag_rest, lease_rest, snapshot_rest, manifest_rest, marking_rest, mark_rest, many, Tells, phase_left, marks_left, begins_left, leases_left, tags_left, marking_left, mark_left};

use crate::queue::Keys;
use crate::telling::{first_told, listed_told, live_keys, manifest_got, ref_got, snapshot_got};
use held_manifest::HeldManifest;
use ice_ids::{Id12, ObjectIds};
use ice_items::Items;
use repo_objects::{Loaded, Queue};
use repo_read::MOST_SNAPSHOTS;
use std::alloc::{AllocError, Global};
use std::mem;
use store_api::{Entry, Key, Machine, Next, Part, Refusal, Reply, Request, Store, drive};

/// The operation that comes next.
#[derive(Drop)]
pub enum Marking {
    /// The branches are listed.
    Branches,
    /// A branch is got.
    Branch(Key),
    /// The tags are listed.
    Tags,
    /// A tag is got.
    Tag(Key),
    /// The leases are listed.
    Leases,
    /// A lease is got.
    Lease(Key),
    /// A snapshot is got.
    Snapshot(Id12),
    /// A manifest is got.
    Manifest(Id12),
    /// The snapshots are listed.
    Snapshots,
    /// The logs are listed.
    Txns,
    /// The manifests are listed.
    Manifests,
    /// The objects with chunks are listed.
    Chunks,
    /// The machine has ended.
    Ended,
}

/// A machine that finds what a collection removes. It lists the branches and gets each, then lists the tags and gets each that
/// has no tombstone, then lists the leases and gets each; one that is dropped between is passed over. From what the refs name it
/// gets snapshots in the order of finding, each with the manifests that it names and that weren't got before, and finds its
/// parent; and then so from what the leases name, where it passes over what is absent. Then it lists snapshots, logs, manifests
/// and objects with chunks, and answers the keys of those that are older than the cutoff and that no ref and no lease reaches,
/// in this order. It removes nothing. It may answer `CutoffAhead` (at its first operation, where the cutoff is later than the
/// store's time), `Missing` (of what refs reach), `BadFile`, `TooDeep` (where it has read [`MOST_SNAPSHOTS`] and a further one is
/// found), `StoreFault` or `NoMemory` instead.
#[derive(Drop)]
pub struct Mark {
    alloc: Global,
    state: Marking,
    cutoff: u64,
    left: u32,
    names: Keys,
    snapshots: Queue,
    files: Queue,
    logs: ObjectIds,
    chunks: ObjectIds,
    leased: Items<Id12>,
    passes: bool,
    doomed: Keys,
}

impl Machine for Mark {
    type Answer = Keys;

    ghost rest = { mark_rest };

    ghost left = { mark_left };

    ghost keeps = { λ result old new. Unit {0} };

    ghost may_refuse = { MayRefuseMark };

    fn request(&self) -> Result<Request<'_>, AllocError> {
        match &self.state {
            Marking::Branches => Ok(Request::List {
                part: Part::Branches,
            }),
            Marking::Branch(key) | Marking::Tag(key) | Marking::Lease(key) => Ok(Request::Get {
                key: key.copy(self.alloc)?,
            }),
            Marking::Tags => Ok(Request::List { part: Part::Tags }),
            Marking::Leases => Ok(Request::List { part: Part::Leases }),
            Marking::Snapshot(id) => Ok(Request::Get {
                key: Key::Snapshot(*id),
            }),
            Marking::Manifest(id) => Ok(Request::Get {
                key: Key::Manifest(*id),
            }),
            Marking::Snapshots => Ok(Request::List {
                part: Part::Snapshots,
            }),
            Marking::Txns => Ok(Request::List { part: Part::Txns }),
            Marking::Manifests => Ok(Request::List {
                part: Part::Manifests,
            }),
            Marking::Chunks => Ok(Request::List { part: Part::Chunks }),
            Marking::Ended => unreachable!(),
        }
    }

    fn answer(&mut self, reply: Reply) -> Result<Next<Keys>, Refusal> {
        let state = mem::replace(&mut self.state, Marking::Ended);
        match state {
            Marking::Branches => self.on_branches(reply),
            Marking::Branch(key) => self.on_branch(&key, reply),
            Marking::Tags => self.on_tags(reply),
            Marking::Tag(key) => self.on_tag(&key, reply),
            Marking::Leases => self.on_leases(reply),
            Marking::Lease(key) => self.on_lease(&key, reply),
            Marking::Snapshot(id) => self.on_snapshot(id, reply),
            Marking::Manifest(id) => self.on_manifest(id, reply),
            Marking::Snapshots => self.on_snapshots(reply),
            Marking::Txns => self.on_logs(reply),
            Marking::Manifests => self.on_manifests(reply),
            Marking::Chunks => self.on_chunks(reply),
            Marking::Ended => unreachable!(),
        }
    }

    fn stop(&mut self) {
        self.state = Marking::Ended;
    }

    ghost may_starve = { tt };
}

impl Mark {
    /// Before its first operation, of a collection with this cutoff, in microseconds. It takes no memory.
    pub fn new(alloc: Global, cutoff: u64) -> Mark
        ensures { mark_rest result ≡ mark_program most_snapshots cutoff }
    {
        Mark {
            alloc,
            state: Marking::Branches,
            cutoff,
            left: MOST_SNAPSHOTS,
            names: Keys::new(alloc),
            snapshots: Queue::new(alloc),
            files: Queue::new(alloc),
            logs: ObjectIds::new(alloc),
            chunks: ObjectIds::new(alloc),
            leased: Items::new(alloc),
            passes: false,
            doomed: Keys::new(alloc),
        }
    }

    /// One operation of the store.
    pub fn step<S: Store>(&mut self, store: &mut S) -> Result<Next<Keys>, Refusal>
        requires { IsAsk (mark_rest self.old) }
        ensures step { Steps (S.view store.old) (S.view store.new) (mark_rest self.old)
            (mark_rest self.new) result }
        ensures falls { mark_left self.new < mark_left self.old }
        ensures listed { IfErr result MayRefuseMark }
    {
        drive(self, store)
    }

    /// Goes on with the next branch, and behind the last one with the tags.
    fn next_branch(&mut self) -> Next<Keys>
        requires { self.old.state ≡ Marking.Ended }
        ensures lands { Lands (get_refs with_ref self.old.names (work_of self.old)
            (list_tags self.old.left)) (mark_rest self.new) (Ok result) }
        ensures falls { mark_left self.new ≤ tags_left self.old.left (phase_left self.old.passes)
            + length self.old.names }
    {
        match self.names.take() {
            None => self.go_to(Marking::Tags),
            Some(key) => self.go_to(Marking::Branch(key)),
        }
    }

    /// Goes on with the next tag, and behind the last one with the leases.
    fn next_tag(&mut self) -> Next<Keys>
        requires { self.old.state ≡ Marking.Ended }
        ensures lands { Lands (get_refs with_ref self.old.names (work_of self.old)
            (list_leases self.old.left)) (mark_rest self.new) (Ok result) }
        ensures falls { mark_left self.new ≤ leases_left self.old.left (phase_left self.old.passes)
            + length self.old.names }
    {
        match self.names.take() {
            None => self.go_to(Marking::Leases),
            Some(key) => self.go_to(Marking::Tag(key)),
        }
    }

    /// Goes on with the next lease, and behind the last one with the snapshots.
    fn next_lease(&mut self) -> Result<Next<Keys>, Refusal>
        requires { self.old.state ≡ Marking.Ended }
        ensures lands { Lands (get_refs with_lease self.old.names (work_of self.old)
            (marking self.old.passes self.old.left)) (mark_rest self.new) result }
        ensures falls { mark_left self.new ≤ begins_left self.old.left (phase_left self.old.passes)
            + length self.old.names }
        ensures calm { IfErr result (λ why. is_fault why ≡ false) }
        ensures listed { IfErr result MayRefuseMark }
    {
        let _few = self.snapshots.waiting();
        match self.names.take() {
            None => self.next_snapshot(),
            Some(key) => Ok(self.go_to(Marking::Lease(key))),
        }
    }

    /// Goes on with the next snapshot: those that refs need come first, then those that leases need, and behind the last one the
    /// listings of objects.
    fn next_snapshot(&mut self) -> Result<Next<Keys>, Refusal>
        requires { self.old.state ≡ Marking.Ended }
        ensures lands { Lands (marking self.old.passes self.old.left (work_of self.old))
            (mark_rest self.new) result }
        ensures told { (self.old.passes ≡ false → 0 < length self.old.snapshots.todo)
            → Tells (marking self.old.passes self.old.left (work_of self.old)) result }
        ensures falls { mark_left self.new ≤ marks_left self.old.left
            (length self.old.snapshots.todo + phase_left self.old.passes) }
        ensures calm { IfErr result (λ why. is_fault why ≡ false) }
        ensures listed { IfErr result MayRefuseMark }
    {
        if self.passes {
            return self.take_snapshot();
        }
        if self.snapshots.waiting() > 0 {
            return self.take_snapshot();
        }
        match self.pass_on() {
            Ok(()) => self.take_snapshot(),
            Err(_) => Err(Refusal::NoMemory),
        }
    }

    /// What leases named is found, and from here on an absent object is passed over.
    fn pass_on(&mut self) -> Result<(), AllocError>
        ensures work { OnOk result (work_of self.new ≡ begin_leased (work_of self.old)) }
        ensures passes { OnOk result (self.new.passes ≡ true) }
        ensures few { OnOk result (length self.new.snapshots.todo < many) }
        ensures state { self.new.state ≡ self.old.state }
        ensures names { self.new.names ≡ self.old.names }
        ensures left { self.new.left ≡ self.old.left }
    {
        self.snapshots.enter_ids(self.leased.as_slice())?;
        self.passes = true;
        let _few = self.snapshots.waiting();
        Ok(())
    }

    /// Takes the next snapshot. Where there is none, all was passed on to the leases before.
    fn take_snapshot(&mut self) -> Result<Next<Keys>, Refusal>
        requires ended { self.old.state ≡ Marking.Ended }
        requires passed { self.old.passes ≡ false → 0 < length self.old.snapshots.todo }
        ensures lands { Lands (marking self.old.passes self.old.left (work_of self.old))
            (mark_rest self.new) result }
        ensures told { Tells (marking self.old.passes self.old.left (work_of self.old)) result }
        ensures falls { mark_left self.new ≤ marks_left self.old.left
            (length self.old.snapshots.todo + phase_left self.old.passes) }
        ensures calm { IfErr result (λ why. is_fault why ≡ false) }
        ensures listed { IfErr result MayRefuseMark }
    {
        match self.snapshots.take() {
            None => Ok(self.go_to(Marking::Snapshots)),
            Some(id) => {
                if self.left == 0 {
                    return Err(Refusal::TooDeep);
                }
                Ok(self.go_to(Marking::Snapshot(id)))
            }
        }
    }

    /// Goes on with the next manifest, and behind the last one with the next snapshot.
    fn next_manifest(&mut self) -> Result<Next<Keys>, Refusal>
        requires { self.old.state ≡ Marking.Ended }
        ensures lands { Lands
            (mark_files (work_of self.old) (marking self.old.passes self.old.left))
            (mark_rest self.new) result }
        ensures falls { mark_left self.new ≤ marks_left self.old.left
            (length self.old.snapshots.todo + phase_left self.old.passes) + length
            self.old.files.todo }
        ensures calm { IfErr result (λ why. is_fault why ≡ false) }
        ensures listed { IfErr result MayRefuseMark }
    {
        match self.files.take() {
            None => self.next_snapshot(),
            Some(id) => Ok(self.go_to(Marking::Manifest(id))),
        }
    }

    /// Puts the next state where the machine has ended.
    fn go_to(&mut self, next: Marking) -> Next<Keys>
        requires { self.old.state ≡ Marking.Ended }
        ensures again { result ≡ Next.Again }
        ensures state { self.new ≡ record self.old { state = next } }
    {
        match mem::replace(&mut self.state, next) {
            Marking::Ended => Next::Again,
            _ => unreachable!(),
        }
    }

    fn on_branches(&mut self, reply: Reply) -> Result<Next<Keys>, Refusal>
        requires ended { self.old.state ≡ Marking.Ended }
        requires fits { Fits (Op.List Part.Branches) reply }
        ensures took { Took (list_branches self.old.left (work_of self.old)) reply
            (mark_rest self.new) result }
        ensures falls { mark_left self.new < tags_left self.old.left (phase_left self.old.passes)
            + many + 1 }
        ensures listed { IfErr result MayRefuseMark }
    {
        match first_told(self.cutoff, reply) {
            Ok(listed) => self.after_branches(listed.entries.as_slice()),
            Err(why) => Err(why),
        }
    }

    fn after_branches(&mut self, entries: &[Entry]) -> Result<Next<Keys>, Refusal>
        requires { self.old.state ≡ Marking.Ended }
        ensures lands { Lands (get_refs with_ref (live entries.now) (work_of self.old)
            (list_tags self.old.left)) (mark_rest self.new) result }
        ensures falls { mark_left self.new < tags_left self.old.left (phase_left self.old.passes)
            + many + 1 }
        ensures calm { IfErr result (λ why. is_fault why ≡ false) }
        ensures listed { IfErr result MayRefuseMark }
    {
        match self.read_names(entries) {
            Ok(()) => Ok(self.next_branch()),
            Err(_) => Err(Refusal::NoMemory),
        }
    }

    /// The keys of a listing whose refs stand come next.
    fn read_names(&mut self, entries: &[Entry]) -> Result<(), AllocError>
        ensures names { OnOk result (self.new ≡ record self.old { names = live entries.now }) }
        ensures few { OnOk result (length self.new.names < many) }
        ensures state { self.new.state ≡ self.old.state }
    {
        let names = live_keys(self.alloc, entries)?;
        let _few = names.len();
        drop(mem::replace(&mut self.names, names));
        Ok(())
    }

    fn on_branch(&mut self, key: &Key, reply: Reply) -> Result<Next<Keys>, Refusal>
        requires ended { self.old.state ≡ Marking.Ended }
        requires fits { Fits (Op.Get key.now) reply }
        ensures took { Took (branch_rest key.now self.old.left self.old.names (work_of self.old))
            reply (mark_rest self.new) result }
        ensures falls { mark_left self.new < tags_left self.old.left (phase_left self.old.passes)
            + 1 + length self.old.names }
        ensures listed { IfErr result MayRefuseMark }
    {
        match ref_got(self.alloc, key, reply) {
            Ok(id) => self.after_branch(id),
            Err(why) => Err(why),
        }
    }

    fn after_branch(&mut self, id: Option<Id12>) -> Result<Next<Keys>, Refusal>
        requires { self.old.state ≡ Marking.Ended }
        ensures lands { Lands (get_refs with_ref self.old.names (with_ref id (work_of self.old))
            (list_tags self.old.left)) (mark_rest self.new) result }
        ensures falls { mark_left self.new < tags_left self.old.left (phase_left self.old.passes)
            + 1 + length self.old.names }
        ensures calm { IfErr result (λ why. is_fault why ≡ false) }
        ensures listed { IfErr result MayRefuseMark }
    {
        match self.snapshots.enter_some(id) {
            Ok(()) => Ok(self.next_branch()),
            Err(_) => Err(Refusal::NoMemory),
        }
    }

    fn on_tags(&mut self, reply: Reply) -> Result<Next<Keys>, Refusal>
        requires ended { self.old.state ≡ Marking.Ended }
        requires fits { Fits (Op.List Part.Tags) reply }
        ensures took { Took (list_tags self.old.left (work_of self.old)) reply (mark_rest self.new)
            result }
        ensures falls { mark_left self.new < tags_left self.old.left (phase_left self.old.passes) }
        ensures listed { IfErr result MayRefuseMark }
    {
        match listed_told(reply) {
            Ok(listed) => self.after_tags(listed.entries.as_slice()),
            Err(why) => Err(why),
        }
    }

    fn after_tags(&mut self, entries: &[Entry]) -> Result<Next<Keys>, Refusal>
        requires { self.old.state ≡ Marking.Ended }
        ensures lands { Lands (get_refs with_ref (live entries.now) (work_of self.old)
            (list_leases self.old.left)) (mark_rest self.new) result }
        ensures falls { mark_left self.new < tags_left self.old.left (phase_left self.old.passes) }
        ensures calm { IfErr result (λ why. is_fault why ≡ false) }
        ensures listed { IfErr result MayRefuseMark }
    {
        match self.read_names(entries) {
            Ok(()) => Ok(self.next_tag()),
            Err(_) => Err(Refusal::NoMemory),
        }
    }

    fn on_tag(&mut self, key: &Key, reply: Reply) -> Result<Next<Keys>, Refusal>
        requires ended { self.old.state ≡ Marking.Ended }
        requires fits { Fits (Op.Get key.now) reply }
        ensures took { Took (tag_rest key.now self.old.left self.old.names (work_of self.old)) reply
            (mark_rest self.new) result }
        ensures falls { mark_left self.new < leases_left self.old.left (phase_left self.old.passes)
            + 1 + length self.old.names }
        ensures listed { IfErr result MayRefuseMark }
    {
        match ref_got(self.alloc, key, reply) {
            Ok(id) => self.after_tag(id),
            Err(why) => Err(why),
        }
    }

    fn after_tag(&mut self, id: Option<Id12>) -> Result<Next<Keys>, Refusal>
        requires { self.old.state ≡ Marking.Ended }
        ensures lands { Lands (get_refs with_ref self.old.names (with_ref id (work_of self.old))
            (list_leases self.old.left)) (mark_rest self.new) result }
        ensures falls { mark_left self.new < leases_left self.old.left (phase_left self.old.passes)
            + 1 + length self.old.names }
        ensures calm { IfErr result (λ why. is_fault why ≡ false) }
        ensures listed { IfErr result MayRefuseMark }
    {
        match self.snapshots.enter_some(id) {
            Ok(()) => Ok(self.next_tag()),
            Err(_) => Err(Refusal::NoMemory),
        }
    }

    fn on_leases(&mut self, reply: Reply) -> Result<Next<Keys>, Refusal>
        requires ended { self.old.state ≡ Marking.Ended }
        requires fits { Fits (Op.List Part.Leases) reply }
        ensures took { Took (list_leases self.old.left (work_of self.old)) reply
            (mark_rest self.new) result }
        ensures falls { mark_left self.new < leases_left self.old.left
            (phase_left self.old.passes) }
        ensures listed { IfErr result MayRefuseMark }
    {
        match listed_told(reply) {
            Ok(listed) => self.after_leases(listed.entries.as_slice()),
            Err(why) => Err(why),
        }
    }

    fn after_leases(&mut self, entries: &[Entry]) -> Result<Next<Keys>, Refusal>
        requires { self.old.state ≡ Marking.Ended }
        ensures lands { Lands (get_refs with_lease (live entries.now) (work_of self.old)
            (marking self.old.passes self.old.left)) (mark_rest self.new) result }
        ensures falls { mark_left self.new < leases_left self.old.left
            (phase_left self.old.passes) }
        ensures calm { IfErr result (λ why. is_fault why ≡ false) }
        ensures listed { IfErr result MayRefuseMark }
    {
        match self.read_names(entries) {
            Ok(()) => self.next_lease(),
            Err(_) => Err(Refusal::NoMemory),
        }
    }

    fn on_lease(&mut self, key: &Key, reply: Reply) -> Result<Next<Keys>, Refusal>
        requires ended { self.old.state ≡ Marking.Ended }
        requires fits { Fits (Op.Get key.now) reply }
        ensures took { Took (lease_rest key.now self.old.left self.old.names (work_of self.old))
            reply (mark_rest self.new) result }
        ensures falls { mark_left self.new < begins_left self.old.left (phase_left self.old.passes)
            + 1 + length self.old.names }
        ensures listed { IfErr result MayRefuseMark }
    {
        match ref_got(self.alloc, key, reply) {
            Ok(id) => self.after_lease(id),
            Err(why) => Err(why),
        }
    }

    fn after_lease(&mut self, id: Option<Id12>) -> Result<Next<Keys>, Refusal>
        requires { self.old.state ≡ Marking.Ended }
        ensures lands { Lands (get_refs with_lease self.old.names (with_lease id (work_of self.old))
            (marking self.old.passes self.old.left)) (mark_rest self.new) result }
        ensures falls { mark_left self.new < begins_left self.old.left (phase_left self.old.passes)
            + 1 + length self.old.names }
        ensures calm { IfErr result (λ why. is_fault why ≡ false) }
        ensures listed { IfErr result MayRefuseMark }
    {
        match self.hold_leased(id) {
            Ok(()) => self.next_lease(),
            Err(_) => Err(Refusal::NoMemory),
        }
    }

    /// The snapshot that a lease named, if there is one, is put behind the others.
    fn hold_leased(&mut self, id: Option<Id12>) -> Result<(), AllocError>
        ensures work { OnOk result (work_of self.new ≡ with_lease id (work_of self.old)) }
        ensures same { self.new ≡ record self.old { leased = self.new.leased } }
    {
        match id {
            None => Ok(()),
            Some(id) => self.leased.push(id),
        }
    }

    fn on_snapshot(&mut self, id: Id12, reply: Reply) -> Result<Next<Keys>, Refusal>
        requires ended { self.old.state ≡ Marking.Ended }
        requires fits { Fits (Op.Get (Key.Snapshot id)) reply }
        ensures took { Took (snapshot_rest id self.old.left (work_of self.old)) reply
            (mark_rest self.new) result }
        ensures falls { mark_left self.new < marking_left (Marking.Snapshot id) self.old.left
            (length self.old.names) (length self.old.files.todo) (length self.old.snapshots.todo)
            (phase_left self.old.passes) }
        ensures listed { IfErr result MayRefuseMark }
    {
        match snapshot_got(self.alloc, self.passes, id, reply) {
            Ok(loaded) => self.after_got(id, loaded),
            Err(why) => Err(why),
        }
    }

    fn after_got(&mut self, id: Id12, loaded: Option<Loaded>) -> Result<Next<Keys>, Refusal>
        requires { self.old.state ≡ Marking.Ended }
        ensures lands { Lands (mark_got id (marking self.old.passes (self.old.left - 1))
            (marking self.old.passes self.old.left (work_of self.old)) (work_of self.old) loaded)
            (mark_rest self.new) result }
        ensures falls { mark_left self.new < marking_left (Marking.Snapshot id) self.old.left
            (length self.old.names) (length self.old.files.todo) (length self.old.snapshots.todo)
            (phase_left self.old.passes) }
        ensures calm { IfErr result (λ why. is_fault why ≡ false) }
        ensures listed { IfErr result MayRefuseMark }
    {
        match loaded {
            None => self.next_snapshot(),
            Some(loaded) => self.after_loaded(id, loaded),
        }
    }

    fn after_loaded(&mut self, id: Id12, loaded: Loaded) -> Result<Next<Keys>, Refusal>
        requires { self.old.state ≡ Marking.Ended }
        ensures lands { Lands (mark_files (with_snapshot id loaded (work_of self.old))
            (marking self.old.passes (self.old.left - 1))) (mark_rest self.new) result }
        ensures falls { mark_left self.new < marking_left (Marking.Snapshot id) self.old.left
            (length self.old.names) (length self.old.files.todo) (length self.old.snapshots.todo)
            (phase_left self.old.passes) }
        ensures calm { IfErr result (λ why. is_fault why ≡ false) }
        ensures listed { IfErr result MayRefuseMark }
    {
        let entered = self.enter_snapshot(id, &loaded);
        drop(loaded);
        match entered {
            Ok(()) => self.next_manifest(),
            Err(_) => Err(Refusal::NoMemory),
        }
    }

    /// One more snapshot was read, and what it names is found.
    fn enter_snapshot(&mut self, id: Id12, loaded: &Loaded) -> Result<(), AllocError>
        ensures work { OnOk result (work_of self.new ≡ with_snapshot id loaded.now
            (work_of self.old)) }
        ensures few { OnOk result (length self.new.files.todo < many) }
        ensures few_snapshots { OnOk result (length self.new.snapshots.todo < many) }
        ensures state { self.new.state ≡ self.old.state }
        ensures names { self.new.names ≡ self.old.names }
        ensures passes { self.new.passes ≡ self.old.passes }
        ensures left { OnOk result (self.new.left ≡ self.old.left - 1) }
    {
        let file = loaded.file();
        self.snapshots.enter_some(file.parent())?;
        self.files.enter_rows(&file.nodes())?;
        let _added = self.logs.insert(id)?;
        self.left = self.left.saturating_sub(1);
        let _few = self.files.waiting();
        let _few_snapshots = self.snapshots.waiting();
        Ok(())
    }

    fn on_manifest(&mut self, id: Id12, reply: Reply) -> Result<Next<Keys>, Refusal>
        requires ended { self.old.state ≡ Marking.Ended }
        requires fits { Fits (Op.Get (Key.Manifest id)) reply }
        ensures took { Took (manifest_rest id self.old.left (work_of self.old)) reply
            (mark_rest self.new) result }
        ensures falls { mark_left self.new < marks_left self.old.left
            (length self.old.snapshots.todo + phase_left self.old.passes) + 1 + length
            self.old.files.todo }
        ensures listed { IfErr result MayRefuseMark }
    {
        match manifest_got(self.passes, id, reply) {
            Ok(held) => self.after_held(held),
            Err(why) => Err(why),
        }
    }

    fn after_held(&mut self, held: Option<HeldManifest>) -> Result<Next<Keys>, Refusal>
        requires { self.old.state ≡ Marking.Ended }
        ensures lands { Lands (get_files self.old.files.todo (with_file held (work_of self.old))
            (marking self.old.passes self.old.left)) (mark_rest self.new) result }
        ensures falls { mark_left self.new < marks_left self.old.left
            (length self.old.snapshots.todo + phase_left self.old.passes) + 1 + length
            self.old.files.todo }
        ensures calm { IfErr result (λ why. is_fault why ≡ false) }
        ensures listed { IfErr result MayRefuseMark }
    {
        match held {
            None => self.next_manifest(),
            Some(held) => self.after_file(held),
        }
    }

    fn after_file(&mut self, held: HeldManifest) -> Result<Next<Keys>, Refusal>
        requires { self.old.state ≡ Marking.Ended }
        ensures lands { Lands
            (get_files self.old.files.todo (with_file (Some held) (work_of self.old))
            (marking self.old.passes self.old.left)) (mark_rest self.new) result }
        ensures falls { mark_left self.new < marks_left self.old.left
            (length self.old.snapshots.todo + phase_left self.old.passes) + 1 + length
            self.old.files.todo }
        ensures calm { IfErr result (λ why. is_fault why ≡ false) }
        ensures listed { IfErr result MayRefuseMark }
    {
        let entered = enter_objects(&mut self.chunks, &held);
        drop(held);
        match entered {
            Ok(()) => self.next_manifest(),
            Err(_) => Err(Refusal::NoMemory),
        }
    }

    /// Whether a key is marked; what is no object is never removed.
    fn keeps(&self, key: &Key) -> bool
        ensures { result ≡ keeps (work_of self.now) key.now }
    {
        match key {
            Key::Snapshot(id) => *id == Id12::INITIAL || self.snapshots.has(id),
            Key::Txn(id) => *id == Id12::INITIAL || self.logs.contains(id),
            Key::Manifest(id) => self.files.has(id),
            Key::Chunk(id) => self.chunks.contains(id),
            Key::Branch(_) | Key::Tag(_) | Key::Tombstone(_) | Key::Lease(_) => true,
        }
    }

    /// Whether an object is older than the cutoff and not marked.
    fn dooms(&self, entry: &Entry) -> bool
        ensures { result ≡ dooms (work_of self.now) entry.now }
    {
        entry.created < self.cutoff && !self.keeps(&entry.key)
    }

    /// The keys of the objects of a listing that are doomed are put behind the others.
    fn sweep(&mut self, entries: &[Entry]) -> Result<(), AllocError>
        ensures doomed { OnOk result (work_of self.new ≡ sweeping entries.now (work_of self.old)) }
        ensures same { self.new ≡ record self.old { doomed = self.new.doomed } }
    {
        for entry in entries {
            if self.dooms(entry) {
                self.doomed.push(entry.key.copy(self.alloc)?)?;
            }
        }
        Ok(())
    }

    /// Goes on with this state behind a listing of objects.
    fn after_objects(&mut self, entries: &[Entry], then: Marking) -> Result<Next<Keys>, Refusal>
        requires ended { self.old.state ≡ Marking.Ended }
        requires live { IsAsk (marking_rest then self.old.left self.old.names
            (sweeping entries.now (work_of self.old))) }
        ensures lands { Lands (marking_rest then self.old.left self.old.names
            (sweeping entries.now (work_of self.old))) (mark_rest self.new) result }
        ensures falls { mark_left self.new ≤ marking_left then self.old.left (length self.old.names)
            (length self.old.files.todo) (length self.old.snapshots.todo)
            (phase_left self.old.passes) }
        ensures calm { IfErr result (λ why. is_fault why ≡ false) }
        ensures listed { IfErr result MayRefuseMark }
    {
        match self.sweep(entries) {
            Ok(()) => Ok(self.go_to(then)),
            Err(_) => Err(Refusal::NoMemory),
        }
    }

    fn on_snapshots(&mut self, reply: Reply) -> Result<Next<Keys>, Refusal>
        requires ended { self.old.state ≡ Marking.Ended }
        requires fits { Fits (Op.List Part.Snapshots) reply }
        ensures took { Took (list_snapshots (work_of self.old)) reply (mark_rest self.new) result }
        ensures falls { mark_left self.new < many + 4 }
        ensures listed { IfErr result MayRefuseMark }
    {
        match listed_told(reply) {
            Ok(listed) => self.after_objects(listed.entries.as_slice(), Marking::Txns),
            Err(why) => Err(why),
        }
    }

    fn on_logs(&mut self, reply: Reply) -> Result<Next<Keys>, Refusal>
        requires ended { self.old.state ≡ Marking.Ended }
        requires fits { Fits (Op.List Part.Txns) reply }
        ensures took { Took (list_logs (work_of self.old)) reply (mark_rest self.new) result }
        ensures falls { mark_left self.new < many + 3 }
        ensures listed { IfErr result MayRefuseMark }
    {
        match listed_told(reply) {
            Ok(listed) => self.after_objects(listed.entries.as_slice(), Marking::Manifests),
            Err(why) => Err(why),
        }
    }

    fn on_manifests(&mut self, reply: Reply) -> Result<Next<Keys>, Refusal>
        requires ended { self.old.state ≡ Marking.Ended }
        requires fits { Fits (Op.List Part.Manifests) reply }
        ensures took { Took (list_manifests (work_of self.old)) reply (mark_rest self.new) result }
        ensures falls { mark_left self.new < many + 2 }
        ensures listed { IfErr result MayRefuseMark }
    {
        match listed_told(reply) {
            Ok(listed) => self.after_objects(listed.entries.as_slice(), Marking::Chunks),
            Err(why) => Err(why),
        }
    }

    fn on_chunks(&mut self, reply: Reply) -> Result<Next<Keys>, Refusal>
        requires ended { self.old.state ≡ Marking.Ended }
        requires fits { Fits (Op.List Part.Chunks) reply }
        ensures took { Took (list_chunks (work_of self.old)) reply (mark_rest self.new) result }
        ensures falls { mark_left self.new < many + 1 }
        ensures listed { IfErr result MayRefuseMark }
    {
        match listed_told(reply) {
            Ok(listed) => self.after_chunks(listed.entries.as_slice()),
            Err(why) => Err(why),
        }
    }

    /// Ends with the keys of what is doomed.
    fn after_chunks(&mut self, entries: &[Entry]) -> Result<Next<Keys>, Refusal>
        requires { self.old.state ≡ Marking.Ended }
        ensures lands { Lands (told_doomed (sweeping entries.now (work_of self.old)))
            (mark_rest self.new) result }
        ensures falls { mark_left self.new < many + 1 }
        ensures calm { IfErr result (λ why. is_fault why ≡ false) }
        ensures listed { IfErr result MayRefuseMark }
    {
        match self.sweep(entries) {
            Ok(()) => Ok(Next::Ready(mem::replace(&mut self.doomed, Keys::new(self.alloc)))),
            Err(_) => Err(Refusal::NoMemory),
        }
    }
}

/// Adds the objects in which a manifest has chunks.
fn enter_objects(chunks: &mut ObjectIds, held: &HeldManifest) -> Result<(), AllocError>
    ensures { OnOk result (chunks.new ≡ with_ids chunks.old (objects_of held.now)) }
{
    for id in held.objects() {
        let _added = chunks.insert(id)?;
    }
    Ok(())
}
