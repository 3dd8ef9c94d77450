//! The steps of a check.

ghost use Rattle.std.specs.Prelude.{◌≡◌, ◌<◌, ◌≤◌, ◌+◌, ◌*◌, [], true, false, length, Result, Ok, Err, IfOk, OnOk, OnErr};
ghost use Rattle.ice_ids.specs.Text.{same_id12, initial_id};
ghost use Rattle.store_api.specs.Callers.{Fits};
ghost use Rattle.store_api.specs.Driving.{has_failed};
ghost use Rattle.store_api.specs.Plays.{Or, Comes, Acts};
ghost use Rattle.live_refs.specs.Live.{live};
ghost use Rattle.intact.specs.Places.{many};
ghost use Rattle.intact.specs.Told.{found_ref, found_snapshot, found_log, found_manifest, found_part};
ghost use Rattle.repo_check.specs.Works.{no_work, meet_snapshot, meet_file, tell};
ghost use Rattle.repo_check.specs.Plays.{tells_failure, starved, roots_with, told_ref, told_part, told_log, get_refs, after_file, after_snapshot, read_on, walk, walks, then_tags};
ghost use Rattle.repo_check.specs.inside.Working.{checking_op, checking_rest, checking_left, heard_in, answered_rest, is_live, is_calm, asks_get, asks_list, is_answer, parent_rest, files_rest, parts_rest, root_cost, snapshot_cost, name_cost, roots_left, walk_left, files_left, parts_left, tags_left, all_tags_left, branches_left};

use crate::asking::ask;
use crate::line::Line;
use crate::places::{take_file, take_part, take_root};
use crate::standing::Checking;
use crate::work::Work;
use check_reports::{CheckFaults, FaultKind};
use ice_ids::Id12;
use intact::{
    FileVisit, ManifestPlace, PartVisit, SnapshotPlace, manifest_seen, ref_seen, snapshot_seen,
};
use live_refs::is_gone;
use repo_objects::Loaded;
use repo_read::MOST_SNAPSHOTS;
use std::alloc::{AllocError, Global};
use std::mem;
use store_api::{Entry, Got, Key, Listed, Refusal, Reply, Store, StoreFault};

/// What a check holds besides the objects that it reads: the refs that are still to be got, the snapshots whose walks are still to
/// come, how many more snapshots this walk may get, and what was met.
#[derive(Drop)]
pub(crate) struct Course {
    alloc: Global,
    names: Line<Key>,
    roots: Line<Id12>,
    left: u32,
    work: Work,
}

impl Course {
    /// Before the first operation. It takes no memory.
    pub fn new(alloc: Global) -> Course
        ensures roots { result.roots ≡ [] }
        ensures work { result.work ≡ no_work }
    {
        Course {
            alloc,
            names: Line::new(alloc),
            roots: Line::new(alloc),
            left: 0,
            work: Work::new(alloc),
        }
    }

    /// The faults, in the order of finding.
    pub fn into_faults(self) -> CheckFaults
        ensures { result ≡ self.work.faults }
    {
        self.work.into_faults()
    }

    /// One step of a check that stands here.
    pub fn step_on<S: Store>(&mut self, state: Checking, store: &mut S) -> Checking
        requires { is_live state ≡ true }
        ensures acts { Acts tells_failure (S.view store.old) (S.view store.new)
            (checking_rest state self.old) (checking_rest result self.new) }
        ensures falls { checking_left result self.new < checking_left state self.old }
    {
        let answer = ask(self.alloc, &state, store);
        self.hear(state, answer)
    }

    /// Goes on behind the answer to the operation.
    fn hear(&mut self, state: Checking, answer: Result<Reply, StoreFault>) -> Checking
        requires live { is_live state ≡ true }
        requires fits { IfOk answer (Fits (checking_op state)) }
        requires answered { IfOk answer (λ reply. has_failed reply ≡ false) }
        ensures comes { Comes (answered_rest state self.old answer)
            (checking_rest result self.new) }
        ensures calm { IfOk answer (λ _. is_calm result ≡ true) }
        ensures falls { checking_left result self.new < checking_left state self.old }
    {
        match answer {
            Ok(reply) => self.on_reply(state, reply),
            Err(StoreFault::Failed) => {
                drop(state);
                Checking::Ended(Err(Refusal::StoreFault))
            }
            Err(StoreFault::NoMemory) => {
                drop(state);
                Checking::Ended(Err(Refusal::NoMemory))
            }
        }
    }

    /// Goes on behind a reply.
    fn on_reply(&mut self, state: Checking, reply: Reply) -> Checking
        requires { is_answer state reply ≡ true }
        ensures comes { Comes (Or (heard_in state self.old reply) (starved self.old.work))
            (checking_rest result self.new) }
        ensures calm { is_calm result ≡ true }
        ensures falls { checking_left result self.new < checking_left state self.old }
    {
        match reply {
            Reply::Got(got) => self.on_got(state, got),
            Reply::Listed(listed) => self.on_listed(state, listed),
            _ => unreachable!(),
        }
    }

    /// Goes on behind a listing.
    fn on_listed(&mut self, state: Checking, listed: Listed) -> Checking
        requires { asks_list state ≡ true }
        ensures comes { Comes (Or (heard_in state self.old (Reply.Listed listed))
            (starved self.old.work)) (checking_rest result self.new) }
        ensures calm { is_calm result ≡ true }
        ensures falls { checking_left result self.new < checking_left state self.old }
    {
        match state {
            Checking::Branches => self.on_branches(&listed),
            Checking::Tags => self.on_tags(&listed),
            _ => unreachable!(),
        }
    }

    /// Goes on behind the get of an object.
    fn on_got(&mut self, state: Checking, got: Got) -> Checking
        requires { asks_get state ≡ true }
        ensures comes { Comes (Or (heard_in state self.old (Reply.Got got)) (starved self.old.work))
            (checking_rest result self.new) }
        ensures calm { is_calm result ≡ true }
        ensures falls { checking_left result self.new < checking_left state self.old }
    {
        match state {
            Checking::Branch(key) => self.on_branch(key, got),
            Checking::Tag(key) => self.on_tag(key, got),
            Checking::Snapshot(id) => self.on_snapshot(id, got),
            Checking::Log(id, place) => self.on_log(id, place, got),
            Checking::File(visit, place) => self.on_file(visit, place, got),
            Checking::Part(visit, parts, place) => self.on_part(visit, parts, place, got),
            _ => unreachable!(),
        }
    }

    /// The refs of a listing come next.
    fn take_names(&mut self, entries: &[Entry]) -> Result<(), AllocError>
        ensures names { OnOk result (self.new ≡ record self.old { names = live entries.now }) }
        ensures few { OnOk result (length self.new.names < many) }
        ensures err { OnErr result (self.new.work ≡ self.old.work) }
    {
        let names = live_keys(self.alloc, entries)?;
        let _few = names.len();
        drop(mem::replace(&mut self.names, names));
        Ok(())
    }

    /// Goes on behind the listing of the branches.
    fn on_branches(&mut self, listed: &Listed) -> Checking
        ensures comes { Comes
            (Or (get_refs (live listed.entry.now.entries) self.old.roots self.old.work then_tags)
            (starved self.old.work)) (checking_rest result self.new) }
        ensures calm { is_calm result ≡ true }
        ensures falls { checking_left result self.new < 1 + many * name_cost + all_tags_left
            self.old }
    {
        match self.take_names(listed.entries.as_slice()) {
            Ok(()) => self.next_branch(),
            Err(_) => Checking::Ended(Err(Refusal::NoMemory)),
        }
    }

    /// Goes on behind the listing of the tags.
    fn on_tags(&mut self, listed: &Listed) -> Checking
        ensures comes { Comes
            (Or (get_refs (live listed.entry.now.entries) self.old.roots self.old.work walks)
            (starved self.old.work)) (checking_rest result self.new) }
        ensures calm { is_calm result ≡ true }
        ensures falls { checking_left result self.new < all_tags_left self.old }
    {
        match self.take_names(listed.entries.as_slice()) {
            Ok(()) => self.next_tag(),
            Err(_) => Checking::Ended(Err(Refusal::NoMemory)),
        }
    }

    /// Goes on with the next branch, and behind the last one with the tags.
    fn next_branch(&mut self) -> Checking
        ensures comes { Comes (get_refs self.old.names self.old.roots self.old.work then_tags)
            (checking_rest result self.new) }
        ensures calm { is_calm result ≡ true }
        ensures falls { checking_left result self.new ≤ branches_left self.old }
    {
        match self.names.take() {
            None => Checking::Tags,
            Some(key) => Checking::Branch(key),
        }
    }

    /// Goes on with the next tag, and behind the last one with the walks.
    fn next_tag(&mut self) -> Checking
        ensures comes { Comes (get_refs self.old.names self.old.roots self.old.work walks)
            (checking_rest result self.new) }
        ensures calm { is_calm result ≡ true }
        ensures falls { checking_left result self.new ≤ tags_left self.old }
    {
        match self.names.take() {
            None => self.next_root(),
            Some(key) => Checking::Tag(key),
        }
    }

    /// Takes what the get of a ref found.
    fn take_ref(&mut self, key: Key, got: Got) -> Result<(), AllocError>
        ensures ok { OnOk result
            (self.new ≡ record self.old {
              roots = roots_with self.old.roots (found_ref got);
              work =
                  told_ref key (found_ref got) self.old.work;
            }) }
        ensures err { OnErr result (self.new.work.faults ≡ self.old.work.faults) }
    {
        let seen = ref_seen(self.alloc, &got);
        drop(got);
        match seen {
            Ok(seen) => self.enter_ref(key, seen),
            Err(none) => {
                drop(key);
                Err(none)
            }
        }
    }

    /// Takes the snapshot that a ref names, or what is wrong with the ref.
    fn enter_ref(
        &mut self,
        key: Key,
        seen: Result<Option<Id12>, FaultKind>,
    ) -> Result<(), AllocError>
        ensures ok { OnOk result
            (self.new ≡ record self.old {
              roots = roots_with self.old.roots seen;
              work = told_ref
                  key seen self.old.work;
            }) }
        ensures err { OnErr result (self.new.work.faults ≡ self.old.work.faults) }
    {
        match seen {
            Ok(id) => {
                drop(key);
                self.enter_root(id)
            }
            Err(kind) => self.work.tell(key, kind),
        }
    }

    /// Takes a snapshot, if there is one.
    fn enter_root(&mut self, id: Option<Id12>) -> Result<(), AllocError>
        ensures ok { OnOk result
            (self.new ≡ record self.old { roots = roots_with self.old.roots (Ok id) }) }
        ensures err { OnErr result (self.new.work ≡ self.old.work) }
    {
        match id {
            None => Ok(()),
            Some(id) => self.roots.push(id),
        }
    }

    /// Goes on behind the get of a branch.
    fn on_branch(&mut self, key: Key, got: Got) -> Checking
        ensures comes { Comes
            (Or (get_refs self.old.names (roots_with self.old.roots (found_ref got))
            (told_ref key (found_ref got) self.old.work) then_tags) (starved self.old.work))
            (checking_rest result self.new) }
        ensures calm { is_calm result ≡ true }
        ensures falls { checking_left result self.new < 1 + root_cost + branches_left self.old }
    {
        match self.take_ref(key, got) {
            Ok(()) => self.next_branch(),
            Err(_) => Checking::Ended(Err(Refusal::NoMemory)),
        }
    }

    /// Goes on behind the get of a tag.
    fn on_tag(&mut self, key: Key, got: Got) -> Checking
        ensures comes { Comes
            (Or (get_refs self.old.names (roots_with self.old.roots (found_ref got))
            (told_ref key (found_ref got) self.old.work) walks) (starved self.old.work))
            (checking_rest result self.new) }
        ensures calm { is_calm result ≡ true }
        ensures falls { checking_left result self.new < 1 + root_cost + tags_left self.old }
    {
        match self.take_ref(key, got) {
            Ok(()) => self.next_tag(),
            Err(_) => Checking::Ended(Err(Refusal::NoMemory)),
        }
    }

    /// Begins the walk from the next ref's snapshot that no walk has met, and behind the last one ends.
    fn next_root(&mut self) -> Checking
        ensures comes { Comes (walks self.old.roots self.old.work) (checking_rest result self.new) }
        ensures calm { is_calm result ≡ true }
        ensures falls { checking_left result self.new ≤ roots_left self.old }
    {
        self.work.begin_walk();
        match take_root(&self.work, &mut self.roots) {
            None => Checking::Ended(self.work.verdict()),
            Some(id) => {
                self.left = MOST_SNAPSHOTS - 1;
                Checking::Snapshot(id)
            }
        }
    }

    /// Ends this walk with a fault of a snapshot.
    fn end_walk(&mut self, id: Id12, kind: FaultKind) -> Checking
        ensures comes { Comes (Or (walks self.old.roots (tell (Key.Snapshot id) kind self.old.work))
            (starved self.old.work)) (checking_rest result self.new) }
        ensures calm { is_calm result ≡ true }
        ensures falls { checking_left result self.new ≤ roots_left self.old }
    {
        match self.work.tell(Key::Snapshot(id), kind) {
            Ok(()) => self.next_root(),
            Err(_) => Checking::Ended(Err(Refusal::NoMemory)),
        }
    }

    /// Goes on with a parent.
    fn walk_to(&mut self, id: Id12) -> Checking
        ensures comes { Comes (walk self.old.left (walks self.old.roots) id self.old.work)
            (checking_rest result self.new) }
        ensures calm { is_calm result ≡ true }
        ensures falls { checking_left result self.new ≤ walk_left self.old }
    {
        if self.work.in_walk(&id) {
            return self.end_walk(id, FaultKind::Ring);
        }
        if self.work.has_met(&id) {
            return self.next_root();
        }
        if self.left == 0 {
            return Checking::Ended(Err(Refusal::TooDeep));
        }
        self.left -= 1;
        Checking::Snapshot(id)
    }

    /// Goes on with the parent of a snapshot, if it has one.
    fn next_parent(&mut self, parent: Option<Id12>) -> Checking
        ensures comes { Comes (parent_rest self.old.left self.old.roots parent self.old.work)
            (checking_rest result self.new) }
        ensures calm { is_calm result ≡ true }
        ensures falls { checking_left result self.new ≤ walk_left self.old }
    {
        match parent {
            None => self.next_root(),
            Some(id) => self.walk_to(id),
        }
    }

    /// Goes on with the next manifest that wasn't got for its node, and behind the last one with the parent.
    fn next_file(&mut self, mut place: SnapshotPlace) -> Checking
        ensures comes { Comes (files_rest self.old.left self.old.roots place self.old.work)
            (checking_rest result self.new) }
        ensures calm { is_calm result ≡ true }
        ensures falls { checking_left result self.new ≤ files_left place self.old }
    {
        match take_file(&self.work, &mut place) {
            Some(visit) => Checking::File(visit, place),
            None => {
                let parent = place.parent();
                drop(place);
                self.next_parent(parent)
            }
        }
    }

    /// Goes on with the next part that wasn't got, and behind the last one with the next manifest.
    fn next_part(&mut self, mut parts: ManifestPlace, place: SnapshotPlace) -> Checking
        ensures comes { Comes (parts_rest self.old.left self.old.roots parts place self.old.work)
            (checking_rest result self.new) }
        ensures calm { is_calm result ≡ true }
        ensures falls { checking_left result self.new ≤ parts_left parts place self.old }
    {
        match take_part(&self.work, &mut parts) {
            Some(visit) => Checking::Part(visit, parts, place),
            None => {
                drop(parts);
                self.next_file(place)
            }
        }
    }

    /// Goes on behind the get of a snapshot.
    fn on_snapshot(&mut self, id: Id12, got: Got) -> Checking
        ensures comes { Comes
            (Or (after_snapshot (walk self.old.left (walks self.old.roots)) id self.old.work
            (walks self.old.roots) (found_snapshot id got)) (starved self.old.work))
            (checking_rest result self.new) }
        ensures calm { is_calm result ≡ true }
        ensures falls { checking_left result self.new < snapshot_cost + walk_left self.old }
    {
        match snapshot_seen(self.alloc, id, got) {
            Ok(seen) => self.enter_snapshot(id, seen),
            Err(_) => Checking::Ended(Err(Refusal::NoMemory)),
        }
    }

    /// Goes on with what a snapshot tells, or with what is wrong with it.
    fn enter_snapshot(&mut self, id: Id12, seen: Result<Loaded, FaultKind>) -> Checking
        ensures comes { Comes
            (Or (after_snapshot (walk self.old.left (walks self.old.roots)) id self.old.work
            (walks self.old.roots) seen) (starved self.old.work)) (checking_rest result self.new) }
        ensures calm { is_calm result ≡ true }
        ensures falls { checking_left result self.new < snapshot_cost + walk_left self.old }
    {
        match seen {
            Ok(loaded) => self.enter_rows(id, loaded),
            Err(kind) => self.miss_snapshot(id, kind),
        }
    }

    /// Goes on with a snapshot that was read.
    fn enter_rows(&mut self, id: Id12, loaded: Loaded) -> Checking
        ensures comes { Comes
            (Or (read_on (walk self.old.left (walks self.old.roots)) id loaded
            (meet_snapshot id self.old.work) (walks self.old.roots)) (starved self.old.work))
            (checking_rest result self.new) }
        ensures calm { is_calm result ≡ true }
        ensures falls { checking_left result self.new < snapshot_cost + walk_left self.old }
    {
        match self.work.meet_snapshot(id) {
            Ok(()) => self.read_on(id, loaded),
            Err(_) => {
                drop(loaded);
                Checking::Ended(Err(Refusal::NoMemory))
            }
        }
    }

    /// Goes on behind a snapshot with a fault.
    fn miss_snapshot(&mut self, id: Id12, kind: FaultKind) -> Checking
        ensures comes { Comes
            (Or (walks self.old.roots
            (tell (Key.Snapshot id) kind (meet_snapshot id self.old.work))) (starved self.old.work))
            (checking_rest result self.new) }
        ensures calm { is_calm result ≡ true }
        ensures falls { checking_left result self.new ≤ roots_left self.old }
    {
        match self.work.meet_snapshot(id) {
            Ok(()) => self.end_walk(id, kind),
            Err(_) => {
                drop(kind);
                Checking::Ended(Err(Refusal::NoMemory))
            }
        }
    }

    /// Goes on with the log of a snapshot that was read; the initial one has none.
    fn read_on(&mut self, id: Id12, loaded: Loaded) -> Checking
        ensures comes { Comes (read_on (walk self.old.left (walks self.old.roots)) id loaded
            self.old.work (walks self.old.roots)) (checking_rest result self.new) }
        ensures calm { is_calm result ≡ true }
        ensures falls { checking_left result self.new < snapshot_cost + walk_left self.old }
    {
        let place = SnapshotPlace::new(loaded);
        if is_initial(id) {
            return self.next_file(place);
        }
        Checking::Log(id, place)
    }

    /// Goes on behind the get of a log.
    fn on_log(&mut self, id: Id12, place: SnapshotPlace, got: Got) -> Checking
        ensures comes { Comes
            (Or (files_rest self.old.left self.old.roots place
            (told_log id (found_log id got) self.old.work)) (starved self.old.work))
            (checking_rest result self.new) }
        ensures calm { is_calm result ≡ true }
        ensures falls { checking_left result self.new < 1 + files_left place self.old }
    {
        match self.work.take_log(id, got) {
            Ok(()) => self.next_file(place),
            Err(_) => {
                drop(place);
                Checking::Ended(Err(Refusal::NoMemory))
            }
        }
    }

    /// Goes on behind the get of a manifest.
    fn on_file(&mut self, visit: FileVisit, place: SnapshotPlace, got: Got) -> Checking
        ensures comes { Comes
            (Or (after_file visit self.old.work (files_rest self.old.left self.old.roots place)
            (found_manifest visit got)) (starved self.old.work)) (checking_rest result self.new) }
        ensures calm { is_calm result ≡ true }
        ensures falls { checking_left result self.new < many + 1 + files_left place self.old }
    {
        match manifest_seen(&visit, got) {
            Ok(held) => self.enter_parts(visit, ManifestPlace::new(held, &visit), place),
            Err(kind) => self.miss_file(visit, kind, place),
        }
    }

    /// Goes on with the parts that a manifest names.
    fn enter_parts(
        &mut self,
        visit: FileVisit,
        parts: ManifestPlace,
        place: SnapshotPlace,
    ) -> Checking
        ensures comes { Comes
            (Or (parts_rest self.old.left self.old.roots parts place
            (meet_file visit self.old.work)) (starved self.old.work))
            (checking_rest result self.new) }
        ensures calm { is_calm result ≡ true }
        ensures falls { checking_left result self.new ≤ parts_left parts place self.old }
    {
        match self.work.meet_file(visit) {
            Ok(()) => self.next_part(parts, place),
            Err(_) => {
                drop(parts);
                drop(place);
                Checking::Ended(Err(Refusal::NoMemory))
            }
        }
    }

    /// Goes on behind a manifest with a fault.
    fn miss_file(&mut self, visit: FileVisit, kind: FaultKind, place: SnapshotPlace) -> Checking
        ensures comes { Comes
            (Or (files_rest self.old.left self.old.roots place
            (tell (Key.Manifest visit.manifest) kind (meet_file visit self.old.work)))
            (starved self.old.work)) (checking_rest result self.new) }
        ensures calm { is_calm result ≡ true }
        ensures falls { checking_left result self.new ≤ files_left place self.old }
    {
        match self.work.miss_file(visit, kind) {
            Ok(()) => self.next_file(place),
            Err(_) => {
                drop(place);
                Checking::Ended(Err(Refusal::NoMemory))
            }
        }
    }

    /// Goes on behind the get of an object for a part.
    fn on_part(
        &mut self,
        visit: PartVisit,
        parts: ManifestPlace,
        place: SnapshotPlace,
        got: Got,
    ) -> Checking
        ensures comes { Comes
            (Or (parts_rest self.old.left self.old.roots parts place
            (told_part visit (found_part visit got) self.old.work)) (starved self.old.work))
            (checking_rest result self.new) }
        ensures calm { is_calm result ≡ true }
        ensures falls { checking_left result self.new < 1 + parts_left parts place self.old }
    {
        match self.work.take_part(visit, got) {
            Ok(()) => self.next_part(parts, place),
            Err(_) => {
                drop(parts);
                drop(place);
                Checking::Ended(Err(Refusal::NoMemory))
            }
        }
    }
}

/// Whether this is the initial snapshot, which has no log.
fn is_initial(id: Id12) -> bool
    ensures { result ≡ same_id12 id initial_id }
{
    id == Id12::INITIAL
}

/// The keys of a listing whose refs stand.
fn live_keys(alloc: Global, entries: &[Entry]) -> Result<Line<Key>, AllocError>
    ensures { IfOk result (λ keys. keys ≡ live entries.now) }
{
    let mut keys = Line::new(alloc);
    for place in 0..entries.len() {
        if !is_gone(&entries[place].key, &entries[place + 1..]) {
            keys.push(entries[place].key.copy(alloc)?)?;
        }
    }
    Ok(keys)
}
