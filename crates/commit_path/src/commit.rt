//! The machine that commits a session.

ghost use Rattle.std.specs.Prelude.{◌≡◌, ◌<◌, ◌≤◌, ◌+◌, ◌*◌, ◌^◌, [], length, true, false, Some, None, Err, All, IfOk, IfErr, IsTrue};
ghost use Rattle.flat_tables.specs.Rows.{Ascends};
ghost use Rattle.manifest_file.specs.Manifests.{ref_key};
ghost use Rattle.manifest_index.specs.Extents.{are_low};
ghost use Rattle.store_api.specs.Program.{IsAsk, IsDone, Steps, NextIsPolite};
ghost use Rattle.store_api.specs.Driving.{Awaits, Took, op_of};
ghost use Rattle.object_store.specs.declared.events.Op.TheVariants as Op;
ghost use Rattle.snapshot_file.specs.Layout.{snapshot_bytes};
ghost use Rattle.txn_file.specs.Layout.{log_file};
ghost use Rattle.changed_snapshot.specs.declared.new_snapshot.NewList.{NewList as TheList};
ghost use Rattle.commit_path.specs.Committing.{log_for, snap_for, old_rest, new_behind, arrays_behind, written_in, after_arrays, after_log, after_snapshot, after_branch, commit_rest, commit_left, manifests_left, session_in, message_in, IsDrawn, DrewOwn, DrewFor, IsLeft, CommitStarts, MayRefuseStart, MayRefuseCommit};
ghost use Rattle.session.specs.Sessions.{base_nodes, branch_of, writes};
ghost use Rattle.zarr_tree.specs.Held.{touched};
ghost use Rattle.zarr_tree.specs.Touched.{is_untouched};
ghost use Rattle.commit_path.specs.inside.Lists.{IsRank};
ghost use Rattle.commit_path.specs.inside.Working.{IsUnwritten, WritesFile, PassesUnless, got_behind, merged_behind, MayRefuseOwn, LandsCalmly, LandsSurely, ComesToNext, Turns};

use crate::arrays::Arrays;
use crate::committing::{Committing, Got};
use crate::manifests::{made, merged};
use crate::writer::Writer;
use changed_snapshot::{NewList, NewManifest};
use flat_tables::{Kind, WriteFault};
use ice_base::{Bytes, RefName, Text};
use ice_ids::{AnyIds, Id12};
use manifest_file::{ArrayRefs, REFS_LIMIT};
use ref_file::ref_write;
use repo_read::manifest_told;
use session::Session;
use snapshot_file::ManifestRef;
use std::alloc::{AllocError, Global};
use std::mem;
use store_api::{
    Key, Machine, New, Next, Over, Payload, Refusal, Reply, Request, Store, StoreFault, Version,
    Why, ask,
};
use txn_file::TxnFile;

/// What a commit answers: the id of the new snapshot, and the version at which the branch names it.
#[derive(Clone, Copy, Debug)]
pub struct Committed {
    /// The id of the new snapshot.
    pub id: Id12,
    /// The version at which the branch names it.
    pub version: Version,
}

/// What a commit came to.
#[derive(Clone, Copy, Debug)]
pub enum Tried {
    /// It is done.
    Done(Committed),
    /// The branch had moved on, and the commit changed nothing of it.
    Lost {
        /// The version that the session had read.
        old: Version,
        /// The version that was found, unless the branch is gone.
        found: Option<Version>,
        /// The ids to draw next.
        next: AnyIds,
    },
}

/// A machine that commits a session: it writes a manifest for each array whose chunks changed (its old manifests are got,
/// one after another, and the new one is put), then it puts the transaction log, then the snapshot, whose parent is the
/// session's base, and then the branch over the version that the session had read. The session and the message stay in it,
/// and come back. The bytes of each put are made before it, with the reply to the one before.
#[derive(Drop)]
pub struct Commit {
    alloc: Global,
    session: Writer,
    message: Text,
    arrays: Arrays,
    state: Committing,
}

/// Why a file isn't written.
pub(crate) fn unwritten(kind: Kind, fault: WriteFault) -> Refusal
    ensures { IsUnwritten kind fault result }
{
    match fault {
        WriteFault::TooLarge(_) => Refusal::TooLarge(kind),
        WriteFault::NoMemory => Refusal::NoMemory,
    }
}

/// The file of the transaction log.
fn write_log(alloc: Global, session: &Writer, id: Id12) -> Result<Bytes, Refusal>
    ensures { WritesFile Kind.Log (log_file (log_for session.now id)) result }
{
    let Ok(lists) = session.as_session().net() else {
        return Err(Refusal::NoMemory);
    };
    let log = TxnFile { id, lists };
    let written = txn_file::write(alloc, &log);
    drop(log);
    match written {
        Ok(file) => Ok(Bytes::from_vec(file)),
        Err(fault) => Err(unwritten(Kind::Log, fault)),
    }
}

/// The file of the snapshot.
fn write_snapshot(
    session: &Writer,
    id: Id12,
    flushed_at: u64,
    news: &[NewList],
    message: &Text,
) -> Result<Bytes, Refusal>
    requires { Ascends (λ (l : TheList). l.path) None news.now }
    ensures { WritesFile Kind.Snapshot
        (snapshot_bytes (snap_for session.now message.now news.now id flushed_at)) result }
{
    match session.as_session().write(id, flushed_at, news, message) {
        Ok(file) => Ok(file),
        Err(fault) => Err(unwritten(Kind::Snapshot, fault)),
    }
}

/// A put of these bytes where the key is free.
fn put_new(key: Key, file: &Bytes) -> Request<'_>
    ensures { op_of result ≡ Op.PutNew key file.now Why.Set }
{
    Request::PutNew {
        key,
        bytes: Payload::Lent(file.as_slice()),
        why: Why::Set,
    }
}

impl Machine for Commit {
    type Answer = Tried;

    ghost rest = { commit_rest };

    ghost left = { commit_left };

    ghost keeps = { λ result old new. IsDrawn (session_in old) (session_in new) };

    ghost may_refuse = { MayRefuseCommit };

    fn request(&self) -> Result<Request<'_>, AllocError> {
        match &self.state {
            Committing::Old { manifest, got: _ } => Ok(Request::Get {
                key: Key::Manifest(manifest.id),
            }),
            Committing::New { manifest, file } => Ok(put_new(Key::Manifest(manifest.id), file)),
            Committing::Log { id, file } => Ok(put_new(Key::Txn(*id), file)),
            Committing::Snapshot { id, file } => Ok(put_new(Key::Snapshot(*id), file)),
            Committing::Branch { id: _, file } => Ok(Request::PutOver {
                key: Key::Branch(self.session.branch().copy(self.alloc)?),
                bytes: Payload::Lent(file.as_slice()),
                old: self.session.version(),
                why: Why::Commit,
            }),
            Committing::Ended => unreachable!(),
        }
    }

    fn answer(&mut self, reply: Reply) -> Result<Next<Tried>, Refusal>
        requires { Awaits (commit_rest self.old) reply }
        ensures took { Took (commit_rest self.old) reply (commit_rest self.new) result }
        ensures falls { commit_left self.new < commit_left self.old }
        ensures kept { IsDrawn (session_in self.old) (session_in self.new) }
        ensures listed { IfErr result MayRefuseCommit }
        ensures message { message_in self.new ≡ message_in self.old }
        ensures drew { DrewFor result self.new.state self.old.session.ids self.new.session.ids }
        ensures left { IsLeft result (session_in self.new) }
    {
        let state = mem::replace(&mut self.state, Committing::Ended);
        match (state, reply) {
            (Committing::Old { manifest, got }, reply) => self.on_old(manifest, got, reply),
            (Committing::New { manifest, file: _ }, Reply::New(new)) => self.on_manifest(
                manifest, new,
            ),
            (Committing::Log { id, file: _ }, Reply::New(new)) => self.on_log(id, new),
            (Committing::Snapshot { id, file: _ }, Reply::New(new)) => self.on_snapshot(id, new),
            (Committing::Branch { id, file: _ }, Reply::Over(over)) => self.on_branch(id, over),
            (Committing::Branch { id, file: _ }, Reply::Failed { done: _ }) => Err(
                Refusal::InDoubt { snapshot: id },
            ),
            (state, reply) => {
                drop(state);
                drop(reply);
                Err(Refusal::StoreFault)
            }
        }
    }

    fn stop(&mut self)
        requires { IsAsk (commit_rest self.old) }
        ensures ended { IsDone (commit_rest self.new) }
        ensures falls { commit_left self.new < commit_left self.old }
        ensures kept { IsDrawn (session_in self.old) (session_in self.new) }
        ensures drew { self.new.session.ids ≡ self.old.session.ids }
        ensures message { message_in self.new ≡ message_in self.old }
    {
        drop(mem::replace(&mut self.state, Committing::Ended));
    }

    ghost may_starve = { tt };
}

impl Commit {
    /// The log comes next, under an id that is drawn.
    fn begin_log(&mut self) -> Result<(), Refusal>
        requires { self.old.state ≡ Committing.Ended }
        ensures reaches { ComesToNext (after_arrays self.old.session self.old.message
            (written_in self.old)) (commit_rest self.new) result }
        ensures falls { commit_left self.new ≤ length self.old.arrays.left * 2 ^ 65 + 3 }
        ensures kept { IsDrawn (session_in self.old) (session_in self.new) }
        ensures drew { DrewOwn result self.new.state self.old.session.ids self.new.session.ids }
        ensures message { message_in self.new ≡ message_in self.old }
        ensures listed { IfErr result MayRefuseOwn }
    {
        let Some(id) = self.session.draw() else {
            return Err(Refusal::IdsSpent);
        };
        let file = write_log(self.alloc, &self.session, id)?;
        self.state.follow(Committing::Log { id, file });
        Ok(())
    }

    /// A new manifest of the first array that is left comes next, under an id that is drawn: it has these chunks.
    fn begin_manifest(&mut self, rank: usize, array: ArrayRefs) -> Result<(), Refusal>
        requires ended { self.old.state ≡ Committing.Ended }
        requires rank { IsRank self.old.arrays.left rank }
        requires filled { 0 < length array.refs }
        requires order { Ascends ref_key None array.refs }
        requires ranks { All (λ r. length r.index ≡ rank) array.refs }
        requires low { All (λ r. IsTrue (are_low r.index)) array.refs }
        ensures reaches { ComesToNext (merged_behind self.old.session self.old.message
            (written_in self.old) self.old.arrays.left (Some array)) (commit_rest self.new) result }
        ensures falls { commit_left self.new ≤ length self.old.arrays.left * 2 ^ 65 + 4 }
        ensures kept { IsDrawn (session_in self.old) (session_in self.new) }
        ensures drew { DrewOwn result self.new.state self.old.session.ids self.new.session.ids }
        ensures message { message_in self.new ≡ message_in self.old }
        ensures listed { IfErr result MayRefuseOwn }
    {
        if array.refs.len() > REFS_LIMIT {
            return Err(Refusal::TooLarge(Kind::Manifest));
        }
        let Some(id) = self.session.draw() else {
            return Err(Refusal::IdsSpent);
        };
        let (manifest, file) = made(self.alloc, id, rank, array)?;
        self.state.follow(Committing::New { manifest, file });
        Ok(())
    }

    /// The first array that is left is written, whose manifests are these: its new manifest comes next (true), or it has
    /// none, and the array is done with.
    fn write_array(&mut self, got: &Got) -> Result<bool, Refusal>
        requires ended { self.old.state ≡ Committing.Ended }
        ensures turns { Turns (got_behind self.old.session self.old.message (written_in self.old)
            self.old.arrays.left got.now.items) (arrays_behind self.new.session self.new.message
            (written_in self.new) self.new.arrays.left []) (commit_rest self.new) result }
        ensures passes { PassesUnless result self.old self.new }
        ensures falls { commit_left self.new ≤ length self.old.arrays.left * 2 ^ 65 + 4 }
        ensures kept { IsDrawn (session_in self.old) (session_in self.new) }
        ensures drew { DrewOwn result self.new.state self.old.session.ids self.new.session.ids }
        ensures message { message_in self.new ≡ message_in self.old }
        ensures listed { IfErr result MayRefuseOwn }
    {
        let Some(array) = self.arrays.first() else {
            return Ok(false);
        };
        let rank = array.rank;
        let Ok(merged) = merged(self.alloc, &self.session, array, got) else {
            return Err(Refusal::NoMemory);
        };
        if let Some(refs) = merged {
            self.begin_manifest(rank, refs)?;
            return Ok(true);
        }
        match self.arrays.close(self.alloc, None) {
            Ok(()) => Ok(false),
            Err(_) => Err(Refusal::NoMemory),
        }
    }

    /// Goes on with the first array that is left, of which these manifests were got: its next manifest is got, or it is
    /// written. Answers whether an operation comes next.
    fn turn(&mut self, got: Got) -> Result<bool, Refusal>
        requires ended { self.old.state ≡ Committing.Ended }
        ensures turns { Turns (arrays_behind self.old.session self.old.message (written_in self.old)
            self.old.arrays.left got.items) (arrays_behind self.new.session self.new.message
            (written_in self.new) self.new.arrays.left []) (commit_rest self.new) result }
        ensures passes { PassesUnless result self.old self.new }
        ensures falls { commit_left self.new ≤ length self.old.arrays.left * 2 ^ 65 + manifests_left
            self.old.session.rows self.old.arrays.left (length got.items) + 4 }
        ensures few { manifests_left self.old.session.rows self.old.arrays.left (length got.items)
            < 2 ^ 64 }
        ensures kept { IsDrawn (session_in self.old) (session_in self.new) }
        ensures drew { DrewOwn result self.new.state self.old.session.ids self.new.session.ids }
        ensures message { message_in self.new ≡ message_in self.old }
        ensures listed { IfErr result MayRefuseOwn }
    {
        let Some(array) = self.arrays.first() else {
            return Ok(false);
        };
        let session = self.session.as_session();
        let manifests = session.manifests(&array.path, array.node);
        if got.len() < manifests.len() {
            let Ok(manifest) = manifests.at(got.len()).copy(self.alloc) else {
                return Err(Refusal::NoMemory);
            };
            self.state.follow(Committing::Old { manifest, got });
            return Ok(true);
        }
        self.write_array(&got)
    }

    /// Goes on with the arrays that are left, up to the next operation.
    fn go_on(&mut self) -> Result<(), Refusal>
        requires { self.old.state ≡ Committing.Ended }
        ensures reaches { ComesToNext (arrays_behind self.old.session self.old.message
            (written_in self.old) self.old.arrays.left []) (commit_rest self.new) result }
        ensures falls { commit_left self.new ≤ length self.old.arrays.left * 2 ^ 65 + 2 ^ 64 + 4 }
        ensures kept { IsDrawn (session_in self.old) (session_in self.new) }
        ensures drew { DrewOwn result self.new.state self.old.session.ids self.new.session.ids }
        ensures message { message_in self.new ≡ message_in self.old }
        ensures listed { IfErr result MayRefuseOwn }
    {
        while self.arrays.is_left() {
            if self.turn(Vec::new(self.alloc))? {
                return Ok(());
            }
        }
        self.begin_log()
    }

    /// A manifest was got: it is kept, and the commit goes on.
    #[tactic(auto, using(crate::proofs::Walking::own_commit))]
    fn on_old(
        &mut self,
        manifest: ManifestRef,
        mut got: Got,
        reply: Reply,
    ) -> Result<Next<Tried>, Refusal>
        requires ended { self.old.state ≡ Committing.Ended }
        requires awaited { Awaits (old_rest self.old.session self.old.message (written_in self.old)
            self.old.arrays.left manifest got.items) reply }
        ensures took { Took (old_rest self.old.session self.old.message (written_in self.old)
            self.old.arrays.left manifest got.items) reply (commit_rest self.new) result }
        ensures falls { commit_left self.new < length self.old.arrays.left * 2 ^ 65 + manifests_left
            self.old.session.rows self.old.arrays.left (length got.items + 1) + 5 }
        ensures kept { IsDrawn (session_in self.old) (session_in self.new) }
        ensures message { message_in self.new ≡ message_in self.old }
        ensures drew { DrewFor result self.new.state self.old.session.ids self.new.session.ids }
        ensures left { IsLeft result (session_in self.new) }
        ensures listed { IfErr result MayRefuseCommit }
    {
        let held = match manifest_told(manifest.id, reply) {
            Ok(held) => held,
            Err(why) => return Err(why),
        };
        let Ok(()) = got.push((manifest.extents, held)) else {
            return Err(Refusal::NoMemory);
        };
        let asks = match self.turn(got) {
            Ok(asks) => asks,
            Err(why) => return Err(why),
        };
        if asks {
            return Ok(Next::Again);
        }
        match self.go_on() {
            Ok(()) => Ok(Next::Again),
            Err(why) => Err(why),
        }
    }

    /// A new manifest was put: the first array that is left is done with, and the commit goes on.
    #[tactic(auto, using(crate::proofs::Walking::own_commit))]
    fn on_manifest(&mut self, manifest: NewManifest, new: New) -> Result<Next<Tried>, Refusal>
        requires ended { self.old.state ≡ Committing.Ended }
        ensures took { LandsCalmly (new_behind self.old.session self.old.message
            (written_in self.old) self.old.arrays.left manifest (Reply.New new))
            (commit_rest self.new) result }
        ensures falls { commit_left self.new < length self.old.arrays.left * 2 ^ 65 + 4 }
        ensures kept { IsDrawn (session_in self.old) (session_in self.new) }
        ensures message { message_in self.new ≡ message_in self.old }
        ensures drew { DrewFor result self.new.state self.old.session.ids self.new.session.ids }
        ensures left { IsLeft result (session_in self.new) }
        ensures listed { IfErr result MayRefuseCommit }
    {
        let New::Done { version: _, now: _ } = new else {
            return Err(Refusal::IdTaken(Key::Manifest(manifest.id)));
        };
        let Ok(()) = self.arrays.close(self.alloc, Some(manifest)) else {
            return Err(Refusal::NoMemory);
        };
        match self.go_on() {
            Ok(()) => Ok(Next::Again),
            Err(why) => Err(why),
        }
    }

    /// The log was put: the snapshot is flushed at the time that the reply tells.
    fn on_log(&mut self, id: Id12, new: New) -> Result<Next<Tried>, Refusal>
        requires { self.old.state ≡ Committing.Ended }
        ensures took { LandsCalmly (after_log self.old.session self.old.message self.old.arrays.news
            id self.old.session.ids (Reply.New new)) (commit_rest self.new) result }
        ensures falls { commit_left self.new < length self.old.arrays.left * 2 ^ 65 + 3 }
        ensures kept { IsDrawn (session_in self.old) (session_in self.new) }
        ensures message { message_in self.new ≡ message_in self.old }
        ensures drew { DrewFor result self.new.state self.old.session.ids self.new.session.ids }
        ensures left { IsLeft result (session_in self.new) }
        ensures listed { IfErr result MayRefuseCommit }
    {
        let now = match new {
            New::Done { version: _, now } => now,
            New::Present { version: _, now: _ } => {
                return Err(Refusal::IdTaken(Key::Txn(id)));
            }
        };
        match write_snapshot(&self.session, id, now, self.arrays.news(), &self.message) {
            Ok(file) => {
                self.state = Committing::Snapshot { id, file };
                Ok(Next::Again)
            }
            Err(why) => Err(why),
        }
    }

    /// The snapshot was put: the reference's bytes are made, so that nothing behind its put takes memory.
    fn on_snapshot(&mut self, id: Id12, new: New) -> Result<Next<Tried>, Refusal>
        requires { self.old.state ≡ Committing.Ended }
        ensures took { LandsCalmly (after_snapshot self.old.session id self.old.session.ids
            (Reply.New new)) (commit_rest self.new) result }
        ensures falls { commit_left self.new < length self.old.arrays.left * 2 ^ 65 + 2 }
        ensures kept { IsDrawn (session_in self.old) (session_in self.new) }
        ensures message { message_in self.new ≡ message_in self.old }
        ensures drew { DrewFor result self.new.state self.old.session.ids self.new.session.ids }
        ensures left { IsLeft result (session_in self.new) }
        ensures listed { IfErr result MayRefuseCommit }
    {
        if let New::Present { version: _, now: _ } = new {
            return Err(Refusal::IdTaken(Key::Snapshot(id)));
        }
        match Bytes::of(self.alloc, &ref_write(id)) {
            Ok(file) => {
                self.state = Committing::Branch { id, file };
                Ok(Next::Again)
            }
            Err(_) => Err(Refusal::NoMemory),
        }
    }

    /// The branch was put over, or not.
    fn on_branch(&mut self, id: Id12, over: Over) -> Result<Next<Tried>, Refusal>
        requires { self.old.state ≡ Committing.Ended }
        ensures took { LandsSurely (after_branch self.old.session id self.old.session.ids
            (Reply.Over over)) (commit_rest self.new) result }
        ensures falls { commit_left self.new < length self.old.arrays.left * 2 ^ 65 + 1 }
        ensures kept { IsDrawn (session_in self.old) (session_in self.new) }
        ensures message { message_in self.new ≡ message_in self.old }
        ensures drew { DrewFor result self.new.state self.old.session.ids self.new.session.ids }
        ensures left { IsLeft result (session_in self.new) }
        ensures listed { IfErr result MayRefuseCommit }
    {
        match over {
            Over::Done { version, now: _ } => Ok(Next::Ready(Tried::Done(Committed {
                id,
                version,
            }))),
            Over::Moved { found, now: _ } => Ok(Next::Ready(Tried::Lost {
                old: self.session.version(),
                found,
                next: self.session.as_session().ids(),
            })),
        }
    }

    /// Begins a commit: arrays without old manifests are merged, and the bytes of its first operation are made, under an id
    /// that the session draws. It is refused by `ReadOnly`, `NothingToCommit`, `IdsSpent` or `TooLarge`, as the program of
    /// the commit is, or by `NoMemory`, and then the session comes back as it was, apart from ids that were drawn. The first
    /// two take no memory, so they are told wherever they hold.
    #[tactic(auto, using(crate::proofs::Walking::own_start))]
    pub fn start(
        alloc: Global,
        session: Session,
        message: Text,
    ) -> Result<Commit, (Session, Refusal)>
        ensures starts { CommitStarts session message result }
        ensures read_only { writes session ≡ false → result ≡ Err (session, Refusal.ReadOnly) }
        ensures unchanged { writes session ≡ true → is_untouched
            (touched session.held (base_nodes session)) ≡ true
            → result ≡ Err (session, Refusal.NothingToCommit) }
        ensures message { IfOk result (λ c. message_in c ≡ message) }
        ensures bounded { IfOk result (λ c. commit_left c ≤ 2 ^ 200) }
        ensures listed { IfErr result (λ refused. MayRefuseStart refused.1) }
    {
        if !session.writes() {
            return Err((session, Refusal::ReadOnly));
        }
        if session.is_unchanged() {
            return Err((session, Refusal::NothingToCommit));
        }
        let Ok(arrays) = session.changed_arrays() else {
            return Err((session, Refusal::NoMemory));
        };
        let session = Writer::new(session);
        let mut commit = Commit {
            alloc,
            session,
            message,
            arrays: Arrays::new(alloc, arrays),
            state: Committing::Ended,
        };
        match commit.go_on() {
            Ok(()) => Ok(commit),
            Err(why) => {
                let (session, message) = commit.into_parts();
                drop(message);
                Err((session, why))
            }
        }
    }

    /// The session and the message, after the commit was tried.
    pub fn into_parts(self) -> (Session, Text)
        ensures session { result.0 ≡ session_in self }
        ensures message { result.1 ≡ message_in self }
    {
        let Commit {
            session,
            message,
            arrays,
            state,
            ..
        } = self;
        drop(arrays);
        drop(state);
        (session.into_session(), message)
    }

    /// The branch, after the commit was tried, where nothing else of it is needed.
    pub fn into_branch(self) -> RefName
        ensures { result ≡ branch_of (session_in self) }
    {
        let Commit {
            session,
            message,
            arrays,
            state,
            ..
        } = self;
        drop(message);
        drop(arrays);
        drop(state);
        session.into_branch()
    }

    /// The id of the session's base.
    pub fn base(&self) -> Id12
        ensures { result ≡ (session_in self.now).base }
    {
        self.session.as_session().base()
    }

    /// One operation of the store. Where the put over of the branch fails, the commit is in doubt: it may have been done.
    pub fn step<S: Store>(&mut self, store: &mut S) -> Result<Next<Tried>, Refusal>
        requires live { IsAsk (commit_rest self.old) }
        requires polite { IsTrue (S.view store.old).caller.tells
            → NextIsPolite (commit_rest self.old) (S.view store.old).seen }
        ensures step { Steps (S.view store.old) (S.view store.new) (commit_rest self.old)
            (commit_rest self.new) result }
        ensures falls { commit_left self.new < commit_left self.old }
        ensures session { IsDrawn (session_in self.old) (session_in self.new) }
        ensures message { message_in self.new ≡ message_in self.old }
        ensures drew { DrewFor result self.new.state self.old.session.ids self.new.session.ids }
        ensures left { IsLeft result (session_in self.new) }
        ensures listed { IfErr result MayRefuseCommit }
    {
        match ask(self, store) {
            Ok(reply) => self.answer(reply),
            Err(StoreFault::Failed) => self.answer(Reply::Failed { done: false }),
            Err(StoreFault::NoMemory) => {
                self.stop();
                Err(Refusal::NoMemory)
            }
        }
    }
}
