//! The machine that sets a branch to another snapshot.

ghost use Rattle.std.specs.Prelude.{◌≡◌, ◌<◌, ◌≤◌, ◌+◌, IfErr, IsTrue};
ghost use Rattle.store_api.specs.Program.{IsAsk, NextIsPolite, Steps};
ghost use Rattle.store_api.specs.Driving.{Awaits, Took};
ghost use Rattle.refs_admin.specs.Branches.{branch_reset_program, reset_program, move_program, MayRefuseReset};
ghost use Rattle.repo_read.specs.Seeking.{resolving_left};
ghost use Rattle.refs_admin.specs.inside.Working.{moving_rest, branch_reset_rest, branch_reset_left};

use crate::answers::{moved, reference, target_told};
use ice_base::RefName;
use ice_ids::Id12;
use repo_read::{At, Resolution, Resolving, ref_told};
use std::alloc::{AllocError, Global};
use std::mem;
use store_api::{Key, Machine, Next, Refusal, Reply, Request, Store, Version, Why, drive};

/// The operation that comes next.
#[derive(Drop)]
pub enum Moving {
    /// What names the snapshot is resolved.
    Resolving(Resolving),
    /// The branch is got.
    Branch(Id12),
    /// The snapshot is got, where the branch stands at this version.
    Target(Id12, Version),
    /// The branch is put over this version.
    Over(Id12, Version),
    /// The machine has ended.
    Ended,
}

/// A machine that sets a branch to another snapshot: it resolves what names the snapshot, gets the branch, gets the snapshot,
/// and puts the branch over the version that it read. It may answer `NoRef`, `NoSnapshot`, `Moved`, `BadFile`, `StoreFault` or
/// `NoMemory`.
#[derive(Drop)]
pub struct BranchReset {
    alloc: Global,
    name: RefName,
    state: Moving,
}

impl Machine for BranchReset {
    type Answer = ();

    ghost rest = { branch_reset_rest };

    ghost left = { branch_reset_left };

    ghost keeps = { λ result old new. Unit {0} };

    ghost may_refuse = { MayRefuseReset };

    fn request(&self) -> Result<Request<'_>, AllocError> {
        match &self.state {
            Moving::Resolving(resolving) => resolving.request(self.alloc),
            Moving::Branch(_) => Ok(Request::Get {
                key: Key::Branch(self.name.copy(self.alloc)?),
            }),
            Moving::Target(id, _) => Ok(Request::Get {
                key: Key::Snapshot(*id),
            }),
            Moving::Over(id, version) => Ok(Request::PutOver {
                key: Key::Branch(self.name.copy(self.alloc)?),
                bytes: reference(self.alloc, *id)?,
                old: *version,
                why: Why::Reset,
            }),
            Moving::Ended => unreachable!(),
        }
    }

    fn answer(&mut self, reply: Reply) -> Result<Next<()>, Refusal> {
        let state = mem::replace(&mut self.state, Moving::Ended);
        match state {
            Moving::Resolving(resolving) => self.on_resolving(resolving, reply),
            Moving::Branch(id) => self.on_branch(id, reply),
            Moving::Target(id, version) => self.on_target(id, version, reply),
            Moving::Over(_, _) => moved(reply).map(Next::Ready),
            Moving::Ended => unreachable!(),
        }
    }

    fn stop(&mut self) {
        self.state = Moving::Ended;
    }

    ghost may_starve = { tt };
}

impl BranchReset {
    /// Before its first operation.
    pub fn new(alloc: Global, name: RefName, at: At) -> BranchReset
        ensures program { branch_reset_rest result ≡ branch_reset_program name at }
        ensures few { branch_reset_left result ≤ 5 }
    {
        let state = match Resolution::begin(at) {
            Resolution::Known(named) => Moving::Branch(named.id),
            Resolution::Asks(resolving) => Moving::Resolving(resolving),
        };
        BranchReset { alloc, name, state }
    }

    /// One operation of the store.
    pub fn step<S: Store>(&mut self, store: &mut S) -> Result<Next<()>, Refusal>
        requires live { IsAsk (branch_reset_rest self.old) }
        requires polite { IsTrue (S.view store.old).caller.tells
            → NextIsPolite (branch_reset_rest self.old) (S.view store.old).seen }
        ensures step { Steps (S.view store.old) (S.view store.new) (branch_reset_rest self.old)
            (branch_reset_rest self.new) result }
        ensures falls { branch_reset_left self.new < branch_reset_left self.old }
        ensures listed { IfErr result MayRefuseReset }
    {
        drive(self, store)
    }

    fn on_resolving(&mut self, resolving: Resolving, reply: Reply) -> Result<Next<()>, Refusal>
        requires ended { self.old.state ≡ Moving.Ended }
        requires awaited { Awaits (moving_rest self.old.name (Moving.Resolving resolving)) reply }
        ensures took { Took (moving_rest self.old.name (Moving.Resolving resolving)) reply
            (branch_reset_rest self.new) result }
        ensures falls { branch_reset_left self.new < resolving_left resolving + 3 }
        ensures listed { IfErr result MayRefuseReset }
    {
        let next = match resolving.on_reply(self.alloc, reply)? {
            Resolution::Known(named) => Moving::Branch(named.id),
            Resolution::Asks(resolving) => Moving::Resolving(resolving),
        };
        put_back(&mut self.state, next);
        Ok(Next::Again)
    }

    fn on_branch(&mut self, id: Id12, reply: Reply) -> Result<Next<()>, Refusal>
        requires ended { self.old.state ≡ Moving.Ended }
        requires awaited { Awaits (reset_program self.old.name id) reply }
        ensures took { Took (reset_program self.old.name id) reply (branch_reset_rest self.new)
            result }
        ensures falls { branch_reset_left self.new < 3 }
        ensures listed { IfErr result MayRefuseReset }
    {
        let read = ref_told(self.alloc, &self.name, reply)?;
        put_back(&mut self.state, Moving::Target(id, read.version));
        Ok(Next::Again)
    }

    fn on_target(&mut self, id: Id12, version: Version, reply: Reply) -> Result<Next<()>, Refusal>
        requires ended { self.old.state ≡ Moving.Ended }
        requires awaited { Awaits (move_program self.old.name id version) reply }
        ensures took { Took (move_program self.old.name id version) reply
            (branch_reset_rest self.new) result }
        ensures falls { branch_reset_left self.new < 2 }
        ensures listed { IfErr result MayRefuseReset }
    {
        drop(target_told(self.alloc, id, reply)?);
        put_back(&mut self.state, Moving::Over(id, version));
        Ok(Next::Again)
    }
}

/// Puts the next state where the machine has ended.
fn put_back(state: &mut Moving, next: Moving)
    requires { state.old ≡ Moving.Ended }
    ensures { state.new ≡ next }
{
    match mem::replace(state, next) {
        Moving::Ended => {}
        _ => unreachable!(),
    }
}
