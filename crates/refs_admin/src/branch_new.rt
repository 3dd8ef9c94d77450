//! The machine that makes a branch.

ghost use Rattle.std.specs.Prelude.{◌≡◌, ◌<◌, ◌≤◌, ◌+◌, IfErr, IsTrue};
ghost use Rattle.store_api.specs.Program.{IsAsk, NextIsPolite, Steps};
ghost use Rattle.store_api.specs.Driving.{Awaits, Took};
ghost use Rattle.refs_admin.specs.Branches.{branch_new_program, create_program, MayRefuseNew};
ghost use Rattle.repo_read.specs.Seeking.{resolving_left};
ghost use Rattle.refs_admin.specs.inside.Working.{creating_rest, branch_new_rest, branch_new_left};

use crate::answers::{created, reference, target_told};
use ice_base::RefName;
use ice_ids::Id12;
use repo_read::{At, Resolution, Resolving};
use std::alloc::{AllocError, Global};
use std::mem;
use store_api::{Key, Machine, Next, Refusal, Reply, Request, Store, Why, drive};

/// The operation that comes next.
#[derive(Drop)]
pub enum Creating {
    /// What names the snapshot is resolved.
    Resolving(Resolving),
    /// The snapshot is got.
    Target(Id12),
    /// The branch is put.
    Branch(Id12),
    /// The machine has ended.
    Ended,
}

/// A machine that makes a branch: it resolves what names the snapshot, gets the snapshot, and puts the branch where it is
/// absent. It may answer `NoRef`, `NoSnapshot`, `RefExists`, `BadFile`, `StoreFault` or `NoMemory`.
#[derive(Drop)]
pub struct BranchNew {
    alloc: Global,
    name: RefName,
    state: Creating,
}

impl Machine for BranchNew {
    type Answer = ();

    ghost rest = { branch_new_rest };

    ghost left = { branch_new_left };

    ghost keeps = { λ result old new. Unit {0} };

    ghost may_refuse = { MayRefuseNew };

    fn request(&self) -> Result<Request<'_>, AllocError> {
        match &self.state {
            Creating::Resolving(resolving) => resolving.request(self.alloc),
            Creating::Target(id) => Ok(Request::Get {
                key: Key::Snapshot(*id),
            }),
            Creating::Branch(id) => Ok(Request::PutNew {
                key: Key::Branch(self.name.copy(self.alloc)?),
                bytes: reference(self.alloc, *id)?,
                why: Why::Create,
            }),
            Creating::Ended => unreachable!(),
        }
    }

    fn answer(&mut self, reply: Reply) -> Result<Next<()>, Refusal> {
        let state = mem::replace(&mut self.state, Creating::Ended);
        match state {
            Creating::Resolving(resolving) => self.on_resolving(resolving, reply),
            Creating::Target(id) => self.on_target(id, reply),
            Creating::Branch(_) => created(reply).map(Next::Ready),
            Creating::Ended => unreachable!(),
        }
    }

    fn stop(&mut self) {
        self.state = Creating::Ended;
    }

    ghost may_starve = { tt };
}

impl BranchNew {
    /// Before its first operation.
    pub fn new(alloc: Global, name: RefName, at: At) -> BranchNew
        ensures program { branch_new_rest result ≡ branch_new_program name at }
        ensures few { branch_new_left result ≤ 4 }
    {
        let state = match Resolution::begin(at) {
            Resolution::Known(named) => Creating::Target(named.id),
            Resolution::Asks(resolving) => Creating::Resolving(resolving),
        };
        BranchNew { alloc, name, state }
    }

    /// One operation of the store.
    pub fn step<S: Store>(&mut self, store: &mut S) -> Result<Next<()>, Refusal>
        requires live { IsAsk (branch_new_rest self.old) }
        requires polite { IsTrue (S.view store.old).caller.tells
            → NextIsPolite (branch_new_rest self.old) (S.view store.old).seen }
        ensures step { Steps (S.view store.old) (S.view store.new) (branch_new_rest self.old)
            (branch_new_rest self.new) result }
        ensures falls { branch_new_left self.new < branch_new_left self.old }
        ensures listed { IfErr result MayRefuseNew }
    {
        drive(self, store)
    }

    fn on_resolving(&mut self, resolving: Resolving, reply: Reply) -> Result<Next<()>, Refusal>
        requires ended { self.old.state ≡ Creating.Ended }
        requires awaited { Awaits (creating_rest self.old.name (Creating.Resolving resolving))
            reply }
        ensures took { Took (creating_rest self.old.name (Creating.Resolving resolving)) reply
            (branch_new_rest self.new) result }
        ensures falls { branch_new_left self.new < resolving_left resolving + 2 }
        ensures listed { IfErr result MayRefuseNew }
    {
        let next = match resolving.on_reply(self.alloc, reply)? {
            Resolution::Known(named) => Creating::Target(named.id),
            Resolution::Asks(resolving) => Creating::Resolving(resolving),
        };
        put_back(&mut self.state, next);
        Ok(Next::Again)
    }

    fn on_target(&mut self, id: Id12, reply: Reply) -> Result<Next<()>, Refusal>
        requires ended { self.old.state ≡ Creating.Ended }
        requires awaited { Awaits (create_program self.old.name id) reply }
        ensures took { Took (create_program self.old.name id) reply (branch_new_rest self.new)
            result }
        ensures falls { branch_new_left self.new < 2 }
        ensures listed { IfErr result MayRefuseNew }
    {
        drop(target_told(self.alloc, id, reply)?);
        put_back(&mut self.state, Creating::Branch(id));
        Ok(Next::Again)
    }
}

/// Puts the next state where the machine has ended.
fn put_back(state: &mut Creating, next: Creating)
    requires { state.old ≡ Creating.Ended }
    ensures { state.new ≡ next }
{
    match mem::replace(state, next) {
        Creating::Ended => {}
        _ => unreachable!(),
    }
}
