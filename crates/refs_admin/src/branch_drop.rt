//! The machine that drops a branch.

ghost use Rattle.std.specs.Prelude.{◌≡◌, ◌<◌, ◌≤◌, IfErr, IsTrue};
ghost use Rattle.ice_base.specs.Names.{main_name, same_name};
ghost use Rattle.store_api.specs.Program.{IsAsk, NextIsPolite, Steps};
ghost use Rattle.store_api.specs.Driving.{Awaits, Took};
ghost use Rattle.refs_admin.specs.Branches.{branch_drop_program, MayRefuseDrop};
ghost use Rattle.refs_admin.specs.inside.Working.{branch_drop_rest, branch_drop_left};

use crate::answers::dropped;
use ice_base::RefName;
use repo_read::ref_told;
use std::alloc::{AllocError, Global};
use store_api::{Key, Machine, Next, Refusal, Reply, Request, Store, Version, Why, drive};

/// The operation that comes next.
#[derive(Clone, Copy)]
pub enum Dropping {
    /// The branch is got.
    Branch,
    /// The branch is removed at this version. It isn't `main`.
    Removal(Version),
    /// The machine has ended.
    Ended,
}

/// A machine that drops a branch: it gets the branch, and removes it at the version that it read. It may answer `NoRef`,
/// `MainKept`, `Moved`, `BadFile`, `StoreFault` or `NoMemory`.
#[derive(Drop)]
pub struct BranchDrop {
    alloc: Global,
    name: RefName,
    state: Dropping,
}

/// Whether it is the branch `main`.
fn is_main(name: &RefName) -> bool
    ensures { result ≡ same_name name.now main_name }
{
    name.as_str() == "main"
}

impl Machine for BranchDrop {
    type Answer = ();

    ghost rest = { branch_drop_rest };

    ghost left = { branch_drop_left };

    ghost keeps = { λ result old new. Unit {0} };

    ghost may_refuse = { MayRefuseDrop };

    fn request(&self) -> Result<Request<'_>, AllocError> {
        let key = Key::Branch(self.name.copy(self.alloc)?);
        match self.state {
            Dropping::Branch => Ok(Request::Get { key }),
            Dropping::Removal(old) => Ok(Request::RemoveAt {
                key,
                old,
                why: Why::Drop,
            }),
            Dropping::Ended => unreachable!(),
        }
    }

    fn answer(&mut self, reply: Reply) -> Result<Next<()>, Refusal> {
        let state = self.state;
        self.state = Dropping::Ended;
        match state {
            Dropping::Branch => self.on_branch(reply),
            Dropping::Removal(_) => Ok(Next::Ready(dropped(reply)?)),
            Dropping::Ended => unreachable!(),
        }
    }

    fn stop(&mut self) {
        self.state = Dropping::Ended;
    }

    ghost may_starve = { tt };
}

impl BranchDrop {
    /// Before its first operation.
    pub fn new(alloc: Global, name: RefName) -> BranchDrop
        ensures program { branch_drop_rest result ≡ branch_drop_program name }
        ensures few { branch_drop_left result ≤ 2 }
    {
        BranchDrop {
            alloc,
            name,
            state: Dropping::Branch,
        }
    }

    /// One operation of the store.
    pub fn step<S: Store>(&mut self, store: &mut S) -> Result<Next<()>, Refusal>
        requires live { IsAsk (branch_drop_rest self.old) }
        requires polite { IsTrue (S.view store.old).caller.tells
            → NextIsPolite (branch_drop_rest self.old) (S.view store.old).seen }
        ensures step { Steps (S.view store.old) (S.view store.new) (branch_drop_rest self.old)
            (branch_drop_rest self.new) result }
        ensures falls { branch_drop_left self.new < branch_drop_left self.old }
        ensures listed { IfErr result MayRefuseDrop }
    {
        drive(self, store)
    }

    fn on_branch(&mut self, reply: Reply) -> Result<Next<()>, Refusal>
        requires ended { self.old.state ≡ Dropping.Ended }
        requires awaited { Awaits (branch_drop_program self.old.name) reply }
        ensures took { Took (branch_drop_program self.old.name) reply (branch_drop_rest self.new)
            result }
        ensures falls { branch_drop_left self.new < 2 }
        ensures listed { IfErr result MayRefuseDrop }
    {
        let read = ref_told(self.alloc, &self.name, reply)?;
        if is_main(&self.name) {
            return Err(Refusal::MainKept);
        }
        self.state = Dropping::Removal(read.version);
        Ok(Next::Again)
    }
}
