//! The machine that reads a snapshot.

ghost use Rattle.std.specs.Prelude.{◌≡◌, ◌<◌, IfErr};
ghost use Rattle.store_api.specs.Program.{IsAsk, Steps};
ghost use Rattle.repo_read.specs.Programs.{snapshot_program, MayRefuseObject};
ghost use Rattle.repo_read.specs.inside.Working.{reading_rest, reading_left};

use crate::answers::snapshot_told;
use ice_ids::Id12;
use repo_objects::Loaded;
use std::alloc::{AllocError, Global};
use store_api::{Key, Machine, Next, Refusal, Reply, Request, Store, drive};

/// A machine that reads a snapshot, in one operation. It may answer `Missing`, `BadFile`, `StoreFault` or `NoMemory` instead.
#[derive(Drop)]
pub struct ReadSnapshot {
    alloc: Global,
    id: Id12,
    ended: bool,
}

impl Machine for ReadSnapshot {
    type Answer = Loaded;

    ghost rest = { reading_rest };

    ghost left = { reading_left };

    ghost keeps = { λ result old new. Unit {0} };

    ghost may_refuse = { MayRefuseObject };

    fn request(&self) -> Result<Request<'_>, AllocError> {
        Ok(Request::Get {
            key: Key::Snapshot(self.id),
        })
    }

    fn answer(&mut self, reply: Reply) -> Result<Next<Loaded>, Refusal> {
        self.ended = true;
        Ok(Next::Ready(snapshot_told(self.alloc, self.id, reply)?))
    }

    fn stop(&mut self) {
        self.ended = true;
    }

    ghost may_starve = { tt };
}

impl ReadSnapshot {
    /// Before its operation.
    pub fn new(alloc: Global, id: Id12) -> ReadSnapshot
        ensures { reading_rest result ≡ snapshot_program id }
    {
        ReadSnapshot {
            alloc,
            id,
            ended: false,
        }
    }

    /// One operation of the store.
    pub fn step<S: Store>(&mut self, store: &mut S) -> Result<Next<Loaded>, Refusal>
        requires { IsAsk (reading_rest self.old) }
        ensures step { Steps (S.view store.old) (S.view store.new) (reading_rest self.old)
            (reading_rest self.new) result }
        ensures falls { reading_left self.new < reading_left self.old }
        ensures listed { IfErr result MayRefuseObject }
    {
        drive(self, store)
    }
}
