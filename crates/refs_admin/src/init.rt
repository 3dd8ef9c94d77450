//! The machine that makes a repository.

ghost use Rattle.std.specs.Prelude.{◌≡◌, ◌<◌, ◌≤◌, IfErr, IfOk, IsTrue};
ghost use Rattle.repo_objects.specs.Laws.{initial_bytes};
ghost use Rattle.store_api.specs.Program.{IsAsk, NextIsPolite, Steps};
ghost use Rattle.store_api.specs.Driving.{payload_bytes};
ghost use Rattle.refs_admin.specs.NewRepository.{init_program, MayRefuseInit};
ghost use Rattle.refs_admin.specs.inside.Working.{init_rest, init_left};

use crate::answers::{created, reference};
use ice_base::{Bytes, RefName};
use ice_ids::Id12;
use snapshot_file::{INITIAL_FILE, initial_law};
use std::alloc::{AllocError, Global};
use store_api::{Key, Machine, Next, Payload, Refusal, Reply, Request, Store, Why, drive};

/// The operation that comes next.
#[derive(Clone, Copy)]
pub enum InitStep {
    /// The initial snapshot is put.
    Snapshot,
    /// The branch `main` is put.
    Main,
    /// The machine has ended.
    Ended,
}

/// A machine that makes a repository: it puts the initial snapshot, and then the branch `main` with a reference to it, each
/// where its key is free. It may answer `RefExists` where `main` was there, `StoreFault` or `NoMemory`.
#[derive(Drop)]
pub struct Init {
    alloc: Global,
    state: InitStep,
}

/// The file of the initial snapshot.
fn initial_file(alloc: Global) -> Result<Payload<'static>, AllocError>
    ensures { IfOk result (λ payload. payload_bytes payload ≡ initial_bytes) }
{
    initial_law();
    Ok(Payload::Made(Bytes::of(alloc, &INITIAL_FILE)?))
}

impl Machine for Init {
    type Answer = ();

    ghost rest = { init_rest };

    ghost left = { init_left };

    ghost keeps = { λ result old new. Unit {0} };

    ghost may_refuse = { MayRefuseInit };

    fn request(&self) -> Result<Request<'_>, AllocError> {
        let (key, bytes) = match self.state {
            InitStep::Snapshot => (Key::Snapshot(Id12::INITIAL), initial_file(self.alloc)?),
            InitStep::Main => (
                Key::Branch(RefName::main(self.alloc)?),
                reference(self.alloc, Id12::INITIAL)?,
            ),
            InitStep::Ended => unreachable!(),
        };
        Ok(Request::PutNew {
            key,
            bytes,
            why: Why::Init,
        })
    }

    fn answer(&mut self, reply: Reply) -> Result<Next<()>, Refusal> {
        let state = self.state;
        self.state = InitStep::Ended;
        match (state, reply) {
            (InitStep::Snapshot, Reply::New(_)) => {
                self.state = InitStep::Main;
                Ok(Next::Again)
            }
            (InitStep::Main, reply) => Ok(Next::Ready(created(reply)?)),
            _ => Err(Refusal::StoreFault),
        }
    }

    fn stop(&mut self) {
        self.state = InitStep::Ended;
    }

    ghost may_starve = { tt };
}

impl Init {
    /// Before its first operation.
    pub fn new(alloc: Global) -> Init
        ensures program { init_rest result ≡ init_program }
        ensures few { init_left result ≤ 2 }
    {
        Init {
            alloc,
            state: InitStep::Snapshot,
        }
    }

    /// One operation of the store.
    pub fn step<S: Store>(&mut self, store: &mut S) -> Result<Next<()>, Refusal>
        requires live { IsAsk (init_rest self.old) }
        requires polite { IsTrue (S.view store.old).caller.tells
            → NextIsPolite (init_rest self.old) (S.view store.old).seen }
        ensures step { Steps (S.view store.old) (S.view store.new) (init_rest self.old)
            (init_rest self.new) result }
        ensures falls { init_left self.new < init_left self.old }
        ensures listed { IfErr result MayRefuseInit }
    {
        drive(self, store)
    }
}
