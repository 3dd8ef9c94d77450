//! Writing boxes of numbers.

ghost use Rattle.std.specs.Prelude.{◌≡◌, ◌<◌, false, IfOk, IfErr, IsSome, IsTrue, Some};
ghost use Rattle.store_api.specs.Program.{IsAsk, NextIsPolite, Steps, is_fault};
ghost use Rattle.array_region.specs.Writing.{region_set_program};
ghost use Rattle.array_region.specs.Setting.{UnlessReady, MayRefuseWrite};
ghost use Rattle.array_region.specs.Filling.{region_set_rest, region_set_left, region_set_session, state_after, answer_after, KeepsTree, BeginsSet, IsFewSet};

use crate::giving::given;
use crate::planning::planned;
use crate::plans::Region;
use crate::runs::{Run, WriteStage};
use crate::stages::Stage;
use session::Session;
use std::alloc::{AllocError, Global};
use std::mem;
use store_api::{Key, Machine, Next, Payload, Refusal, Reply, Request, Store, Why, drive};

/// What the writing of a box came to.
#[derive(Drop)]
pub enum Setting {
    /// The box was written.
    Ready(Session),
    /// Manifests or objects are to be got, or objects put.
    Again(RegionSet),
}

/// Where the writing of a box stands, and the session.
#[derive(Drop)]
enum Writing {
    /// It goes on.
    Runs(Run),
    /// The machine was refused, and has the session.
    Refused(Session),
    /// The session was given out.
    Ended,
}

/// A machine that writes numbers into a box of an array's cells: it takes the chunks that the box meets in order of their
/// indices, reads each that the box doesn't cover, and puts an object for each long one. At the end all of them are entered, and
/// the session is given out. It may answer `Missing`, `BadFile`, `IdTaken`, `IdsSpent`, `StoreFault` or `NoMemory` instead, and
/// then the session's tree is as it was.
#[derive(Drop)]
pub struct RegionSet {
    state: Writing,
}

impl RegionSet {
    /// Writes numbers into a box. Where no operation comes, the session is answered at once; else a machine makes them. It is
    /// refused by `ReadOnly`, `NoNode`, `NotArray`, `OutOfShape`, `Large`, `CellCount`, `CellRange`, the first in this order, or
    /// then by what the chunks tell, and the session comes back with its tree as it was.
    pub fn start(
        alloc: Global,
        session: Session,
        region: Region,
        numbers: Vec<i128>,
    ) -> Result<Setting, (Session, Refusal)>
        ensures begins { BeginsSet (region_set_program session region.path region.from.items
            region.to.items numbers.items) session result }
        ensures few { IfOk result IsFewSet }
        ensures calm { IfErr result (λ refused. is_fault refused.1 ≡ false) }
    {
        if !session.writes() {
            drop(region);
            drop(numbers);
            return Err((session, Refusal::ReadOnly));
        }
        let plan = match planned(alloc, &session, region) {
            Ok(plan) => plan,
            Err(why) => {
                drop(numbers);
                return Err((session, why));
            }
        };
        let given = match given(plan, numbers) {
            Ok(given) => given,
            Err(why) => return Err((session, why)),
        };
        let mut run = Run {
            alloc,
            session,
            given,
            at: 0,
            kept: None,
            placed: Vec::new(alloc),
            stage: WriteStage::Ended,
        };
        match run.go_on() {
            Ok(Next::Again) => Ok(Setting::Again(RegionSet {
                state: Writing::Runs(run),
            })),
            Ok(Next::Ready(())) => Ok(Setting::Ready(run.into_session())),
            Err(why) => Err((run.into_session(), why)),
        }
    }

    /// The session, after the machine was refused: its tree is as it was.
    pub fn into_session(self) -> Session
        requires { IsSome (region_set_session self) }
        ensures { region_set_session self ≡ Some result }
    {
        match self.state {
            Writing::Runs(run) => run.into_session(),
            Writing::Refused(session) => session,
            Writing::Ended => unreachable!(),
        }
    }

    /// One operation of the store.
    pub fn step<S: Store>(&mut self, store: &mut S) -> Result<Next<Session>, Refusal>
        requires live { IsAsk (region_set_rest self.old) }
        requires polite { IsTrue (S.view store.old).caller.tells
            → NextIsPolite (region_set_rest self.old) (S.view store.old).seen }
        ensures step { Steps (S.view store.old) (S.view store.new) (region_set_rest self.old)
            (region_set_rest self.new) result }
        ensures falls { region_set_left self.new < region_set_left self.old }
        ensures tree { UnlessReady result
            (KeepsTree (region_set_session self.old) (region_set_session self.new)) }
        ensures listed { IfErr result MayRefuseWrite }
    {
        drive(self, store)
    }

    /// The state that follows, where there was none.
    fn hold(&mut self, next: Writing)
        requires { self.old.state ≡ Writing.Ended }
        ensures { self.new.state ≡ next }
    {
        match mem::replace(&mut self.state, next) {
            Writing::Ended => {}
            _ => unreachable!(),
        }
    }

    /// A run was answered.
    fn on_answered(
        &mut self,
        run: Run,
        answered: Result<Next<()>, Refusal>,
    ) -> Result<Next<Session>, Refusal>
        requires { self.old.state ≡ Writing.Ended }
        ensures state { self.new.state ≡ state_after run answered }
        ensures answer { result ≡ answer_after run answered }
    {
        match answered {
            Ok(Next::Again) => {
                self.hold(Writing::Runs(run));
                Ok(Next::Again)
            }
            Ok(Next::Ready(())) => Ok(Next::Ready(run.into_session())),
            Err(why) => {
                self.hold(Writing::Refused(run.into_session()));
                Err(why)
            }
        }
    }
}

impl Machine for RegionSet {
    type Answer = Session;

    ghost rest = { region_set_rest };

    ghost left = { region_set_left };

    ghost keeps = { λ result old new. UnlessReady result (KeepsTree (region_set_session old) (region_set_session new)) };

    ghost may_refuse = { MayRefuseWrite };

    fn request(&self) -> Result<Request<'_>, AllocError> {
        let Writing::Runs(run) = &self.state else {
            unreachable!()
        };
        match &run.stage {
            WriteStage::Reads(Stage::Manifest { id, .. }) => Ok(Request::Get {
                key: Key::Manifest(*id),
            }),
            WriteStage::Reads(Stage::Object { id, .. }) => Ok(Request::Get {
                key: Key::Chunk(*id),
            }),
            WriteStage::Puts { id, bytes, .. } => Ok(Request::PutNew {
                key: Key::Chunk(*id),
                bytes: Payload::Lent(bytes.as_slice()),
                why: Why::Set,
            }),
            WriteStage::Reads(Stage::Ended) | WriteStage::Ended => unreachable!(),
        }
    }

    fn answer(&mut self, reply: Reply) -> Result<Next<Session>, Refusal> {
        match mem::replace(&mut self.state, Writing::Ended) {
            Writing::Runs(mut run) => {
                let answered = run.answer(reply);
                self.on_answered(run, answered)
            }
            _ => unreachable!(),
        }
    }

    fn stop(&mut self) {
        match mem::replace(&mut self.state, Writing::Ended) {
            Writing::Runs(run) => self.hold(Writing::Refused(run.into_session())),
            _ => unreachable!(),
        }
    }

    ghost may_starve = { tt };
}
