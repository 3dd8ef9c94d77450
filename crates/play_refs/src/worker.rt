//! Workers.

ghost use Rattle.std.specs.Prelude.{◌≡◌, true, false};
ghost use Rattle.play_outcome.specs.Ending.{shows_failed};
ghost use Rattle.play_refs.specs.inside.Working.{is_working, shown_in};

use crate::lines::play_lines;
use crate::steps::step_on;
use crate::working::Working;
use play_outcome::{End, Outcome, Shows};
use play_script::Line;
use std::alloc::Global;
use std::mem;
use store_api::Store;

/// One task that calls on refs: it makes the calls of its lines, one after another, up to the first that is refused. Each step
/// makes one operation of the store, and the local work that follows from its answer.
#[derive(Drop)]
pub struct RefsWorker<'a> {
    alloc: Global,
    body: &'a [Line],
    state: Working,
    ghost works: { is_working state ≡ true },
    ghost plain: { shows_failed (shown_in state) ≡ false },
}

impl<'a> RefsWorker<'a> {
    ghost use Rattle.std.specs.Prelude.{◌≡◌, ◌<◌, [], false, IsTrue};
    ghost use Rattle.store_api.specs.Plays.{Comes, Ended, IsLive, HasEnded, Acts, PlayIsPolite};
    ghost use Rattle.play_outcome.specs.Ending.{is_failed};
    ghost use Rattle.play_refs.specs.Playing.{refs_play};
    ghost use Rattle.play_refs.specs.Workers.{refs_rest, refs_left};

    /// A worker for the task with this body. Where there is no memory to begin the first call, it has ended.
    pub fn new(alloc: Global, body: &'a [Line]) -> RefsWorker<'a>
        ensures { Comes (refs_play body.now []) (refs_rest result) }
    {
        RefsWorker {
            alloc,
            body,
            state: play_lines(alloc, body, 0, Vec::new(alloc)),
        }
    }

    /// Whether the worker has ended.
    pub fn has_ended(&self) -> bool
        ensures ended { IsTrue result → HasEnded (refs_rest self.now) }
        ensures live { result ≡ false → IsLive (refs_rest self.now) }
    {
        match &self.state {
            Working::Ended { .. } => true,
            _ => false,
        }
    }

    /// What the task showed and how it ended.
    pub fn into_outcome(self) -> Outcome
        requires { HasEnded (refs_rest self) }
        ensures { refs_rest self.entry ≡ Ended result }
    {
        let state = self.state;
        match state {
            Working::Ended { outcome } => outcome,
            _ => unreachable!(),
        }
    }

    /// One operation of the store.
    pub fn step<S: Store>(&mut self, store: &mut S)
        requires live { IsLive (refs_rest self.old) }
        requires polite { IsTrue (S.view store.old).caller.tells
            → PlayIsPolite (refs_rest self.old) (S.view store.old).seen }
        ensures acts { Acts is_failed (S.view store.old) (S.view store.new) (refs_rest self.old)
            (refs_rest self.new) }
        ensures falls { refs_left self.new < refs_left self.old }
    {
        // The old state is taken out.
        let state = mem::replace(
            &mut self.state,
            Working::Ended {
                outcome: Outcome {
                    shown: Shows::from_vec(Vec::new(self.alloc)),
                    end: End::Done,
                },
            },
        );
        let next = step_on(self.alloc, self.body, state, store);
        let ended = mem::replace(&mut self.state, next);
        match ended {
            Working::Ended { outcome: _outcome } => {}
            _ => unreachable!(),
        }
    }
}
