//! Workers of tasks that open sessions.

ghost use Rattle.std.specs.Prelude.{ℕ, ◌≡◌, ◌<◌, ◌≤◌, ◌+◌, true, length, IfOk, IsTrue};
ghost use Rattle.store_api.specs.Plays.{Acts, IsLive, PlayIsPolite};
ghost use Rattle.session.specs.Opening.{open_program, open_rest};
ghost use Rattle.leases.specs.Following.{followed};
ghost use Rattle.play_outcome.specs.Ending.{is_failed};
ghost use Rattle.play_tasks.specs.declared.working.SessionTask.{SessionTask as TheTask};
ghost use Rattle.play_tasks.specs.Playing.{asked_by, release_all};
ghost use Rattle.play_tasks.specs.inside.Working.{is_working, working_rest, working_left};
ghost use Rattle.play_tasks.specs.inside.Phases.{is_phase, phase_rest, phase_left, most_releases};

use crate::releasing::{begin_releases, have_ended, outcome_of, step_releasing};
use crate::steps::step_on;
use crate::working::{Phase, Releases, SessionTask, Working};
use ice_ids::AnyIds;
use play_outcome::{End, Outcome, Shows};
use script_calls::Access;
use session::Open;
use std::alloc::{AllocError, Global};
use std::mem;
use store_api::Store;

/// The opening of a session for this.
fn begin(alloc: Global, access: &Access, ids: AnyIds) -> Result<Open, AllocError>
    ensures { IfOk result (λ opener. open_rest opener ≡ open_program (asked_by access.now ids)) }
{
    match access {
        Access::Write { branch, .. } => Open::write(alloc, branch.copy(alloc)?, ids),
        Access::Read { at } => Open::read(alloc, at.copy(alloc)?, ids),
    }
}

/// What a worker does whose session stands here: where that has ended, its leases are released.
fn phase_of(state: Working) -> Phase
    requires { is_working state ≡ true }
    ensures rest { (task : TheTask) → phase_rest task result ≡ followed (working_rest task state)
        release_all }
    ensures works { is_phase result ≡ true }
    ensures few { (lines : ℕ) → phase_left lines result ≤ most_releases + working_left lines state }
{
    match state {
        Working::Ended { outcome } => Phase::Releasing(begin_releases(outcome)),
        state => Phase::Playing(state),
    }
}

/// One step of a worker that does this.
fn step_phase<S: Store>(alloc: Global, task: &SessionTask<'_>, phase: Phase, store: &mut S) -> Phase
    requires live { IsLive (phase_rest task.now phase) }
    requires works { is_phase phase ≡ true }
    requires polite { IsTrue (S.view store.old).caller.tells
        → PlayIsPolite (phase_rest task.now phase) (S.view store.old).seen }
    ensures acts { Acts is_failed (S.view store.old) (S.view store.new)
        (phase_rest task.now phase) (phase_rest task.now result) }
    ensures works { is_phase result ≡ true }
    ensures falls { phase_left (length task.now.body.now) result < phase_left
        (length task.now.body.now) phase }
{
    match phase {
        Phase::Playing(state) => phase_of(step_on(alloc, task, state, store)),
        Phase::Releasing(releases) => Phase::Releasing(step_releasing(releases, store)),
    }
}

/// One task that opens a session: it plays the task's lines on it, and commits; and then it releases the session's leases.
#[derive(Drop)]
pub struct SessionWorker<'a> {
    alloc: Global,
    task: SessionTask<'a>,
    phase: Phase,
    ghost works: { is_phase phase ≡ true },
}

impl<'a> SessionWorker<'a> {
    ghost use Rattle.std.specs.Prelude.{◌≡◌, ◌<◌, false, IsTrue, IfOk};
    ghost use Rattle.store_api.specs.Plays.{Ended, IsLive, HasEnded, Acts, PlayIsPolite};
    ghost use Rattle.play_outcome.specs.Ending.{is_failed};
    ghost use Rattle.play_tasks.specs.Playing.{released_play};
    ghost use Rattle.play_tasks.specs.inside.Sessions.{session_rest, session_left};

    /// A worker for a task whose session draws these ids.
    pub fn new(
        alloc: Global,
        task: SessionTask<'a>,
        ids: AnyIds,
    ) -> Result<SessionWorker<'a>, AllocError>
        ensures { IfOk result (λ worker. session_rest worker ≡ released_play ids
            task.entry.access.now task.entry.line task.entry.body.now) }
    {
        let opener = begin(alloc, task.access, ids)?;
        Ok(SessionWorker {
            alloc,
            task,
            phase: Phase::Playing(Working::Opening { opener }),
        })
    }

    /// Whether the worker has ended.
    pub fn has_ended(&self) -> bool
        ensures ended { IsTrue result → HasEnded (session_rest self.now) }
        ensures live { result ≡ false → IsLive (session_rest self.now) }
    {
        match &self.phase {
            Phase::Playing(_) => false,
            Phase::Releasing(releases) => have_ended(releases),
        }
    }

    /// What the task showed and how it ended.
    pub fn into_outcome(self) -> Outcome
        requires { HasEnded (session_rest self) }
        ensures { session_rest self.entry ≡ Ended result }
    {
        let phase = self.phase;
        match phase {
            Phase::Playing(_) => unreachable!(),
            Phase::Releasing(releases) => outcome_of(releases),
        }
    }

    /// One operation of the store.
    pub fn step<S: Store>(&mut self, store: &mut S)
        requires live { IsLive (session_rest self.old) }
        requires polite { IsTrue (S.view store.old).caller.tells
            → PlayIsPolite (session_rest self.old) (S.view store.old).seen }
        ensures acts { Acts is_failed (S.view store.old) (S.view store.new) (session_rest self.old)
            (session_rest self.new) }
        ensures falls { session_left self.new < session_left self.old }
    {
        // The old phase is taken out.
        let phase = mem::replace(
            &mut self.phase,
            Phase::Releasing(Releases::Ended {
                outcome: Outcome {
                    shown: Shows::from_vec(Vec::new(self.alloc)),
                    end: End::Done,
                },
            }),
        );
        let next = step_phase(self.alloc, &self.task, phase, store);
        let ended = mem::replace(&mut self.phase, next);
        match ended {
            Phase::Playing(_) => unreachable!(),
            Phase::Releasing(releases) => drop(outcome_of(releases)),
        }
    }
}
