//! The doubt of a commit: it is settled once, by the branch, and that ends the task.

ghost use Rattle.std.specs.Prelude.{ℕ, ◌≡◌, ◌<◌, ◌≤◌, true, length};
ghost use Rattle.store_api.specs.Program.{is_ask};
ghost use Rattle.store_api.specs.Plays.{call, Acts, Comes};
ghost use Rattle.commit_path.specs.Committing.{session_in};
ghost use Rattle.settle.specs.inside.Working.{settle_rest, settle_left};
ghost use Rattle.play_outcome.specs.Ending.{ends_failed};
ghost use Rattle.play_outcome.specs.Settling.{settled, answers_well};
ghost use Rattle.play_tasks.specs.declared.working.SessionTask.{SessionTask as TheTask};
ghost use Rattle.play_tasks.specs.Playing.{how_of, after_settling, doubt_play};
ghost use Rattle.play_tasks.specs.inside.Working.{is_working, working_rest, working_left, settle_steps};

use crate::working::{SessionTask, Working};
use commit_path::Commit;
use ice_ids::Id12;
use play_outcome::{End, How, Outcome, Shows};
use settle::{Doubt, Settle, Settled};
use std::alloc::Global;
use store_api::{Next, Refusal, Store};

/// Begins the settling of a commit in doubt, which takes no memory.
pub(crate) fn begin_settling(alloc: Global, shown: Shows, commit: Commit, snapshot: Id12) -> Working
    ensures rest { (task : TheTask) → working_rest task result ≡ doubt_play shown
        (session_in commit) snapshot }
    ensures works { is_working result ≡ true }
    ensures few { (lines : ℕ) → working_left lines result ≤ settle_steps }
{
    let base = commit.base();
    let branch = commit.into_branch();
    Working::Settling {
        shown,
        id: snapshot,
        settle: Settle::new(alloc, branch, Doubt { snapshot, base }),
    }
}

/// What the branch told of a commit in doubt, or why it couldn't be read.
fn how_settled(answer: Result<Settled, Refusal>) -> How
    ensures { result ≡ how_of answer }
{
    match answer {
        Ok(Settled::Committed) => How::Committed,
        Ok(Settled::NotCommitted) => How::NotCommitted,
        Ok(Settled::NotAncestor { head: _ }) => How::NotAncestor,
        Err(why) => how_unsettled(why),
    }
}

/// Why the branch couldn't be read, where that isn't since it is gone.
fn how_unsettled(why: Refusal) -> How
    ensures { result ≡ how_of (Err why) }
{
    match why {
        Refusal::NoRef => How::NoRef,
        why => How::Unsettled(why),
    }
}

/// The task has ended, with its commit in doubt.
fn in_doubt(shown: Shows, id: Id12, answer: Result<Settled, Refusal>) -> Working
    ensures { result
        ≡ Working.Ended (record { shown = shown; end = End.InDoubt id (how_of answer) }) }
{
    Working::Ended {
        outcome: Outcome {
            shown,
            end: End::InDoubt {
                id,
                how: how_settled(answer),
            },
        },
    }
}

/// Where a worker stands after a step of the machine that settles its commit.
fn after_step(
    shown: Shows,
    id: Id12,
    settle: Settle,
    answer: Result<Next<Settled>, Refusal>,
) -> Working
    requires { answers_well (is_ask (settle_rest settle)) answer ≡ true }
    ensures comes { (task : TheTask)
        → Comes (settled (after_settling shown id) (settle_rest settle) answer)
        (working_rest task result) }
    ensures works { is_working result ≡ true }
    ensures falls { (lines : ℕ) → working_left lines result ≤ settle_left settle }
{
    match answer {
        Ok(Next::Again) => Working::Settling { shown, id, settle },
        Ok(Next::Ready(told)) => {
            drop(settle);
            in_doubt(shown, id, Ok(told))
        }
        Err(why) => {
            drop(settle);
            in_doubt(shown, id, Err(why))
        }
    }
}

/// One step of the machine that settles the commit.
pub(crate) fn step_settling<S: Store>(
    task: &SessionTask<'_>,
    shown: Shows,
    id: Id12,
    mut settle: Settle,
    store: &mut S,
) -> Working
    requires { is_ask (settle_rest settle) ≡ true }
    ensures acts { Acts ends_failed (S.view store.old) (S.view store.new)
        (call (settle_rest settle) (after_settling shown id)) (working_rest task.now result) }
    ensures works { is_working result ≡ true }
    ensures falls { working_left (length task.now.body.now) result < settle_left settle }
{
    let answer = settle.step(store);
    after_step(shown, id, settle, answer)
}
