//! The commit of a task: it is tried again behind a rebase where it was lost, as often as the task's head says.

ghost use Rattle.std.specs.Prelude.{ℕ, ◌≡◌, ◌<◌, ◌≤◌, ◌+◌, ◌*◌, true, length, IsTrue};
ghost use Rattle.store_api.specs.Program.{is_ask, is_fault, NextIsPolite};
ghost use Rattle.store_api.specs.Plays.{Or, call, Acts, Comes, dooms};
ghost use Rattle.store_api.specs.declared.machines.Refusal.TheVariants.{NoMemory};
ghost use Rattle.commit_path.specs.Committing.{session_in, message_in, commit_rest, commit_left, IsLeft};
ghost use Rattle.rebase.specs.Rebasing.{rebase_rest, rebase_left};
ghost use Rattle.play_outcome.specs.Ending.{ends_failed};
ghost use Rattle.play_tasks.specs.declared.working.SessionTask.{SessionTask as TheTask};
ghost use Rattle.play_outcome.specs.Playing.{refused};
ghost use Rattle.play_tasks.specs.Playing.{doubt_play, after_commit, after_rebase, commit_play, tries_of, policy_of};
ghost use Rattle.play_outcome.specs.Settling.{settled, answers_well, Faults};
ghost use Rattle.play_tasks.specs.inside.Working.{after_lost, rebased_session, RefusedSo, is_well, is_working, working_rest, working_left, settle_steps, commit_steps, try_steps};

use crate::doubts::begin_settling;
use crate::working::{SessionTask, Tries, Working};
use commit_path::{Commit, Tried};
use conflicts::{Pick, Policy};
use ice_base::Text;
use play_outcome::{End, Outcome, Shows};
use rebase::{Rebase, Rebased};
use script_calls::Access;
use session::Session;
use std::alloc::Global;
use store_api::{Next, Refusal, Store, Version};

/// How often the commit of a session that was opened so is tried again. One that reads never commits.
pub(crate) fn tries_for(access: &Access) -> Tries
    ensures left { result.left ≡ tries_of access.now }
    ensures policy { result.policy ≡ policy_of access.now }
{
    match access {
        Access::Write { tries, policy, .. } => Tries {
            left: *tries,
            policy: *policy,
        },
        Access::Read { .. } => Tries {
            left: 0,
            policy: Policy {
                chunks: Pick::Fail,
                drop_arrays: false,
                drop_groups: false,
            },
        },
    }
}

/// The task was refused at this line of the script.
fn stop(line: u32, shown: Shows, why: Refusal) -> Working
    ensures { result ≡ Working.Ended (record { shown = shown; end = End.Refused line why }) }
{
    Working::Ended {
        outcome: Outcome {
            shown,
            end: End::Refused { line, why },
        },
    }
}

/// Begins the commit of a session, by this line of the script.
pub(crate) fn begin_commit(
    alloc: Global,
    line: u32,
    tries: Tries,
    shown: Shows,
    message: Text,
    session: Session,
) -> Working
    ensures comes { (task : TheTask)
        → Comes (Or (commit_play tries.left tries.policy line shown message session)
        (refused line shown NoMemory)) (working_rest task result) }
    ensures clean { is_well result ≡ true }
    ensures bounded { (lines : ℕ) → working_left lines result ≤ tries.left * try_steps
        + commit_steps }
{
    match Commit::start(alloc, session, message) {
        Ok(commit) => Working::Committing {
            line,
            tries,
            shown,
            commit,
        },
        Err((session, why)) => {
            drop(session);
            stop(line, shown, why)
        }
    }
}

/// Where a worker stands whose commit was lost: its session is rebased, if the commit may be tried again.
fn after_loss(
    alloc: Global,
    line: u32,
    tries: Tries,
    shown: Shows,
    commit: Commit,
    old: Version,
    found: Option<Version>,
) -> Working
    ensures comes { (task : TheTask)
        → Comes (after_lost tries.left tries.policy line shown (message_in commit)
        (session_in commit) old found (session_in commit).ids) (working_rest task result) }
    ensures clean { is_well result ≡ true }
    ensures falls { (lines : ℕ) → working_left lines result ≤ tries.left * try_steps }
{
    if tries.left == 0 {
        drop(commit);
        return stop(line, shown, Refusal::LostRace { old, found });
    }
    let (session, message) = commit.into_parts();
    let policy = tries.policy;
    match Rebase::start(alloc, session, policy) {
        Ok(rebase) => Working::Rebasing {
            line,
            tries: Tries {
                left: tries.left - 1,
                policy,
            },
            shown,
            message,
            rebase,
        },
        Err((session, why)) => {
            drop(session);
            drop(message);
            stop(line, shown, why)
        }
    }
}

/// Where a worker stands whose commit was refused, or is in doubt: a doubt is settled.
fn after_refusal(alloc: Global, line: u32, shown: Shows, commit: Commit, why: Refusal) -> Working
    ensures goes { (task : TheTask) → RefusedSo line shown (session_in commit) why
        (working_rest task result) }
    ensures works { is_working result ≡ true }
    ensures few { (lines : ℕ) → working_left lines result ≤ settle_steps }
    ensures blames { (task : TheTask) → dooms ends_failed (working_rest task result) ≡ true
        → is_fault why ≡ true }
{
    match why {
        Refusal::InDoubt { snapshot } => begin_settling(alloc, shown, commit, snapshot),
        why => {
            drop(commit);
            stop(line, shown, why)
        }
    }
}

/// Where a worker stands after a step of the machine that commits its session.
fn after_committing(
    alloc: Global,
    line: u32,
    tries: Tries,
    shown: Shows,
    commit: Commit,
    answer: Result<Next<Tried>, Refusal>,
) -> Working
    requires live { answers_well (is_ask (commit_rest commit)) answer ≡ true }
    requires left { IsLeft answer (session_in commit) }
    ensures goes { (task : TheTask)
        → Comes (settled (after_commit line shown (doubt_play shown (session_in commit))
        (after_lost tries.left tries.policy line shown (message_in commit) (session_in commit)))
        (commit_rest commit) answer) (working_rest task result) }
    ensures works { is_working result ≡ true }
    ensures falls { (lines : ℕ) → working_left lines result ≤ tries.left * try_steps + commit_left
        commit + settle_steps }
    ensures blames { (task : TheTask) → Faults answer (working_rest task result) }
{
    match answer {
        Ok(Next::Again) => Working::Committing {
            line,
            tries,
            shown,
            commit,
        },
        Ok(Next::Ready(Tried::Done(committed))) => {
            drop(commit);
            Working::Ended {
                outcome: Outcome {
                    shown,
                    end: End::Committed(committed.id),
                },
            }
        }
        Ok(Next::Ready(Tried::Lost { old, found, .. })) => {
            after_loss(alloc, line, tries, shown, commit, old, found)
        }
        Err(why) => after_refusal(alloc, line, shown, commit, why),
    }
}

/// The session that a rebase answered.
fn rebased_session(rebased: Rebased) -> Session
    ensures { result ≡ rebased_session rebased }
{
    match rebased {
        Rebased::OnHead(session, _) => session,
        Rebased::UpToDate(session) => session,
    }
}

/// Where a worker stands after a step of the machine that rebases its session.
fn after_rebasing(
    alloc: Global,
    line: u32,
    tries: Tries,
    shown: Shows,
    message: Text,
    rebase: Rebase,
    answer: Result<Next<Rebased>, Refusal>,
) -> Working
    requires { answers_well (is_ask (rebase_rest rebase)) answer ≡ true }
    ensures goes { (task : TheTask)
        → Comes (settled
        (after_rebase line shown (commit_play tries.left tries.policy line shown message))
        (rebase_rest rebase) answer) (working_rest task result) }
    ensures works { is_working result ≡ true }
    ensures falls { (lines : ℕ) → working_left lines result ≤ tries.left * try_steps + commit_steps
        + rebase_left rebase }
    ensures blames { (task : TheTask) → Faults answer (working_rest task result) }
{
    match answer {
        Ok(Next::Again) => Working::Rebasing {
            line,
            tries,
            shown,
            message,
            rebase,
        },
        Ok(Next::Ready(rebased)) => {
            drop(rebase);
            let session = rebased_session(rebased);
            begin_commit(alloc, line, tries, shown, message, session)
        }
        Err(why) => {
            drop(rebase);
            drop(message);
            stop(line, shown, why)
        }
    }
}

/// One step of the machine that commits the session.
pub(crate) fn step_committing<S: Store>(
    alloc: Global,
    task: &SessionTask<'_>,
    line: u32,
    tries: Tries,
    shown: Shows,
    mut commit: Commit,
    store: &mut S,
) -> Working
    requires live { is_ask (commit_rest commit) ≡ true }
    requires polite { IsTrue (S.view store.old).caller.tells
        → NextIsPolite (commit_rest commit) (S.view store.old).seen }
    ensures acts { Acts ends_failed (S.view store.old) (S.view store.new)
        (call (commit_rest commit) (after_commit line shown (doubt_play shown (session_in commit))
        (after_lost tries.left tries.policy line shown (message_in commit) (session_in commit))))
        (working_rest task.now result) }
    ensures works { is_working result ≡ true }
    ensures falls { working_left (length task.now.body.now) result < tries.left * try_steps
        + commit_left commit + settle_steps }
{
    let answer = commit.step(store);
    after_committing(alloc, line, tries, shown, commit, answer)
}

/// One step of the machine that rebases the session.
pub(crate) fn step_rebasing<S: Store>(
    alloc: Global,
    task: &SessionTask<'_>,
    line: u32,
    tries: Tries,
    shown: Shows,
    message: Text,
    mut rebase: Rebase,
    store: &mut S,
) -> Working
    requires { is_ask (rebase_rest rebase) ≡ true }
    ensures acts { Acts ends_failed (S.view store.old) (S.view store.new)
        (call (rebase_rest rebase)
        (after_rebase line shown (commit_play tries.left tries.policy line shown message)))
        (working_rest task.now result) }
    ensures works { is_working result ≡ true }
    ensures falls { working_left (length task.now.body.now) result < tries.left * try_steps
        + commit_steps + rebase_left rebase }
{
    let answer = rebase.step(store);
    after_rebasing(alloc, line, tries, shown, message, rebase, answer)
}
