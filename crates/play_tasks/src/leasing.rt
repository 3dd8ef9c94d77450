//! The line that keeps the base of a task's session.

ghost use Rattle.std.specs.Prelude.{◌≡◌, ◌<◌, ◌≤◌, ◌+◌, ◌-◌, ◌*◌, ◌++◌, true, length, vec_len, vec_capacity, IfOk, IsTrue};
ghost use Rattle.store_api.specs.Plays.{Acts, Comes, PlayIsPolite, dooms};
ghost use Rattle.leases.specs.Plays.{tells_fault};
ghost use Rattle.leases.specs.Starting.{Starts};
ghost use Rattle.leases.specs.Resting.{lease_rest, lease_left};
ghost use Rattle.leases.specs.Following.{followed};
ghost use Rattle.play_outcome.specs.Ending.{ends_failed};
ghost use Rattle.play_tasks.specs.Lines.{Leases, lease_shown};
ghost use Rattle.play_tasks.specs.Playing.{placed_shown, after_lease};
ghost use Rattle.play_tasks.specs.inside.Working.{is_live, is_clean, is_working, lines_from, working_rest, working_left, most_steps, CallComes, IsBounded};

use crate::lines::{play_lines, refuse};
use crate::working::{SessionTask, Step, Working};
use ice_ids::Id12;
use leases::{Lease, Leased};
use play_outcome::Shown;
use session::Session;
use std::alloc::Global;
use store_api::{Refusal, Store};

/// Takes the room for the lease's line in the report, and begins the lease. A refusal leaves the session as it was.
fn begin_lease(
    alloc: Global,
    session: &mut Session,
    shown: &mut Vec<Shown>,
) -> Result<Lease, Refusal>
    ensures starts { Starts session.old result session.new }
    ensures room { IfOk result (λ lease. vec_len shown.new < vec_capacity shown.new) }
    ensures same { shown.new.items ≡ shown.old.items }
{
    if shown.reserve(1).is_err() {
        return Err(Refusal::NoMemory);
    }
    Lease::start(alloc, session)
}

/// Plays a line that keeps the session's base.
pub(crate) fn play_lease(
    alloc: Global,
    line: u32,
    at: usize,
    mut session: Session,
    mut shown: Vec<Shown>,
) -> Step
    ensures comes { CallComes line at shown.items session (Leases (lease_shown line)) result }
    ensures clean { is_clean result ≡ true }
    ensures bounded { IsBounded at result }
{
    match begin_lease(alloc, &mut session, &mut shown) {
        Ok(lease) => Step::Stop(Working::Leasing {
            line,
            at,
            shown,
            session,
            lease,
        }),
        Err(why) => {
            drop(session);
            Step::Stop(refuse(line, shown, why))
        }
    }
}

/// Shows a lease that may stand, for which there is room.
fn show_lease(line: u32, placed: Option<Id12>, mut shown: Vec<Shown>) -> Vec<Shown>
    requires { vec_len shown < vec_capacity shown }
    ensures { result.items ≡ shown.items ++ placed_shown (lease_shown line) placed }
{
    let Some(id) = placed else {
        return shown;
    };
    match shown.push(Shown::Lease {
        line,
        id,
        left: None,
    }) {
        Ok(()) => shown,
        Err(_) => unreachable!(),
    }
}

/// Where a worker stands after a step of the player that puts a lease.
fn after_leasing(
    alloc: Global,
    task: &SessionTask<'_>,
    line: u32,
    at: usize,
    shown: Vec<Shown>,
    session: Session,
    lease: Lease,
) -> Working
    requires { vec_len shown < vec_capacity shown }
    ensures comes { Comes
        (followed (lease_rest lease)
        (after_lease (lease_shown line) line shown.items session (lines_from task.now at)))
        (working_rest task.now result) }
    ensures works { is_working result ≡ true }
    ensures falls { working_left (length task.now.body.now) result ≤ (length task.now.body.now - at)
        * most_steps + lease_left lease }
    ensures blames { dooms ends_failed (working_rest task.now result) ≡ true
        → dooms tells_fault (lease_rest lease) ≡ true }
{
    if !lease.has_ended() {
        return Working::Leasing {
            line,
            at,
            shown,
            session,
            lease,
        };
    }
    let Leased {
        placed,
        result: told,
    } = lease.into_leased();
    let shown = show_lease(line, placed, shown);
    match told {
        Ok(()) => play_lines(alloc, task, at, session, shown),
        Err(why) => {
            drop(session);
            refuse(line, shown, why)
        }
    }
}

/// One step of the player that puts a lease.
pub(crate) fn step_leasing<S: Store>(
    alloc: Global,
    task: &SessionTask<'_>,
    line: u32,
    at: usize,
    shown: Vec<Shown>,
    session: Session,
    mut lease: Lease,
    store: &mut S,
) -> Working
    requires live { is_live (lease_rest lease) ≡ true }
    requires room { vec_len shown < vec_capacity shown }
    requires polite { IsTrue (S.view store.old).caller.tells
        → PlayIsPolite (lease_rest lease) (S.view store.old).seen }
    ensures acts { Acts ends_failed (S.view store.old) (S.view store.new)
        (followed (lease_rest lease)
        (after_lease (lease_shown line) line shown.items session (lines_from task.now at)))
        (working_rest task.now result) }
    ensures works { is_working result ≡ true }
    ensures falls { working_left (length task.now.body.now) result < (length task.now.body.now - at)
        * most_steps + lease_left lease }
{
    lease.step(store);
    after_leasing(alloc, task, line, at, shown, session, lease)
}
