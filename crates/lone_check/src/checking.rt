//! A check from its beginning to its end.

ghost use Rattle.lone_check.specs.Checking.{WasChecked};
ghost use Rattle.lone_check.specs.inside.Going.{HasCome};
ghost use Rattle.store_api.specs.Plays.{HasEnded};
ghost use Rattle.play_check.specs.Workers.{checking_rest};

use play_at_once::Gate;
use play_check::{CheckWorker, check_task_law};
use play_outcome::Outcome;
use std::alloc::Global;
use std::sync::Wait;
use store_api::Base;

/// Steps the worker until it has ended. The gate is called before each step.
fn run_to_end<R: Wait, S: Base, G: Gate>(rt: &R, worker: &mut CheckWorker, store: &mut S, gate: &G)
    requires { HasCome (S.view store.old) (S.view store.old) worker.old }
    ensures came { HasCome (S.view store.old) (S.view store.new) worker.new }
    ensures ended { HasEnded (checking_rest worker.new) }
{
    let mut steps: u64 = 0;
    while !worker.has_ended() {
        gate.hold(rt, 1, steps);
        worker.step(store);
        steps = steps.saturating_add(1);
    }
}

/// Checks a store on which nobody else acts, as client 1, and tells how that ended, as a task on the line 0. The gate is called
/// before each operation.
pub fn check_store<R: Wait, S: Base, G: Gate>(
    rt: &R,
    alloc: Global,
    store: &mut S,
    gate: &G,
) -> Outcome
    ensures { WasChecked (S.view store.old) (S.view store.new) result }
{
    check_task_law();
    store.set_client(1);
    let mut worker = CheckWorker::new(alloc, 0);
    run_to_end(rt, &mut worker, store, gate);
    worker.into_outcome()
}
