//! Turns of workers.

ghost use Rattle.std.specs.Prelude.{◌≡◌, ◌<◌, ◌≤◌, ◌+◌, ◌-◌, ◌^◌, ◌++◌, ℕ, List, IsTrue, IfOk, IfErr, All, replicate, map, length};
ghost use Rattle.store_api.specs.Plays.{Ended};
ghost use Rattle.play_script.specs.Well.{IsWellTask, IsWellTurn};
ghost use Rattle.play_tasks.specs.Workers.{worker_rest};
ghost use Rattle.play_tasks.specs.Tasks.{HasEndedAt, AllTold, AllBlame};
ghost use Rattle.play_run.specs.Order.{RanTasks, places_of, turns_of};
ghost use Rattle.play_run.specs.inside.Taking.{TookTurn, left_at};
ghost use Rattle.play_run.specs.inside.Going.{CanGo, Went};

use crate::workers::{take_outcomes, workers_for};
use ice_ids::Draw;
use play_outcome::Outcome;
use play_script::{Task, Turn};
use play_tasks::{Worker, task_law};
use std::alloc::{AllocError, Global};
use store_api::Base;

/// One turn of the worker at this place, whose client number is one more; whether it had not ended.
fn take_turn<S: Base>(workers: &mut [Worker<'_>], t: usize, store: &mut S) -> bool
    requires within { t < length workers.old }
    requires small { length workers.old < 2 ^ 32 - 1 }
    requires stand { CanGo (S.view store.old) (map worker_rest workers.old) }
    ensures took { TookTurn t (S.view store.old) (S.view store.new) (map worker_rest workers.old)
        (map worker_rest workers.new) result }
    ensures falls { IsTrue result → left_at workers.new t < left_at workers.old t }
{
    if workers[t].has_ended() {
        return false;
    }
    store.set_client(t as u32 + 1);
    let worker = &mut workers[t];
    worker.step(store);
    true
}

/// So many turns of the worker at this place. A turn of a worker that has ended is passed over.
fn take_turns<S: Base>(workers: &mut [Worker<'_>], t: usize, count: u32, store: &mut S)
    requires within { t < length workers.old }
    requires small { length workers.old < 2 ^ 32 - 1 }
    requires stand { CanGo (S.view store.old) (map worker_rest workers.old) }
    ensures went { Went (replicate count t) (S.view store.old) (S.view store.new)
        (map worker_rest workers.old) (map worker_rest workers.new) }
{
    for _ in 0..count {
        take_turn(workers, t, store);
    }
}

/// Steps the workers by the list of turns.
fn run_turns<S: Base>(workers: &mut [Worker<'_>], turns: &[Turn], store: &mut S)
    requires within { All (IsWellTurn (length workers.old)) turns.now }
    requires small { length workers.old < 2 ^ 32 - 1 }
    requires stand { CanGo (S.view store.old) (map worker_rest workers.old) }
    ensures went { Went (places_of turns.now) (S.view store.old) (S.view store.new)
        (map worker_rest workers.old) (map worker_rest workers.new) }
{
    for turn in turns {
        take_turns(workers, turn.client as usize - 1, turn.count, store);
    }
}

/// Turns of the worker at this place until it has ended.
fn run_to_end<S: Base>(workers: &mut [Worker<'_>], t: usize, store: &mut S)
    requires within { t < length workers.old }
    requires small { length workers.old < 2 ^ 32 - 1 }
    requires stand { CanGo (S.view store.old) (map worker_rest workers.old) }
    ensures went { (n : ℕ) × Went (replicate n t) (S.view store.old) (S.view store.new)
        (map worker_rest workers.old) (map worker_rest workers.new) }
    ensures ended { HasEndedAt t (map worker_rest workers.new) }
{
    loop {
        if !take_turn(workers, t, store) {
            return;
        }
    }
}

/// Each worker in order, until it has ended.
fn run_to_ends<S: Base>(workers: &mut [Worker<'_>], store: &mut S)
    requires small { length workers.old < 2 ^ 32 - 1 }
    requires stand { CanGo (S.view store.old) (map worker_rest workers.old) }
    ensures went { (counts : List ℕ) × Went (turns_of 0 counts) (S.view store.old)
        (S.view store.new) (map worker_rest workers.old) (map worker_rest workers.new) }
    ensures ended { (k : ℕ) → k < length workers.new → HasEndedAt k (map worker_rest workers.new) }
{
    for t in 0..workers.len() {
        run_to_end(workers, t, store);
    }
}

/// Steps the workers by the list of turns, and then each one that is left to its end, in order.
fn run_workers<S: Base>(workers: &mut [Worker<'_>], turns: &[Turn], store: &mut S)
    requires within { All (IsWellTurn (length workers.old)) turns.now }
    requires small { length workers.old < 2 ^ 32 - 1 }
    requires stand { CanGo (S.view store.old) (map worker_rest workers.old) }
    ensures went { (counts : List ℕ) × Went (places_of turns.now ++ turns_of 0 counts)
        (S.view store.old) (S.view store.new) (map worker_rest workers.old)
        (map worker_rest workers.new) }
    ensures ended { (k : ℕ) → k < length workers.new → HasEndedAt k (map worker_rest workers.new) }
{
    run_turns(workers, turns, store);
    run_to_ends(workers, store);
}

/// Runs the tasks over a store on which nobody else acts: a worker for each, by the list of turns,
/// and then each that hasn't ended to its end, in their order. The client of the task at place k, from
/// 0, has the number k + 1. It answers the outcomes of the tasks, in their order; without memory for the
/// workers and for these outcomes nothing has been done.
pub fn run_tasks<S: Base>(
    alloc: Global,
    tasks: &[Task],
    draw: Draw,
    turns: &[Turn],
    store: &mut S,
) -> Result<Vec<Outcome>, AllocError>
    requires small { length tasks.now < 2 ^ 32 - 1 }
    requires tasks { All IsWellTask tasks.now }
    requires turns { All (IsWellTurn (length tasks.now)) turns.now }

    // Whatever the store tells: which operations were made, which answers follow them, and how the tasks ended, by the list
    // of turns and then task by task. Where it tells its journal, that goes on by these operations, each polite and owed.
    ensures ran { IfOk result (λ outcomes. RanTasks draw tasks.now (S.view store.old).caller.tells
        (places_of turns.now) outcomes.items (S.view store.old).seen (S.view store.new).seen) }

    // What each outcome says of the journal: what was opened and shown, and what became of the commit.
    ensures told { IsTrue (S.view store.old).caller.tells
        → IfOk result (λ outcomes. AllTold draw tasks.now outcomes.items (S.view store.old).seen
        (S.view store.new).seen) }
    ensures size { IfOk result (λ outcomes. length outcomes.items ≡ length tasks.now) }

    // An outcome tells a fault of the store only where it rose.
    ensures blames { IfOk result (λ outcomes. AllBlame outcomes.items (S.view store.old).faults
        (S.view store.new).faults) }
    ensures counted { (S.view store.old).faults ≤ (S.view store.new).faults }
    ensures tells { (S.view store.new).caller.tells ≡ (S.view store.old).caller.tells }
    ensures nothing { IfErr result (λ error. S.view store.new ≡ S.view store.old) }
{
    task_law();
    let mut outcomes = Vec::with_capacity(alloc, tasks.len())?;
    let mut workers = workers_for(alloc, tasks, draw)?;
    run_workers(&mut workers, turns, store);
    take_outcomes(workers, &mut outcomes);
    Ok(outcomes)
}
