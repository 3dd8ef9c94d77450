//! Tasks at once.

ghost use Rattle.std.specs.Prelude.{◌≡◌, ◌<◌, ◌≤◌, ◌-◌, ◌^◌, true, IsTrue, IfOk, IfErr, All, length};
ghost use Rattle.store_api.specs.Journal.{IsGoodJournal};
ghost use Rattle.play_script.specs.Well.{IsWellTask};
ghost use Rattle.play_tasks.specs.Tasks.{AllTold, AllBlame};
ghost use Rattle.play_at_once.specs.Running.{RanAtOnce};

use crate::crew::run_crew;
use crate::gate::Gate;
use ice_ids::Draw;
use play_outcome::Outcome;
use play_run::workers_for;
use play_script::Task;
use play_tasks::task_law;
use shared_store::share;
use std::alloc::{AllocError, Global};
use std::sync::Wait;
use std::thread::Threads;
use store_api::Base;

/// Runs the tasks at once over one store on which nobody else acts: a worker for each, in a thread of its own where one
/// can be started. The client of the task at place k, from 0, has the number k + 1. It answers the store, and the
/// outcomes of the tasks, in their order; without memory for the workers, these outcomes or the sharing nothing has been
/// done, and the very store comes back.
///
/// The gate is called before each step of a worker.
pub fn run_at_once<S: Base + Send, R: Threads + Wait + Sync, G: Gate + Sync>(
    rt: &R,
    alloc: Global,
    tasks: &[Task],
    draw: Draw,
    store: S,
    gate: &G,
) -> (S, Result<Vec<Outcome>, AllocError>)
    requires small { length tasks.now < 2 ^ 32 - 1 }
    requires tasks { All IsWellTask tasks.now }
    requires good { S.tells ≡ true → IsGoodJournal (S.view store).seen }

    // Whatever the store tells: which operations were made, which answers follow them, and how the tasks ended, in whatever
    // order. Where it tells its journal, that goes on by these operations, each polite and owed.
    ensures ran { IfOk result.1 (λ outcomes. RanAtOnce draw tasks.now (S.view store).caller.tells
        outcomes.items (S.view store).seen (S.view result.0).seen) }

    // What each outcome says of the journal: what was opened and shown, and what became of the commit.
    ensures told { IsTrue (S.view store).caller.tells
        → IfOk result.1 (λ outcomes. AllTold draw tasks.now outcomes.items (S.view store).seen
        (S.view result.0).seen) }
    ensures size { IfOk result.1 (λ outcomes. length outcomes.items ≡ length tasks.now) }

    // An outcome tells a fault of the store only where it rose.
    ensures blames { IfOk result.1 (λ outcomes. AllBlame outcomes.items (S.view store).faults
        (S.view result.0).faults) }
    ensures counted { (S.view store).faults ≤ (S.view result.0).faults }
    ensures tells { (S.view result.0).caller.tells ≡ (S.view store).caller.tells }
    ensures nothing { IfErr result.1 (λ error. result.0 ≡ store) }
{
    task_law();
    let outcomes = match Vec::with_capacity(alloc, tasks.len()) {
        Ok(outcomes) => outcomes,
        Err(error) => return (store, Err(error)),
    };
    let workers = match workers_for(alloc, tasks, draw) {
        Ok(workers) => workers,
        Err(error) => return (store, Err(error)),
    };
    let (shared, pass) = match share(alloc, store) {
        Ok(made) => made,
        Err((store, error)) => return (store, Err(error)),
    };
    let (pass, outcomes) = run_crew(rt, gate, &shared, pass, workers, outcomes);
    (shared.unshare(rt, pass), Ok(outcomes))
}
