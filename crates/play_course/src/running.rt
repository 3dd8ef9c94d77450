//! The tasks of a script, by its turns or at once.

ghost use Rattle.std.specs.Prelude.{◌≡◌, true, Some, IfOk, IfErr, IsTrue};
ghost use Rattle.store_api.specs.Journal.{IsGoodJournal};
ghost use Rattle.play_script.specs.Well.{IsWell};
ghost use Rattle.play_tasks.specs.Tasks.{AllTold};
ghost use Rattle.play_course.specs.Course.{PlaysTasks, Plays};

use ice_ids::Draw;
use play_at_once::{Gate, run_at_once};
use play_outcome::Outcome;
use play_run::run_tasks;
use play_script::{Script, Turn};
use std::alloc::{AllocError, Global};
use std::sync::Wait;
use std::thread::Threads;
use store_api::{Base, Refusal};

/// Runs the tasks of a script by its turns, and then each to its end.
fn run_by_turns<S: Base>(
    alloc: Global,
    script: &Script,
    turns: &[Turn],
    draw: Draw,
    store: S,
) -> (S, Result<Vec<Outcome>, AllocError>)
    requires well { IsWell script.now }
    requires turns { script.now.turns ≡ Some turns.now }
    ensures nothing { IfErr result.1 (λ error. S.view result.0 ≡ S.view store) }
    ensures plays { IfOk result.1 (λ outcomes. PlaysTasks draw script.now (S.view store)
        (S.view result.0) outcomes.items) }
    ensures told { IsTrue (S.view store).caller.tells
        → IfOk result.1 (λ outcomes. AllTold draw script.now.tasks outcomes.items
        (S.view store).seen (S.view result.0).seen) }
{
    let mut store = store;
    let outcomes = run_tasks(alloc, script.tasks.as_slice(), draw, turns, &mut store);
    (store, outcomes)
}

/// Runs the tasks of a script: by its turns where it names some, and else at once.
fn run_script<R: Threads + Wait + Sync, S: Base + Send, G: Gate + Sync>(
    rt: &R,
    alloc: Global,
    script: &Script,
    draw: Draw,
    store: S,
    gate: &G,
) -> (S, Result<Vec<Outcome>, AllocError>)
    requires well { IsWell script.now }
    requires good { S.tells ≡ true → IsGoodJournal (S.view store).seen }
    ensures nothing { IfErr result.1 (λ error. S.view result.0 ≡ S.view store) }
    ensures plays { IfOk result.1 (λ outcomes. PlaysTasks draw script.now (S.view store)
        (S.view result.0) outcomes.items) }
    ensures told { IsTrue (S.view store).caller.tells
        → IfOk result.1 (λ outcomes. AllTold draw script.now.tasks outcomes.items
        (S.view store).seen (S.view result.0).seen) }
{
    match &script.turns {
        Some(turns) => run_by_turns(alloc, script, turns.as_slice(), draw, store),
        None => run_at_once(rt, alloc, script.tasks.as_slice(), draw, store, gate),
    }
}

/// Plays the tasks where the opening went well.
pub(crate) fn play_tasks<R: Threads + Wait + Sync, S: Base + Send, G: Gate + Sync>(
    rt: &R,
    alloc: Global,
    script: &Script,
    draw: Draw,
    opening: &Result<(), Refusal>,
    store: S,
    gate: &G,
) -> (S, Result<Vec<Outcome>, AllocError>)
    requires well { IsWell script.now }
    requires good { S.tells ≡ true → IsGoodJournal (S.view store).seen }
    ensures nothing { IfErr result.1 (λ error. S.view result.0 ≡ S.view store) }
    ensures plays { IfOk result.1 (λ outcomes. Plays draw script.now (S.view store)
        (S.view result.0) opening.now outcomes.items) }
    ensures told { IsTrue (S.view store).caller.tells
        → IfOk result.1 (λ outcomes. AllTold draw script.now.tasks outcomes.items
        (S.view store).seen (S.view result.0).seen) }
{
    match opening {
        Ok(()) => run_script(rt, alloc, script, draw, store, gate),
        Err(_) => (store, Ok(Vec::new(alloc))),
    }
}
