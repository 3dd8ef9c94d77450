//! The course of a run.

ghost use Rattle.std.specs.Prelude.{◌≡◌, ℕ, true, [], length, IfOk, IfErr, IsTrue};
ghost use Rattle.ice_ids.specs.Drawing.{DrawsOnce};
ghost use Rattle.zarr_tree.specs.Changes.{Changes};
ghost use Rattle.store_api.specs.Journal.{IsGoodJournal};
ghost use Rattle.play_script.specs.Collections.{has_collection};
ghost use Rattle.play_script.specs.Well.{IsWell};
ghost use Rattle.run_histories.specs.Runs.{IsSound};
ghost use Rattle.run_histories.specs.Sources.{IsNewRun};
ghost use Rattle.run_histories.specs.Told.{HasHistories};
ghost use Rattle.play_course.specs.Course.{Course, OnlyBegan};
ghost use Rattle.play_course.specs.Leaving.{KeepsRefs};
ghost use Rattle.play_course.specs.Refusing.{NothingStrange};

use crate::running::play_tasks;
use ice_ids::Draw;
use play_at_once::Gate;
use play_outcome::{Outcome, RefLines};
use play_script::Script;
use play_tasks::outcome_law;
use repo_objects::{initial_law, snapshot_law};
use repository::{begin, read_refs, refs_law};
use run_histories::run_law;
use std::alloc::{AllocError, Global};
use std::sync::Wait;
use std::thread::Threads;
use store_api::{Base, Refusal};

/// What was played: how the opening ended, the outcomes of the tasks, and how the closing reading ended.
#[derive(Drop)]
pub struct Played {
    /// How the opening ended.
    pub opening: Result<(), Refusal>,
    /// The outcomes of the tasks; none where the opening was refused.
    pub outcomes: Vec<Outcome>,
    /// The refs, or why they weren't read.
    pub refs: Result<RefLines, Refusal>,
}

/// The opening, the tasks and the closing reading.
fn play_through<R: Threads + Wait + Sync, S: Base + Send, G: Gate + Sync>(
    rt: &R,
    alloc: Global,
    script: &Script,
    draw: Draw,
    store: S,
    gate: &G,
) -> (S, Result<Played, AllocError>)
    requires well { IsWell script.now }
    requires good { S.tells ≡ true → IsGoodJournal (S.view store).seen }
    ensures began { IfErr result.1 (λ error. OnlyBegan (S.view store) (S.view result.0)) }
    ensures course { IfOk result.1 (λ played. Course draw script.now (S.view store)
        (S.view result.0) played.opening played.outcomes.items played.refs) }
{
    outcome_law();
    let mut store = store;
    store.set_client(0);
    let opening = begin(alloc, &mut store);
    let (mut store, outcomes) = play_tasks(rt, alloc, script, draw, &opening, store, gate);
    let outcomes = match outcomes {
        Ok(outcomes) => outcomes,
        Err(error) => return (store, Err(error)),
    };
    store.set_client(0);
    let refs = read_refs(alloc, &mut store);
    let played = Played {
        opening,
        outcomes,
        refs,
    };
    (store, Ok(played))
}

/// Plays a script over a store on which nobody else acts: makes the repository where there is none,
/// runs the tasks, unless that was refused, and reads the refs. A script that names turns is run by them,
/// and the tasks of one that names none are run at once. The opening and the closing reading
/// are client 0's; the task at place k, from 0, is client k + 1's. All tasks have ended.
///
/// The store comes back. The gate is called before each step of a task that runs at once.
pub fn play<R: Threads + Wait + Sync, S: Base + Send, G: Gate + Sync>(
    rt: &R,
    alloc: Global,
    script: &Script,
    draw: Draw,
    store: S,
    gate: &G,
) -> (S, Result<Played, AllocError>)
    requires well { IsWell script.now }
    requires good { S.tells ≡ true → IsGoodJournal (S.view store).seen }
    ensures course { IfOk result.1 (λ played. Course draw script.now (S.view store)
        (S.view result.0) played.opening played.outcomes.items played.refs) }

    // Without memory for the workers the repository may have been begun, and nothing else has been done; the histories are
    // kept then, too.
    ensures began { IfErr result.1 (λ error. OnlyBegan (S.view store) (S.view result.0)) }
    ensures kept { IsTrue (S.view store).caller.tells → (before : ℕ → Changes)
        → IsSound (S.view store).seen before → IsNewRun draw script.now.tasks (S.view store).seen
        → IfErr result.1 (λ error. HasHistories draw script.now.tasks before (S.view store).seen
        (S.view result.0).seen (S.view result.0).seen) }
    // Over a store that tells its journal, where that is sound and the clients' ids are new to it, the branches' histories
    // are kept, and the refs that were read are their ends.
    ensures leaves { IsTrue (S.view store).caller.tells → (before : ℕ → Changes)
        → IsSound (S.view store).seen before → IsNewRun draw script.now.tasks (S.view store).seen
        → IfOk result.1 (λ played. KeepsRefs draw script.now.tasks before (S.view store).seen
        (S.view result.0).seen played.refs) }
    // Over one on which nothing was done before, where the clients draw no id twice, as it always is by counting, no drawn id is
    // taken, and every file can be read; and where no task collects, no object is missing.
    ensures regular { IsTrue (S.view store).caller.tells → (S.view store).seen ≡ []
        → DrawsOnce draw (length script.now.tasks)
        → IfOk result.1 (λ played. NothingStrange (has_collection script.now.tasks) played.opening
        played.outcomes.items played.refs) }
{
    initial_law();
    snapshot_law();
    run_law();
    refs_law();
    play_through(rt, alloc, script, draw, store, gate)
}
