//! Laws of tasks, as the contracts of functions that do nothing.

ghost use Rattle.play_tasks.specs.Laws.{OutcomeLaw, TaskLaw};

use commit_path::{commit_law, opening_law, owning_law, session_law, single_law};
use leases::lease_law;
use play_check::{check_outcome_law, check_task_law};
use play_collect::{collect_outcome_law, collect_task_law};
use play_expire::{expire_outcome_law, expire_task_law};
use play_refs::{refs_outcome_law, refs_task_law};
use rebase::rebase_law;
use region_calls::{
    get_law, owning_calls_law, owning_region_law, region_law, region_set_law, set_law,
};
use settle::settle_law;

/// Whatever others do, each operation of a task is polite, and what the task owes; if it opens a session, each that puts
/// something comes before the task's client changed a branch; and its outcome tells the journal: which session was opened,
/// what each of its lines set and showed, over which commits of others it was carried, what became of its commit, and of its leases; or
/// what came of each of its calls on refs.
pub fn task_law()
    ensures { TaskLaw }
{
    opening_law();
    session_law();
    commit_law();
    single_law();
    owning_law();
    rebase_law();
    settle_law();
    set_law();
    get_law();
    owning_calls_law();
    region_law();
    region_set_law();
    owning_region_law();
    lease_law();
    refs_task_law();
    collect_task_law();
    expire_task_law();
    check_task_law();
}

/// What the outcome of a task tells stays so, whatever good events others make.
pub fn outcome_law()
    ensures { OutcomeLaw }
{
    refs_outcome_law();
    collect_outcome_law();
    expire_outcome_law();
    check_outcome_law();
}
