//! Laws of tasks that check, as the contracts of functions that do nothing.

ghost use Rattle.play_check.specs.Laws.{CheckOutcomeLaw, CheckTaskLaw};

use check_calls::failure_law;
use repo_check::check_law;

/// Whatever others do, a task that checks reads alone; and its outcome tells the journal: what is wrong with what its own operations
/// were told, or that all is intact.
pub fn check_task_law()
    ensures { CheckTaskLaw }
{
    check_law();
    failure_law();
}

/// What the outcome of such a task tells stays so, whatever good events others make.
pub fn check_outcome_law()
    ensures { CheckOutcomeLaw }
{
    check_law();
    failure_law();
}
