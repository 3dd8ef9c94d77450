//! Laws of tasks that call on refs, as the contracts of functions that do nothing.

ghost use Rattle.play_refs.specs.Laws.{RefsOutcomeLaw, RefsTaskLaw};

use refs_admin::refs_law;

/// Whatever others do, each operation of a task that calls on refs is polite, and one that such a task may make; and its
/// outcome tells the journal: which of its lines were called, what each of them made and showed, and which was refused why.
pub fn refs_task_law()
    ensures { RefsTaskLaw }
{
    refs_law();
}

/// What the outcome of such a task tells stays so, whatever good events others make.
pub fn refs_outcome_law()
    ensures { RefsOutcomeLaw }
{}
