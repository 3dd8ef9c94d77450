//! Laws of tasks that collect, as the contracts of functions that do nothing.

ghost use Rattle.play_collect.specs.Laws.{CollectOutcomeLaw, CollectTaskLaw};

use chunk_gc::collect_law;

/// Whatever others do, each operation of a task that collects is polite, and one that its collection may make; and its outcome
/// tells the journal: what was removed, and if it was refused, why.
pub fn collect_task_law()
    ensures { CollectTaskLaw }
{
    collect_law();
}

/// What the outcome of such a task tells stays so, whatever good events others make.
pub fn collect_outcome_law()
    ensures { CollectOutcomeLaw }
{}
