//! Laws of tasks that expire, as the contracts of functions that do nothing.

ghost use Rattle.play_expire.specs.Laws.{ExpireOutcomeLaw, ExpireTaskLaw};

use expiry::expire_law;

/// Whatever others do, each operation of a task that expires is polite, and one that its expiry owes; and its outcome tells the
/// journal: what became of each ref, and if it was refused, why.
pub fn expire_task_law()
    ensures { ExpireTaskLaw }
{
    expire_law();
}

/// What the outcome of such a task tells stays so, whatever good events others make.
pub fn expire_outcome_law()
    ensures { ExpireOutcomeLaw }
{}
