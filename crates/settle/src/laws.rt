//! The law of a settling, as the contract of a function that does nothing.

ghost use Rattle.store_api.specs.Callers.{Caller as TheCaller};
ghost use Rattle.settle.specs.Laws.{SettleLaw};

use repo_objects::snapshot_law;

/// Whatever others do, each operation of a settling is polite, and its answer tells the journal: the commit's snapshot is told as met
/// exactly where it is on the chain as the client's own gets read it.
pub fn settle_law()
    ensures { (by : TheCaller) → SettleLaw by }
{
    snapshot_law();
}
