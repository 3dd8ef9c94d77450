//! The laws of rebases, as the contracts of functions that do nothing.

ghost use Rattle.conflicts.specs.declared.solving.Policy.{Policy};
ghost use Rattle.store_api.specs.Callers.{Caller};
ghost use Rattle.session.specs.Sessions.{SessionState};
ghost use Rattle.rebase.specs.Laws.{RebaseLaw};

use repo_objects::{ref_law, snapshot_law};

/// Whatever others do, a rebase only reads, and its answer tells the journal: the commits that it met, and that all
/// conflicts with them were solved, or where it ended. The session that it answers knows its base, and can be written.
pub fn rebase_law()
    ensures { (by : Caller) (policy : Policy) (s : SessionState) → RebaseLaw by policy s }
{
    snapshot_law();
    ref_law();
}
