//! That the settling of a commit in doubt tells whether it was done: a law of journals, and no code.
#![tactic(auto)]

ghost use Rattle.settled_doubts.specs.Doubts.{DoubtLaw};

use repo_objects::{initial_law, snapshot_law};

/// Where since the branch was read others only committed to it, a settling tells `Committed` only of a commit that was done; and where
/// no snapshot was cut that the settling read, of each that was.
pub fn doubt_law()
    ensures { DoubtLaw }
{
    snapshot_law();
    initial_law();
}
