//! Laws of checks, as the contracts of functions that do nothing.

ghost use Rattle.check_calls.specs.Laws.{FailureLaw, SoundLaw, StillLaw};

use repo_objects::snapshot_law;

/// Sound means whole. Where a check answers that all is intact, and between its first operation and its last nothing was removed and
/// no snapshot put over, whatever else others did: each ref as read names a snapshot whose chain ends and is whole, and all that it
/// reaches stands, but for what is excepted.
pub fn sound_law()
    ensures { SoundLaw }
{
    snapshot_law();
}

/// Exact when still. Where nobody else did anything between a check's first operation and its last, and it isn't refused for another
/// cause, it answers that all is intact exactly where each ref names a snapshot whose chain ends and is whole.
pub fn still_law()
    ensures { StillLaw }
{
    snapshot_law();
}

/// Whatever others do, a check tells faults only where none of its operations failed.
pub fn failure_law()
    ensures { FailureLaw }
{}
