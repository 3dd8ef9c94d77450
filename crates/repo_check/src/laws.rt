//! Laws of checks, as the contracts of functions that do nothing.

ghost use Rattle.repo_check.specs.Laws.{CheckLaw};

/// Exact check. Whatever others do and the store answers, a check reads alone. Where it isn't refused for another cause, all that is
/// named by what its own operations were told was read, each visit once and nothing else; it answers how many snapshots and objects
/// there are exactly where that is intact; else it is `Unsound`, and its faults are exactly those of what it was told, in the order
/// of finding. Refused for another cause it tells the faults so far.
pub fn check_law()
    ensures { CheckLaw }
{}
