//! That the changes of a run's sessions are determined: laws of what a run promises, and no code.
#![tactic(auto)]

ghost use Rattle.determined_sessions.specs.Commits.{CommitsLaw};
ghost use Rattle.determined_sessions.specs.Sessions.{LinesLaw, FirstLaw, SessionsLaw, SolvedLaw};
ghost use Rattle.determined_sessions.specs.Trees.{PlaysLaw, CarriedLaw};

/// The changes of each commit of a run that took effect are determined by the journal.
pub fn commits_law()
    ensures { CommitsLaw }
{}

/// A task's session is determined at each of its lines by the lines before, and by what its client's gets told as it was
/// opened; and what it holds at its commit by the commits of others over which it was carried.
pub fn sessions_law()
    ensures lines { LinesLaw }
    ensures first { FirstLaw }
    ensures came { SessionsLaw }
    ensures solved { SolvedLaw }
{}

/// In words of trees: what lines show, but for which leases they put, and the tree that they lead to are determined by the ids
/// of the nodes that they add; and what is left of changes over the commits of others by these commits.
pub fn trees_law()
    ensures plays { PlaysLaw }
    ensures carried { CarriedLaw }
{}
