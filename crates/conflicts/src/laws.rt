//! Laws of conflicts: each function's clause is the law, and its body is empty.

ghost use Rattle.conflicts.specs.Laws.{ExactLaw, AscendLaw, GivenLaw, CommutingLaw, SolvedLaw};

/// What is found is exactly what conflicts.
pub fn exact_law()
    ensures { ExactLaw }
{}

/// What is found stands in order.
pub fn ascend_law()
    ensures { AscendLaw }
{}

/// What is given up are our entries for chunks that both sides wrote, under `Theirs` alone.
pub fn given_law()
    ensures { GivenLaw }
{}

/// Where nothing is found, our changes and theirs give one tree in either order, and it is well formed.
pub fn commuting_law()
    ensures { CommutingLaw }
{}

/// Where no conflict stays, our changes are normal for the later tree, whatever entries are taken out.
pub fn solved_law()
    ensures { SolvedLaw }
{}
