//! What a snapshot reaches: itself, what it holds, and so on down the chain of its parents as they stand.
#![tactic(auto)]

ghost use Rattle.reach.specs.Chains.{ParentsLaw};
ghost use Rattle.reach.specs.Own.{OwnLaw};

/// Where nothing is put again, the parent that a snapshot names stays, or is cut: then it is the initial snapshot.
pub fn parents_law()
    ensures { ParentsLaw }
{}

/// In a legal polite journal what a client put itself was put where nothing stood.
pub fn own_law()
    ensures { OwnLaw }
{}
