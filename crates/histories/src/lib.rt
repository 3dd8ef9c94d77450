//! Histories of refs: what the calls of a journal on branches and tags mean, in words that know no
//! object, file or retry.
#![tactic(auto)]

ghost use Rattle.histories.specs.Laws.{HistoryLaw, TagsLaw, NeverMoves, KeepsItsTree};

/// In a legal polite journal that puts nothing again, each call on a branch got the answer of the
/// branch's history, each entry has its snapshot's tree, and each commit that took effect has the
/// tree of the entry before it under its changes.
pub fn history_law()
    ensures { HistoryLaw }
{}

/// In a legal polite journal each get and put of a tag and of its tombstone got the answer of the
/// tag's state, and what stands there is what the state says. A tag never moves, and once it is gone
/// it stays so; nor does its tree change, where nothing is put again.
pub fn tags_law()
    ensures states { TagsLaw }
    ensures moves { NeverMoves }
    ensures trees { KeepsItsTree }
{}
