//! That changes of a tree are determined by what they do: a law of trees and changes, and no code.
#![tactic(auto)]

ghost use Rattle.determined_changes.specs.Laws.{NodesLaw, SameLaw, AlikeLaw, TopmostLaw};

/// Changes that are normal for a tree, that make one tree of it, and of which the same is listed, are the same; and no two
/// that are the same can be told apart by that.
pub fn determined_law()
    ensures nodes { NodesLaw }
    ensures same { SameLaw }
    ensures alike { AlikeLaw }
    ensures topmost { TopmostLaw }
{}
