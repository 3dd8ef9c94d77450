//! The scripts of `grow N` and of `cells BRANCH PATH FROM TO` are ones that the grammar of scripts takes: laws, with no code.
#![tactic(auto)]

ghost use Rattle.grown_scripts.specs.Law.{GrownLaw};
ghost use Rattle.grown_scripts.specs.Boxes.{BoxesLaw};

/// For each N from 1 to 60 the text of `grow N` stands for a script, of N tasks and the base task.
pub fn grown_law()
    ensures { GrownLaw }
{}

/// The text of `cells BRANCH PATH FROM TO` stands for a script of one task, which reads at the branch and shows the numbers of
/// the box of cells; or its first line is refused, where the branch is, or its second one, where the box is.
pub fn boxes_law()
    ensures { BoxesLaw }
{}
