//! Laws of trees and changes: each function's clause is the law, and its body is empty.

ghost use Rattle.zarr_tree.specs.Laws.{GridLaw, ChangeLaw, NormalLaw, NoneLaw, EmptyLaw, OverLaw, DiffersLaw, TouchedLaw, OrderedLaw, CommuteLaw, RebaseLaw};

/// The chunks of an array that a text describes are those of a grid.
pub fn grid_law()
    ensures { GridLaw }
{}

/// An edit on the tree under changes is one more edit in the changes, with the same refusal.
pub fn change_law()
    ensures { ChangeLaw }
{}

/// One more edit keeps changes normal.
pub fn normal_law()
    ensures { NormalLaw }
{}

/// No changes are normal, and leave a tree as it is.
pub fn none_law()
    ensures { NoneLaw }
{}

/// The tree without a node is well formed.
pub fn empty_law()
    ensures { EmptyLaw }
{}

/// One more edit keeps changes over a tree, whatever id is added.
pub fn over_law()
    ensures { OverLaw }
{}

/// What changes touch tells all in which the tree under them differs.
pub fn differs_law()
    ensures { DiffersLaw }
{}

/// The lists read off what is held are what its changes touch.
pub fn touched_law<P>()
    ensures { TouchedLaw P }
{}

/// And they stand in strict order.
pub fn ordered_law<P>()
    ensures { OrderedLaw P }
{}

/// Changes that don't conflict give one tree in either order.
pub fn commute_law()
    ensures { CommuteLaw }
{}

/// Changes whose conflicts are solved are normal for the later tree.
pub fn rebase_law()
    ensures { RebaseLaw }
{}
