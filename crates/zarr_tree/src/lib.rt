//! Trees of Zarr nodes with their metadata and chunks, edits on them, and changes: what edits have done to a tree.
//!
//! The functions that end in `law` do nothing: the contract of each is a law on which other crates may stand.
#![tactic(auto)]

mod cases;
mod edit;
mod frozen;
mod laws;
mod lists;
mod nodes;

pub use cases::{Case, Conflict};
pub use edit::{EditFault, Frozen, MOST_NODES};
pub use frozen::frozen_change;
pub use laws::{
    change_law, commute_law, differs_law, empty_law, grid_law, none_law, normal_law, ordered_law,
    over_law, rebase_law, touched_law,
};
pub use lists::{ArrayChunks, Ids, Touched};
pub use nodes::{Found, Node, TreeLike};
