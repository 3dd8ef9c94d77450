//! Laws of mirrors over the journals of two stores that others use as well: exact mirror, and mirrored trees.
#![tactic(auto)]

mod laws;

pub use laws::{mirror_law, mirrored_trees_law};
