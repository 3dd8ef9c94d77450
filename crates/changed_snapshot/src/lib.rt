//! The snapshot that a commit writes: its base's rows under changes, and the new lists of manifests of its arrays.
#![tactic(auto)]

mod files;
mod laws;
mod names;
mod new_snapshot;
mod rows;

pub use laws::{fine_law, frozen_law, nodes_law, own_law, proper_law, ranked_law, tree_law};
pub use new_snapshot::{NewList, NewLists, NewManifest, Stamp, write_over};
