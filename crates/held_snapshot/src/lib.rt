//! Snapshots that are read in place: the file stays as it came, and its parts are found when they are asked for.
//!
//! [`hold`] takes a file that stands for a snapshot and refuses another one with its first fault. Nodes and manifests are found by
//! halves, and texts are lent; no call takes memory, but for those that copy.
#![tactic(auto)]

mod files;
mod held;
mod kinds;
pub mod laws;
mod listed_files;
mod manifests;
mod names;
mod nodes;
mod numbers;
mod order;
mod pairs;
mod props;
mod rows;
mod slots;

pub use files::HeldFiles;
pub use held::{HeldSnapshot, hold};
pub use kinds::HeldKind;
pub use manifests::{HeldManifestRef, HeldManifestRefs};
pub use names::HeldNames;
pub use nodes::HeldNodes;
pub use pairs::{HeldExtents, HeldShape};
pub use props::HeldProps;
pub use rows::HeldNode;
