//! What makes a repository intact: what each get of an object tells, and where it leads.
#![tactic(auto)]

mod parts;
mod rows;
mod snapshots;
mod telling;
mod visits;

pub use parts::ManifestPlace;
pub use rows::first_unwell;
pub use snapshots::SnapshotPlace;
pub use telling::{log_seen, manifest_seen, part_seen, ref_seen, snapshot_seen};
pub use visits::{FileVisit, PartVisit};
