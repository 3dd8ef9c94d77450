//! Refs, snapshots and their chains, logs, manifests and chunks, read from a store.
#![tactic(auto)]

mod answers;
mod chain;
mod resolving;
mod snapshot;

pub use answers::{Resolved, log_told, manifest_told, object_told, ref_told, snapshot_told};
pub use chain::{Chain, MOST_SNAPSHOTS};
pub use resolving::{At, Named, Resolution, Resolve, Resolving, base_told, tag_told};
pub use snapshot::ReadSnapshot;
