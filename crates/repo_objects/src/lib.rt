//! The objects of a repository: what the bytes at a key stand for, the trees of snapshots, and what is written.
//!
//! A snapshot, a manifest and a log are read under the id of their key: a file that tells another id is refused. The texts of
//! a snapshot's nodes are read as metadata with it.
#![tactic(auto)]

mod bad_objects;
mod chunks;
mod laws;
mod loaded_snapshot;
mod queue;
mod readings;
mod texts;

pub use bad_objects::{Bad, Unread};
pub use chunks::{chunk_read, inline_read};
pub use laws::{initial_law, log_law, manifest_law, ref_law, snapshot_law};
pub use loaded_snapshot::Loaded;
pub use queue::Queue;
pub use readings::{log_hold, manifest_hold, ref_read};
