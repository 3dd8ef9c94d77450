//! Snapshots as files: the nodes of a tree, each with its metadata and the manifests of its chunks.
//! (Icechunk specification version 1, "Snapshot".)
//!
//! [`read`] answers the snapshot that a file stands for, or the first fault of the file; [`write`] answers the one file
//! of a snapshot, which is read again as that snapshot.
#![tactic(auto)]

mod copies;
mod fields;
mod initial_snapshot;
mod laws;
mod lists;
mod node_reading;
mod node_writing;
mod nodes;
mod numbers;
mod properties;
mod property_reading;
mod property_writing;
mod reading;
mod slots;
mod snapshot;
mod sources;
mod writing;

pub use copies::{copy_manifests, copy_names};
pub use initial_snapshot::{INITIAL_FILE, initial, initial_law};
pub use laws::read_law;
pub use lists::{Extents, Names, Shape};
pub use nodes::{ManifestRef, NodeKind, NodeRow};
pub use properties::{PROP_LIMIT, PropFault, Props};
pub use reading::read;
pub use snapshot::{ManifestInfo, NODE_LIMIT, SnapshotFile, SnapshotHead};
pub use sources::RowSource;
pub use writing::{write, write_rows};
