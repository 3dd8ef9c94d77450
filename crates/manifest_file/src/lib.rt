//! Manifests as files: where the chunks of arrays are. (Icechunk specification version 1, "Manifests".)
//!
//! [`read`] answers the manifest that a file stands for, or the first fault of the file; [`write`] answers the one file
//! of a manifest, which is read again as that manifest.
#![tactic(auto)]

pub mod laws;
mod manifest;
mod reading;
mod writing;

pub use manifest::{ArrayRefs, ChunkRef, ManifestFile, Place, REFS_LIMIT};
pub use reading::read;
pub use writing::write;
