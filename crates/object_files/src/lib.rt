//! Objects as files of a directory: under which names they lie, which version they have, and their listing.
#![tactic(auto)]

pub mod laws;
mod listing;
mod names;
mod versions;

pub use listing::{ListFault, folder_of, joined, list_files};
pub use names::{aside_folder, is_aside, key_of, path_of};
pub use versions::{content_version, putting_of, version_for};
