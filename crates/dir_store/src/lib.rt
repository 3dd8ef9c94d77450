//! A directory as the object store: a file for each object, under the name that the standard gives it.
#![tactic(auto)]

mod answers;
mod claims;
mod clearing;
mod counting;
mod directory;
mod faults;
mod losing;
mod opening;
mod seeds;
mod store;

pub use claims::Claim;
pub use directory::FirstFault;
pub use faults::OpenFault;
pub use folder::{Call, Cause, Trouble};
pub use object_files::{content_version, key_of, version_for};
pub use opening::{Opened, open};
pub use seeds::random_seed;
pub use store::{DirStore, FolderStore};
