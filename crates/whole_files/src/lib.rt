//! Files as wholes: read, told apart by their contents, written aside and moved to their places, and removed, over any folder.
#![tactic(auto)]

mod asides;
mod changing;
mod known;
mod places;
mod reading;
mod versions;

pub use changing::{VersionChange, make_file, remove_file, remove_version, replace_file};
pub use known::Known;
pub use places::{Places, folder_at};
pub use reading::{MOST, file_version, in_memory, read_file};
pub use versions::{Putting, content_number, version_by};
