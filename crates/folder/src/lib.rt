//! Folders and files: what a program asks of them, what they are to answer, a folder in memory that does so, and the way to
//! the folders of the system.
#![tactic(auto)]

mod faults;
mod folders;
mod locks;
mod memory;
mod seen;
mod system;

pub use faults::{Call, Cause, FileFault, Trouble, failed, refused};
pub use folders::Folder;
pub use locks::Lock;
pub use memory::MemoryFolder;
pub use seen::{Kind, Seen};
pub use system::SystemFolder;
