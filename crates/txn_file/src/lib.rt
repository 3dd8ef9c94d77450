//! Transaction logs as files: what a commit changed, by which it is compared with other commits.
//! (Icechunk specification version 1, "Transaction log".)
//!
//! [`read`] answers the log that a file stands for, or the first fault of the file; [`write`] answers the one file of a
//! log, which is read again as that log.
#![tactic(auto)]

pub mod laws;
mod log;
mod reading;
mod writing;

pub use log::TxnFile;
pub use reading::read;
pub use writing::write;
