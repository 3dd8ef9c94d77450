//! Runs of mirrors: a repository is copied into a second store, and what came of it is printed.
#![tactic(auto)]

mod ending;
mod running;
mod telling;

pub use ending::{MirrorEnded, MirrorStatus};
pub use running::{mirror_store, run_mirror};
pub use telling::add_mirror;
