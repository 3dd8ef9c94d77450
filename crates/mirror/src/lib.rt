//! Mirrors: a repository is copied into a second store, while others go on in both.
#![tactic(auto)]

mod laws;
mod lines;
mod mirror;
mod pointing;
mod register;
mod source;
mod target;

pub use laws::fair_law;
pub use mirror::Mirror;
