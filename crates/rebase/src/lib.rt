//! Rebasing a session: the conflicts with the commits since its base are solved, one after another, and the session moves on to its
//! branch's snapshot.
//!
//! The functions that end in `law` do nothing: the contract of each is a law on which other crates may stand.
#![tactic(auto)]

mod along_laws;
mod hiding;
mod laws;
mod machine;
mod rebasing;
mod solving;

pub use along_laws::{means_law, normal_law, only_law, own_law, quiet_law};
pub use laws::rebase_law;
pub use machine::{Rebase, Rebased};
pub use rebasing::{Rebasing, Solving, Walk};
