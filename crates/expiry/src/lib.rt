//! Expiries: old snapshots leave the histories of refs, and old refs are dropped.
#![tactic(auto)]

mod cutting;
mod expire;
mod going;
mod laws;
mod look;
mod register;
mod standing;
mod telling;
mod terms;

pub use expire::Expire;
pub use laws::expire_law;
pub use look::{Decision, Look};
pub use standing::Expired;
pub use terms::Terms;
