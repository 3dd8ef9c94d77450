//! A store in memory that tells no journal, and what tests begin over it.
#![tactic(auto)]

mod sessions;
mod untold;

pub use sessions::{begun, opened, went};
pub use untold::Untold;
