//! Moments in microseconds: cutoffs as texts, and the machine's clock.
#![tactic(auto)]

mod cutoffs;
mod wall_clock;

pub use cutoffs::{CutoffFault, cutoff_read};
pub use wall_clock::WallClock;
