//! Laws of checks over the journal of a store that others use as well: sound means whole, and exact when still.
#![tactic(auto)]

mod laws;

pub use laws::{failure_law, sound_law, still_law};
