//! The laws of what reads and writes of chunks and of boxes of numbers tell of the journal.
#![tactic(auto)]

mod chunk_laws;
mod laws;

pub use chunk_laws::{get_law, owning_calls_law, set_law, tells_law};
pub use laws::{owning_region_law, region_law, region_set_law};
