//! The tasks of a script that collect, as step machines over a store.
#![tactic(auto)]

mod laws;
mod worker;

pub use laws::{collect_outcome_law, collect_task_law};
pub use worker::CollectWorker;
