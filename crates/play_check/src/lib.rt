//! The tasks of a script that check, as step machines over a store.
#![tactic(auto)]

mod laws;
mod worker;

pub use laws::{check_outcome_law, check_task_law};
pub use worker::CheckWorker;
