//! The tasks of a script that call on refs, as step machines over a store.
#![tactic(auto)]

mod laws;
mod lines;
mod steps;
mod worker;
mod working;

pub use laws::{refs_outcome_law, refs_task_law};
pub use worker::RefsWorker;
