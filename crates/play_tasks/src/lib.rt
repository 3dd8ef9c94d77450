//! The tasks of a script as step machines over a store.
#![tactic(auto)]

mod boxes;
mod chunks;
mod commits;
mod doubts;
mod laws;
mod leasing;
mod lines;
mod releasing;
mod session_worker;
mod steps;
mod worker;
mod working;

pub use laws::{outcome_law, task_law};
pub use worker::Worker;
