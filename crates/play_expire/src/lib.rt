//! The tasks of a script that expire, as step machines over a store.
#![tactic(auto)]

mod laws;
mod worker;

pub use laws::{expire_outcome_law, expire_task_law};
pub use worker::ExpireWorker;
