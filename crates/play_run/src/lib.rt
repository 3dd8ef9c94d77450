//! Workers that take turns over one store on which nobody else acts.
#![tactic(auto)]

mod run;
mod workers;

pub use run::run_tasks;
pub use workers::workers_for;
