//! The report of a run: how outcomes of tasks, and refs, are printed.
#![tactic(auto)]

mod cases;
mod cells;
mod checks;
mod properties;
mod refusals;
mod reporting;
mod texts;
mod words;

pub use refusals::add_refusal;
pub use reporting::{add_outcome, add_report};
