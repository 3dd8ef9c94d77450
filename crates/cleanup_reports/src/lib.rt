//! What collections and expiries report.
#![tactic(auto)]

mod cases;
mod removed;

pub use cases::{RefCase, RefCases, What};
pub use removed::Removed;
