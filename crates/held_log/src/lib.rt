//! Transaction logs that are read in place: the file stays as it came, and its lists are found when they are asked for.
//!
//! [`hold`] takes a file that stands for a log and refuses another one with its first fault; no call takes memory. Ids and
//! arrays are found by halves.
#![tactic(auto)]

mod arrays;
mod held;
mod ids;
mod indices;
pub mod laws;
mod lists;

pub use held::{HeldLog, hold};
pub use ids::Ids;
pub use indices::Indices;
pub use lists::HeldLists;
