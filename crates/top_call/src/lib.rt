//! The top call: it reads the words of the command line and does what they say. It plays a script over a store and writes
//! its report, or the line of a grown script, or it says what the program is.
#![tactic(auto)]

mod ending;
mod laws;
mod running;
mod saying;
mod statuses;
mod telling;

pub use ending::{Ended, end, given_words};
pub use laws::{numbers_law, rows_law};
pub use running::run;
pub use statuses::{Causes, Status};
