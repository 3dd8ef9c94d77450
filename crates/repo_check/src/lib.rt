//! Checks: all that the refs of a repository reach is read, and what is wrong is told.
#![tactic(auto)]

mod asking;
mod check;
mod course;
mod laws;
mod line;
mod places;
mod standing;
mod work;

pub use check::Check;
pub use laws::check_law;
pub use standing::CheckReport;
