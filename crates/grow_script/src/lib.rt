//! The script of `grow N`: it is made from a number, and the same number makes the same script.
#![tactic(auto)]

mod draws;
mod lines;
mod summary;

pub use lines::grown_script;
pub use summary::Summary;
