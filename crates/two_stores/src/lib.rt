//! Machines over two stores, of which one is read and the other is written: which operation comes next, on which side, and the
//! one function that makes it.
#![tactic(auto)]

mod driving;
mod side;

pub use driving::{Asked, PairMachine, ask_pair, drive_pair};
pub use side::Side;
