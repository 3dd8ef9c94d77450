//! Workers of a script's tasks at once, each in a thread of its own, over one store that they share.
//!
//! Each worker makes its operations through a port of the shared store, under its client's number. So what it knows of
//! the journal holds whatever the others do in between, and what is promised of the run names no order of the clients.
//!
//! Promised is what a call says once it has returned. Not promised is that it returns, in which order the clients get
//! their turns, or that two of them are ever in the middle of their work at one time.
#![tactic(auto)]

mod crew;
mod gate;
mod runner;
mod running;

pub use gate::{Gate, OpenGate};
pub use running::run_at_once;
