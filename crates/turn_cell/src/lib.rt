//! A cell that keeps one value and lends it to whoever has the turn, over any number of threads.
//!
//! The value tells a journal, whose entries have owners. Each caller has a [`Pass`], which remembers what it has seen of
//! the journal and has a range of owner numbers that no other pass has. So a caller knows of the value, whatever the other
//! threads do in between, that its journal begins with what the caller has seen, that no further entry is the caller's own,
//! and that its count hasn't fallen.
//!
//! Promised is what a call says once it has returned. Not promised is that `take` or `close` returns, that a pass ever
//! gets the turn, in which order passes get it, or that a thread runs.
#![tactic(auto)]

mod cell;
mod journaled;
mod known;
mod pass;
mod rule;

pub use cell::TurnCell;
pub use journaled::Journaled;
pub use known::{Known, Owners};
pub use pass::{Pass, Token};
