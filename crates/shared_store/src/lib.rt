//! A store that several threads share. Each of its clients makes operations through a [`Port`] of its own, which is a
//! store like any other.
//!
//! A port takes the turn of the shared store, makes one operation under its client number and gives the turn back. So
//! a client knows of the journal, whatever the other threads do in between, that it begins with what the client's pass
//! had seen, that others' polite events alone came then, and that the client's own event ends it.
//!
//! Promised is what a call says once it has returned. Not promised is that an operation of a port or `unshare` returns,
//! or in which order the clients get the turn.
#![tactic(auto)]

mod legal_store;
mod port;
mod shared;

pub use legal_store::LegalStore;
pub use port::Port;
pub use shared::{Shared, share};
