//! Stores in memory: one that answers as the store machine does, and one over it, or over another whole store in which
//! an operation can be made to fail, that fails the planned calls.
#![tactic(auto)]

mod answers;
mod counting;
mod events;
mod failing_stores;
mod faults;
mod index;
mod journal;
mod kept_events;
mod making;
mod memory_store;
mod plans;
mod requests;

pub use events::{EventRef, ReplyRef};
pub use failing_stores::{Failing, Telling};
pub use faults::FaultStore;
pub use memory_store::MemStore;
pub use requests::OpRef;
