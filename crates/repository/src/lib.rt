//! What is done with a repository as a whole: it is begun where there is none, and its refs are read.
#![tactic(auto)]

mod calls;
mod laws;
mod refs;

pub use calls::{begin, read_refs};
pub use laws::refs_law;
pub use refs::ReadRefs;
