//! The machine that commits a session, what a commit owes, and what its answer says.
#![tactic(auto)]

mod arrays;
mod commit;
mod committing;
mod common_law;
mod laws;
mod manifests;
mod owning;
mod writer;

pub use commit::{Commit, Committed, Tried};
pub use common_law::single_law;
pub use laws::{answers_law, commit_law, opening_law, session_law};
pub use owning::owning_law;
pub use writer::Writer;
