//! Conflicts of what a session has changed with what another commit has changed, and what a policy solves of them.
//!
//! The functions that end in `law` do nothing: the contract of each is a law on which other crates may stand.
#![tactic(auto)]

mod detecting;
mod ids;
mod laws;
mod lists;
mod looking;
mod sides;
mod solving;

pub use detecting::detect;
pub use laws::{ascend_law, commuting_law, exact_law, given_law, solved_law};
pub use solving::{ChunkPlace, Pick, Policy, Solved, keys_at, solve};
