//! Whether a commit in doubt was done: a machine that looks for its snapshot on the chain that its branch names.
#![tactic(auto)]

mod laws;
mod settle;

pub use laws::settle_law;
pub use settle::{Doubt, Settle, Settled};
