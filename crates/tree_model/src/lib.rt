//! The plain model of trees, edits, changes and conflicts as code: each call does what its definition says, over lists that
//! are walked. It stands on nothing that keeps or looks up changes.
#![tactic(auto)]

mod changes;
mod chunks;
mod edits;
mod extending;
mod kinds;
mod lists;
mod nodes;
mod refusing;
mod sides;
mod touching;
mod trees;
mod trees_under;

pub use changes::{Changes, ChunkEntry};
pub use edits::Edit;
pub use nodes::{Nodes, Rows};
pub use refusing::refusal;
pub use sides::Sides;
pub use trees::{Tree, Write};
pub use trees_under::Under;
