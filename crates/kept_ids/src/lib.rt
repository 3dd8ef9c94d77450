//! A source of ids that keeps its place in the key stream from draw to draw.
#![tactic(auto)]

mod kept;
mod words;

pub use kept::KeptIds;
