//! Texts on their way to a sink, through a buffer that is taken before there is any text: so no want of memory keeps one from
//! being written.
#![tactic(auto)]

mod sending;

pub use sending::Draft;
