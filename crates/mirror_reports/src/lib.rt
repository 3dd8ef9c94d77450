//! What mirrors read off the replies of two stores, which bytes they put and take as the same, and what they report.
#![tactic(auto)]

pub mod files;
pub mod outcome;
pub mod replies;

pub use outcome::{MirrorEnd, MirrorRef, MirrorRefs, Mirrored, RefId};
