//! Where a worker stands.

use play_outcome::{Outcome, Shown};
use refs_admin::{BranchDrop, BranchNew, BranchReset, Log, TagDrop, TagNew};

/// A machine that makes, moves or drops a ref.
#[derive(Drop)]
pub enum RefMaker {
    /// It makes a branch.
    Branch(BranchNew),
    /// It sets a branch to another snapshot.
    Reset(BranchReset),
    /// It drops a branch.
    Unbranch(BranchDrop),
    /// It makes a tag.
    Tag(TagNew),
    /// It drops a tag.
    Untag(TagDrop),
}

/// The machine of a call on refs.
#[derive(Drop)]
pub enum RefMachine {
    /// It makes, moves or drops a ref, and shows nothing.
    Making(RefMaker),
    /// It reads a log.
    Reading(Log),
}

/// Where a worker stands.
#[derive(Drop)]
pub enum Working {
    /// The machine has operations left of a call by this line of the script; the line behind it has the number `at` in the
    /// body, from 0.
    Calling {
        line: u32,
        at: usize,
        shown: Vec<Shown>,
        machine: RefMachine,
    },
    /// The task has ended.
    Ended {
        outcome: Outcome,
    },
}
