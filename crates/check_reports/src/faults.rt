//! What a check finds.

use ice_items::Items;
use object_store::Key;
use repo_objects::Bad;

/// What is wrong with an object.
#[derive(Debug, Drop)]
pub enum FaultKind {
    /// Nothing is at its key.
    Absent,
    /// The bytes at its key aren't what the key asks for; of a manifest also where a chunk in it isn't as long as a chunk of its
    /// array.
    Bad(Bad),
    /// It is a snapshot above itself: the walk along parents comes back to it.
    Ring,
    /// It is a snapshot, and this node is its first that has the id of an earlier one, or that isn't `/` and has no group as its
    /// parent.
    NotWell {
        /// The node's number in its snapshot.
        at: usize,
    },
}

/// An object, and what is wrong with it.
#[derive(Debug, Drop)]
pub struct CheckFault {
    pub key: Key,
    pub kind: FaultKind,
}

/// The faults that a check found, in their order.
pub type CheckFaults = Items<CheckFault>;

/// What a check found where nothing is wrong.
#[derive(Clone, Copy, Debug, PartialEq, Eq)]
pub struct Checked {
    /// How many snapshots were found.
    pub snapshots: u64,
    /// How many objects with chunks were found.
    pub chunks: u64,
}
