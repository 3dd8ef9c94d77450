//! Outcomes of tasks.

use check_reports::{CheckFaults, Checked};
use cleanup_reports::{RefCases, Removed};
use ice_base::{Bytes, RefName, Text};
use ice_ids::Id12;
use ice_items::Items;
use snapshot_file::Props;
use store_api::Refusal;
use zarr_path::Path;

/// A line that a task showed.
#[derive(Debug, Drop)]
pub enum Shown {
    /// A node of a listing that was asked for in this line of the script.
    Node {
        line: u32,
        array: bool,
        path: Path,
    },
    /// The metadata of a node that was asked for in this line of the script.
    Meta {
        line: u32,
        text: Bytes,
    },
    /// The bytes of a chunk that was asked for in this line of the script.
    Chunk {
        line: u32,
        bytes: Bytes,
    },
    /// A chunk that was asked for in this line of the script and isn't written: all its elements are the fill value.
    Fill {
        line: u32,
    },
    /// The numbers of a box of cells that was asked for in this line of the script, in C order.
    Cells {
        line: u32,
        numbers: Items<i128>,
    },
    /// The value of a key of the Zarr store that was asked for in this line of the script, if the key has one.
    Key {
        line: u32,
        bytes: Option<Bytes>,
    },
    /// A snapshot of a log that was asked for in this line of the script: when it was flushed, in microseconds, and the message and
    /// the properties of its commit.
    Log {
        line: u32,
        id: Id12,
        flushed_at: u64,
        message: Text,
        props: Props,
    },
    /// A lease that this line of the script put, or may have put. If its release was refused when the task had ended, why: then it may be left in the store.
    Lease {
        line: u32,
        id: Id12,
        left: Option<Refusal>,
    },
}

/// Lines that a task showed, in order.
pub type Shows = Items<Shown>;

/// How a task ended.
#[derive(Debug, Drop)]
pub enum End {
    /// Its commit made this snapshot.
    Committed(Id12),
    /// It collected, and was told that it removed so many objects.
    Collected(Removed),
    /// It reached its end without a commit.
    Done,
    /// It was refused at this line of the script.
    Refused {
        line: u32,
        why: Refusal,
    },
    /// Its collection was refused at this line of the script, and until then it was told that it removed so many objects.
    Stopped {
        line: u32,
        why: Refusal,
        removed: Removed,
    },
    /// Its commit is in doubt: the put of its branch failed, and may have been done. The snapshot that it put, and what the branch told of it then.
    InDoubt {
        id: Id12,
        how: How,
    },
    /// It expired refs on this line of the script: what became of each that it came to, and where it was refused, why.
    Expired {
        line: u32,
        cases: RefCases,
        result: Result<(), Refusal>,
    },
    /// It checked on this line of the script: the faults that it found, and how many objects it found where all is intact; or why it was refused, as `Unsound` where there are faults.
    Checked {
        line: u32,
        faults: CheckFaults,
        result: Result<Checked, Refusal>,
    },
}

/// What a branch told of a commit that was in doubt, by the chain of snapshots that it named then.
#[derive(Debug, Drop)]
pub enum How {
    /// The commit's snapshot is on the chain.
    Committed,
    /// The base of the commit's session is on it, and the snapshot isn't above that.
    NotCommitted,
    /// Neither of the two is on it.
    NotAncestor,
    /// The branch is gone.
    NoRef,
    /// It couldn't be read, for this reason.
    Unsettled(Refusal),
}

/// What a task showed, and how it ended.
#[derive(Debug, Drop)]
pub struct Outcome {
    pub shown: Shows,
    pub end: End,
}

/// A ref, and the snapshot that it names.
#[derive(Debug, Drop)]
pub struct RefLine {
    pub tag: bool,
    pub name: RefName,
    pub id: Id12,
}

/// Refs, in order.
pub type RefLines = Items<RefLine>;
