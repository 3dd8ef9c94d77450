//! Where a check stands, and where it ends.

use check_reports::{CheckFaults, Checked};
use ice_ids::Id12;
use intact::{FileVisit, ManifestPlace, PartVisit, SnapshotPlace};
use store_api::{Key, Refusal};

/// The faults that a check found, and how it ended.
#[derive(Debug, Drop)]
pub struct CheckReport {
    /// The faults, in the order in which they were found.
    pub faults: CheckFaults,
    /// How many objects were found, where there is no fault; or why the check was refused: `Unsound` where there are faults.
    pub result: Result<Checked, Refusal>,
}

/// The operation that comes next.
#[derive(Drop)]
pub enum Checking {
    /// The branches are listed.
    Branches,
    /// A branch is got.
    Branch(Key),
    /// The tags are listed.
    Tags,
    /// A tag is got.
    Tag(Key),
    /// A snapshot is got.
    Snapshot(Id12),
    /// The log of the snapshot that is held is got.
    Log(Id12, SnapshotPlace),
    /// A manifest that the snapshot names is got.
    File(FileVisit, SnapshotPlace),
    /// A part of an object that the manifest names is got.
    Part(PartVisit, ManifestPlace, SnapshotPlace),
    /// The check has ended.
    Ended(Result<Checked, Refusal>),
}
