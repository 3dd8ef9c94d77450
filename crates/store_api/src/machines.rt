//! What step machines over a store answer, and the refusals that end them.

use crate::{Key, Version};
use flat_tables::Kind;
use ice_ids::Id12;
use ice_items::Items;
use repo_objects::Bad;
use snapshot_file::PropFault;
use zarr_meta::MetaFault;
use zarr_tree::{Conflict, EditFault};

/// Whether a machine has more to do.
#[derive(Debug, Drop)]
pub enum Next<T> {
    /// There is a further operation to make.
    Again,
    /// The machine has ended with this answer.
    Ready(T),
}

/// Why a call or a machine ended without its answer.
#[derive(Debug, Drop)]
pub enum Refusal {
    /// The branch or the tag was absent, or the tag had a tombstone, or the snapshot was absent by whose id a session is
    /// opened or a log is read.
    NoRef,
    /// The session's tree doesn't take the edit (or has no such node, array or chunk to read).
    Edit(EditFault),
    /// The text is no metadata, or that of the other kind of node (`NodeType`).
    BadMeta(MetaFault),
    /// The session was opened to read.
    ReadOnly,
    /// The store has no object at a key that another object names.
    Missing(Key),
    /// The bytes at the key aren't what the key asks for.
    BadFile(Key, Bad),
    /// A walk along parents has read 65,536 snapshots without its end.
    TooDeep,
    /// The store failed.
    StoreFault,
    /// The key of a drawn id was taken.
    IdTaken(Key),
    /// There was no memory.
    NoMemory,
    /// No id was left to draw.
    IdsSpent,
    /// The text is no key of a Zarr store.
    BadKey,
    /// The branch didn't stand at the version that was read.
    LostRace {
        /// The version that was read.
        old: Version,
        /// The version at which the branch stood, if it was there.
        found: Option<Version>,
    },
    /// There are no changes.
    NothingToCommit,
    /// A file of this kind would be longer than a file may be, or a manifest would have too many chunks.
    TooLarge(Kind),
    /// The put over of the branch failed: it may have been done.
    InDoubt {
        /// The commit's snapshot.
        snapshot: Id12,
    },
    /// Conflicts with a commit stay that the policy doesn't solve.
    Left {
        /// The snapshot of the first such commit.
        at: Id12,
        /// Its conflicts that stay, in order.
        conflicts: Items<Conflict>,
    },
    /// The walk along parents ended without the base.
    NotAncestor {
        /// The snapshot at which it began.
        head: Id12,
    },
    /// The ref was there.
    RefExists(Version),
    /// The snapshot that a ref is to name was absent.
    NoSnapshot,
    /// The tag was there, and has a tombstone.
    TagDropped,
    /// The branch `main` isn't dropped.
    MainKept,
    /// The branch had moved on.
    Moved {
        /// The version at which it stood, if it was there.
        found: Option<Version>,
    },
    /// The cutoff is later than the store's time.
    CutoffAhead {
        /// The store's time.
        now: u64,
    },
    /// The session was opened by a snapshot's id, so no ref can confirm a lease of it.
    Unnamed,
    /// A commit's property doesn't go in.
    BadProp(PropFault),
    /// A check found this many faults, at least one.
    Unsound(u64),
    /// The object under this key differs in the other store, or the ref there can't follow.
    Differs(Key),
    /// The other store failed.
    TargetFault,
    /// The box isn't one of the array's cells, or the cells don't fit it.
    Region(RegionFault),
}

/// Why a box of cells can't be read or written: the first that holds in this order.
#[derive(Clone, Copy, Debug, PartialEq, Eq)]
pub enum RegionFault {
    /// The ranks differ, or a corner lies outside the array's shape, or the box ends before it begins.
    OutOfShape,
    /// The box has more than 1,048,576 cells.
    Large,
    /// There aren't as many cells as the box has.
    CellCount {
        /// How many the box has.
        want: u64,
        /// How many there are.
        got: u64,
    },
    /// The number of this cell, the first such, is outside the range of the array's type.
    CellRange {
        /// The cell's place.
        at: u64,
    },
}
