//! Where a collection stands.

use crate::mark::Mark;
use crate::queue::Keys;
use cleanup_reports::Removed;
use store_api::{Key, Refusal};

/// What a collection was told as removed, and how it ended.
#[derive(Debug, Drop)]
pub struct Collected {
    /// How many objects it was told as removed.
    pub removed: Removed,
    /// Whether all that is doomed is gone, or why the collection was refused.
    pub result: Result<(), Refusal>,
}

/// Where a collection stands.
#[derive(Drop)]
pub enum Collecting {
    /// It marks.
    Marking(Mark),
    /// It removes this key, and then these.
    Removing {
        key: Key,
        keys: Keys,
        removed: Removed,
    },
    /// It has ended.
    Ended(Collected),
}
