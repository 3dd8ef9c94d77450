//! What an expiry reports.

use ice_ids::Id12;
use ice_items::Items;
use object_store::Key;

/// What an expiry made of a ref.
#[derive(Clone, Copy, Debug, PartialEq, Eq)]
pub enum What {
    /// Its history is as it was.
    Kept,
    /// Its history ends at this snapshot now, whose parent is the initial one.
    Cut(Id12),
    /// It was dropped.
    Dropped,
    /// It was left as it is: what was to be cut or dropped had moved on meanwhile.
    Moved,
    /// It was gone when it was read.
    Absent,
}

/// A branch or a tag, and what an expiry made of it.
#[derive(Debug, Drop)]
pub struct RefCase {
    pub key: Key,
    pub what: What,
}

/// The refs of an expiry, in the order in which they were read.
pub type RefCases = Items<RefCase>;
