//! What an object is got for.

use ice_ids::{Id8, Id12};

/// A manifest is got for a node that names it and whose chunks have so many bytes.
#[derive(Clone, Copy, Debug, PartialEq, Eq, PartialOrd, Ord)]
pub struct FileVisit {
    /// The manifest.
    pub manifest: Id12,
    /// The node.
    pub node: Id8,
    /// How many bytes a chunk of the node has.
    pub want: u64,
}

/// An object is got for a part of it that is to be a chunk of so many bytes.
#[derive(Clone, Copy, Debug, PartialEq, Eq, PartialOrd, Ord)]
pub struct PartVisit {
    /// The object.
    pub object: Id12,
    /// The place of the part's first byte in it.
    pub offset: u64,
    /// The number of the part's bytes.
    pub size: u64,
    /// How many bytes the chunk has.
    pub want: u64,
}
