//! The names of objects.

use ice_base::RefName;
use ice_ids::Id12;

/// The name of an object (Icechunk specification version 1, "File layout"; tombstones of tags are
/// objects beside them).
#[derive(Debug, Drop)]
pub enum Key {
    /// A snapshot of the whole tree.
    Snapshot(Id12),
    /// A manifest: where the chunks of an array lie.
    Manifest(Id12),
    /// The transaction log of the snapshot with this id.
    Txn(Id12),
    /// A chunk's bytes.
    Chunk(Id12),
    /// A branch: names a snapshot, and moves.
    Branch(RefName),
    /// A tag: names a snapshot, and never moves.
    Tag(RefName),
    /// The tombstone of a tag.
    Tombstone(RefName),
    /// A lease: names the snapshot on which a session is open.
    Lease(Id12),
}

/// A part of the store that can be listed. `Tags` holds the tombstones too.
#[derive(Clone, Copy, Debug, PartialEq, Eq)]
pub enum Part {
    Snapshots,
    Manifests,
    Txns,
    Chunks,
    Branches,
    Tags,
    Leases,
}

/// What a write is for.
#[derive(Clone, Copy, Debug, PartialEq, Eq)]
pub enum Why {
    /// The start of a repository.
    Init,
    /// An object that a session writes before its ref.
    Set,
    /// The ref of a commit.
    Commit,
    /// A new branch.
    Create,
    /// A branch that is set to another snapshot.
    Reset,
    /// A branch or a tag that is dropped.
    Drop,
    /// A new tag.
    Tag,
    /// A collection.
    Collect,
    /// An expiry.
    Expire,
    /// A lease of a session.
    Lease,
}
