//! Conflicts, and their kinds.

use zarr_path::{Index, Path};

/// How changes conflict with a later commit, by the names of Icechunk's conflict detector.
#[derive(Clone, Copy, Debug, PartialEq, Eq)]
pub enum Case {
    /// A node is added where another one stands.
    NewNodeConflictsWithExistingNode,
    /// A node is added beneath a group that isn't there any more.
    NewNodeInInvalidGroup,
    /// The metadata of a node is changed on both sides.
    ZarrMetadataDoubleUpdate,
    /// The metadata of an array is changed that was deleted.
    ZarrMetadataUpdateOfDeletedArray,
    /// The metadata of a group is changed that was deleted.
    ZarrMetadataUpdateOfDeletedGroup,
    /// A chunk is written on both sides.
    ChunkDoubleUpdate,
    /// Chunks of an array are written that was deleted.
    ChunksUpdatedInDeletedArray,
    /// Chunks of an array are written whose metadata was changed.
    ChunksUpdatedInUpdatedArray,
    /// An array is dropped whose metadata or chunks were changed.
    DeleteOfUpdatedArray,
    /// A group is dropped whose metadata was changed, or beneath which a node was added.
    DeleteOfUpdatedGroup,
}

impl Case {
    ghost use Rattle.std.specs.Prelude.{◌≡◌};
    ghost use Rattle.zarr_tree.specs.Cases.{number};

    /// The number of the case, by which conflicts at one path are ordered and told.
    pub fn number(self) -> u8
        ensures { result ≡ number self }
    {
        match self {
            Case::NewNodeConflictsWithExistingNode => 1,
            Case::NewNodeInInvalidGroup => 2,
            Case::ZarrMetadataDoubleUpdate => 3,
            Case::ZarrMetadataUpdateOfDeletedArray => 4,
            Case::ZarrMetadataUpdateOfDeletedGroup => 5,
            Case::ChunkDoubleUpdate => 6,
            Case::ChunksUpdatedInDeletedArray => 7,
            Case::ChunksUpdatedInUpdatedArray => 8,
            Case::DeleteOfUpdatedArray => 9,
            Case::DeleteOfUpdatedGroup => 10,
        }
    }
}

/// A conflict of changes with a later commit.
#[derive(Debug, Drop)]
pub struct Conflict {
    /// How they conflict.
    pub case: Case,
    /// The node's path in the tree before the later commit, or that of an added node.
    pub path: Path,
    /// The chunk, where both sides wrote one.
    pub index: Option<Index>,
}
