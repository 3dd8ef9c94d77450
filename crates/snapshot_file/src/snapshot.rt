use crate::nodes::NodeRow;
use crate::properties::Props;
use ice_base::Text;
use ice_ids::Id12;
use ice_items::Items;

/// A manifest of a snapshot.
#[derive(Clone, Copy, Debug, PartialEq, Eq)]
pub struct ManifestInfo {
    /// The manifest.
    pub id: Id12,
    /// The length of its file, in bytes.
    pub size: u64,
    /// How many chunks it has.
    pub refs: u32,
}

/// A snapshot: a tree at one moment.
#[derive(Debug, Drop)]
pub struct SnapshotFile {
    /// The snapshot's own id.
    pub id: Id12,
    /// The snapshot that it followed, and `None` of the first one.
    pub parent: Option<Id12>,
    /// The nodes, in the strict order of their paths' bytes, at most [`NODE_LIMIT`].
    pub nodes: Items<NodeRow>,
    /// When it was flushed, in microseconds.
    pub flushed_at: u64,
    /// The message of its commit.
    pub message: Text,
    /// Its properties.
    pub props: Props,
    /// The manifests that the nodes name, in the strict order of their ids' bytes.
    pub manifest_files: Items<ManifestInfo>,
}

/// What a snapshot says beside its nodes.
#[derive(Clone, Copy, Debug)]
pub struct SnapshotHead<'a> {
    /// The snapshot's own id.
    pub id: Id12,
    /// The snapshot that it followed, and `None` of the first one.
    pub parent: Option<Id12>,
    /// When it was flushed, in microseconds.
    pub flushed_at: u64,
    /// The message of its commit.
    pub message: &'a Text,
    /// Its properties.
    pub props: &'a Props,
    /// The manifests that its nodes name, in the strict order of their ids' bytes.
    pub manifest_files: &'a Items<ManifestInfo>,
}

/// The most nodes of a snapshot.
pub const NODE_LIMIT: usize = 65_536;
