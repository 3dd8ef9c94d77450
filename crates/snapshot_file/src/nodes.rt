use crate::lists::{Extents, Names, Shape};
use ice_base::Bytes;
use ice_ids::{Id8, Id12};
use ice_items::Items;
use zarr_path::Path;

/// A manifest that has chunks of an array.
#[derive(Debug, Drop)]
pub struct ManifestRef {
    /// The manifest.
    pub id: Id12,
    /// Where those chunks lie, for each dimension of the array.
    pub extents: Extents,
}

/// What a node is.
#[derive(Debug, Drop)]
pub enum NodeKind {
    /// A group.
    Group,
    /// An array. Its text, and not these fields, decides what its shape and names are.
    Array {
        /// The length of each dimension, and that of a chunk in it, in elements.
        shape: Shape,
        /// The names of the dimensions.
        names: Option<Names>,
        /// The manifests that have its chunks.
        manifests: Items<ManifestRef>,
    },
}

impl NodeKind {
    ghost use Rattle.std.specs.Prelude.{◌≡◌};
    ghost use Rattle.snapshot_file.specs.Snapshots.{manifests_named};

    /// The manifests that it names: those of an array.
    pub fn manifests(&self) -> &[ManifestRef]
        ensures { result.now ≡ manifests_named self.now }
    {
        match self {
            NodeKind::Group => &[],
            NodeKind::Array { manifests, .. } => manifests.as_slice(),
        }
    }
}

/// A node of a tree.
#[derive(Debug, Drop)]
pub struct NodeRow {
    /// The node's own id.
    pub id: Id8,
    /// Where it stands in the tree.
    pub path: Path,
    /// The text of its `zarr.json`, which isn't looked at here.
    pub user_data: Bytes,
    /// What it is.
    pub kind: NodeKind,
}
