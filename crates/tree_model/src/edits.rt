//! Edits.

use ice_ids::Id8;
use ice_items::Items;
use zarr_meta::Meta;
use zarr_path::{Index, Path};

/// A single edit of a tree.
#[derive(Debug, Drop)]
pub enum Edit {
    /// A new node with its id and metadata.
    Add {
        /// Where it is to stand.
        path: Path,
        /// Its id.
        id: Id8,
        /// Its metadata.
        meta: Meta,
    },
    /// Other metadata for a node.
    SetMeta {
        /// Where the node stands.
        path: Path,
        /// The metadata.
        meta: Meta,
    },
    /// A node, and all beneath it, taken away.
    Drop {
        /// Where the node stands.
        path: Path,
    },
    /// A chunk's bytes.
    Set {
        /// Where the array stands.
        path: Path,
        /// Which chunk.
        index: Index,
        /// The bytes.
        bytes: Items<u8>,
    },
    /// No chunk.
    Unset {
        /// Where the array stands.
        path: Path,
        /// Which chunk.
        index: Index,
    },
}
