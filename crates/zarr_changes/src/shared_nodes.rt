//! Nodes that share their metadata.

ghost use Rattle.std.specs.Prelude.{◌≡◌, IfOk};
ghost use Rattle.zarr_tree.specs.Rows.{node_found};

use ice_ids::Id8;
use std::alloc::AllocError;
use std::marker::Model;
use zarr_meta::SharedMeta;
use zarr_tree::Found;

/// A node whose metadata other nodes may have too. Contracts see its id and the text of its metadata.
#[derive(Debug, Drop)]
pub(crate) struct SharedNode {
    id: Id8,
    meta: SharedMeta,
}

impl Model for SharedNode {
    ghost use Rattle.zarr_tree.specs.Nodes.{Node as TheNode};
    ghost use Rattle.zarr_tree.specs.Codes.{coded_node};

    ghost Value = { TheNode };

    ghost coded = { coded_node };

    ghost view = { λ n. record { id = n.id; text = n.meta.text } };
}

impl SharedNode {
    /// The node of this id with this metadata.
    pub(crate) fn new(id: Id8, meta: SharedMeta) -> SharedNode
        ensures { result ≡ record { id = id; text = meta.text } }
    {
        SharedNode { id, meta }
    }

    /// As it is found in a tree.
    pub(crate) fn found(&self) -> Found<'_>
        ensures { node_found result ≡ self.now }
    {
        Found {
            id: self.id,
            meta: &self.meta,
        }
    }

    /// The same node once more. It shares the metadata.
    pub(crate) fn copy(&self) -> Result<SharedNode, AllocError>
        ensures { IfOk result (λ n. n ≡ self.now) }
    {
        Ok(SharedNode {
            id: self.id,
            meta: self.meta.share()?,
        })
    }
}
