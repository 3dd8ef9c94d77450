//! Nodes, and what can be looked up in as one looks in a tree.

ghost use Rattle.std.specs.Prelude.{◌≡◌, ◌<◌, slice_get, Some, IfOk, IsTrue, option_map};
ghost use Rattle.std.specs.FinMap as map;
ghost use Rattle.zarr_path.specs.Paths.{path_cmp, is_path};
ghost use Rattle.zarr_tree.specs.Nodes.{Node as TheNode};
ghost use Rattle.zarr_tree.specs.Rows.{node_found};

use ice_ids::Id8;
use std::alloc::{AllocError, Global};
use std::marker::Model;
use zarr_meta::Meta;

/// A node of a tree. Contracts see its id and the text of its metadata.
#[derive(Debug, Drop)]
pub struct Node {
    id: Id8,
    meta: Meta,
}

impl Model for Node {
    ghost use Rattle.zarr_tree.specs.Nodes.{Node as TheNode};
    ghost use Rattle.zarr_tree.specs.Codes.{coded_node};

    ghost Value = { TheNode };

    ghost coded = { coded_node };

    ghost view = { λ n. record { id = n.id; text = n.meta.text } };
}

impl Node {
    /// The node of this id with this metadata.
    pub fn new(id: Id8, meta: Meta) -> Node
        ensures { result ≡ record { id = id; text = meta.text } }
    {
        Node { id, meta }
    }

    /// As it is found in a tree.
    pub fn found(&self) -> Found<'_>
        ensures { node_found result ≡ self.now }
    {
        Found {
            id: self.id,
            meta: &self.meta,
        }
    }

    /// The same node once more.
    pub fn copy(&self, alloc: Global) -> Result<Node, AllocError>
        ensures { IfOk result (λ n. n ≡ self.now) }
    {
        Ok(Node {
            id: self.id,
            meta: self.meta.copy(alloc)?,
        })
    }
}

/// A node as it was found in a tree.
#[derive(Clone, Copy, Debug)]
pub struct Found<'a> {
    /// The node's id.
    pub id: Id8,
    /// Its metadata.
    pub meta: &'a Meta,
}

/// What has nodes at paths, as a tree has. None of its calls takes memory.
pub trait TreeLike {
    /// The nodes, by their paths.
    ghost nodes: { Self → map.FinMap path_cmp TheNode };

    /// The node at a path, found by halves; `None` exactly where there is none.
    fn find(&self, path: &str) -> Option<Found<'_>>
        ensures { option_map node_found result ≡ map.get (nodes self.now) path.now };

    /// How many nodes there are.
    fn len(&self) -> usize
        ensures { result ≡ map.len (nodes self.now) };

    /// Node number `at` in the order of the bytes of the paths, with its path, which is that of a node.
    fn row(&self, at: usize) -> (&str, Found<'_>)
        requires { at < map.len (nodes self.now) }
        ensures row { slice_get (map.entries (nodes self.now)) at
            ≡ Some (result.0.now, node_found result.1) }
        ensures path { IsTrue (is_path result.0.now) };
}
