//! Nodes that are never held all at once.

ghost use Rattle.std.specs.Prelude.{◌≡◌, ◌<◌, ℕ, List, map, length, slice_get, Some, IfOk, IfSome};
ghost use Rattle.snapshot_file.specs.declared.nodes.NodeRow.{NodeRow as TheRow};
ghost use Rattle.snapshot_file.specs.Layout.{node_block, IsNode};

use crate::node_writing::node_table;
use crate::nodes::NodeRow;
use flat_tables::{Flat, TableSource};
use ice_items::Items;
use std::alloc::{AllocError, Global};

/// Nodes of a tree that are made one at a time, where they are written.
pub trait RowSource {
    /// The nodes.
    ghost rows: { Self → List TheRow };

    /// How many they are.
    fn len(&self) -> usize
        ensures { result ≡ length (rows self.now) };

    /// Node number `at`.
    fn row(&self, alloc: Global, at: usize) -> Result<NodeRow, AllocError>
        requires { at < length (rows self.now) }
        ensures { IfOk result (λ row. slice_get (rows self.now) at ≡ Some row) };
}

impl RowSource for Items<NodeRow> {
    ghost rows = { λ rows. rows };

    fn len(&self) -> usize {
        self.len()
    }

    fn row(&self, alloc: Global, at: usize) -> Result<NodeRow, AllocError> {
        self.as_slice()[at].copy(alloc)
    }
}

/// The tables of nodes. Once one was made, its node is known to have what its types say.
#[derive(Clone, Copy)]
pub struct NodeTables<'a, S: RowSource> {
    /// The nodes.
    pub rows: &'a S,
}

impl<'a, S: RowSource> TableSource for NodeTables<'a, S> {
    ghost layouts = { λ tables. map node_block (S.rows tables.rows.now) };

    ghost tells = { λ tables at. IfSome (slice_get (S.rows tables.rows.now) at) IsNode };

    fn len(&self) -> usize {
        self.rows.len()
    }

    fn table(&self, alloc: Global, at: usize) -> Result<Flat, AllocError> {
        let row = self.rows.row(alloc, at)?;
        node_table(alloc, row)
    }
}
