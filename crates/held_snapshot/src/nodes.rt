ghost use Rattle.std.specs.Prelude.{◌≡◌, ◌<◌, ◌≤◌, Ok, Some, None, length, slice_get, IsOk};
ghost use Rattle.flat_tables.specs.Rows.{Ascends};
ghost use Rattle.snapshot_file.specs.Snapshots.{node_limit, node_key, nodes_in, nodes_of};
ghost use Rattle.held_snapshot.specs.LookUp.{row_place, row_at};

use crate::order::text_follows;
use crate::rows::{HeldNode, held_node, path_at};
use crate::slots::vector_in;
use flat_tables::{FileFault, Table, Vector};
use snapshot_file::{NODE_LIMIT, NodeRow, RowSource};
use std::alloc::{AllocError, Global};
use std::cmp::Ordering;
use std::marker::Model;

/// The nodes of a snapshot, read in place. Contracts see them as the list of the rows that they stand for.
#[derive(Drop)]
pub struct HeldNodes<'a> {
    vector: Vector<'a>,
}

impl<'a> Model for HeldNodes<'a> {
    ghost use Rattle.std.specs.Prelude.{List, ◌≡◌, ◌≤◌, IsOk};
    ghost use Rattle.snapshot_file.specs.declared.nodes.NodeRow.{NodeRow as TheRow};
    ghost use Rattle.snapshot_file.specs.Snapshots.{node_limit, nodes_in};
    ghost use Rattle.held_manifest.specs.Views.{rows_or_none};

    ghost Value = { List TheRow };

    ghost view = { λ n. rows_or_none (nodes_in n.vector) };

    ghost invariant = { λ n. IsOk (nodes_in n.vector) × (n.vector.size ≡ 4) × (n.vector.count ≤ node_limit) };
}

/// The nodes of a vector, which stand in order; else the first fault.
fn nodes_in<'a>(vector: Vector<'a>) -> Result<HeldNodes<'a>, FileFault>
    requires offsets { vector.size ≡ 4 }
    requires few { vector.count ≤ node_limit }
    ensures { result ≡ nodes_in vector.entry }
{
    let mut last: Option<&'a str> = None;
    for at in 0..vector.len() {
        let path = path_at(&vector, at)?;
        if !text_follows(last, path) {
            return Err(FileFault::Order { slot: 2, at });
        }
        last = Some(path);
    }
    Ok(HeldNodes { vector })
}

/// The nodes of a snapshot's table; else the first fault.
#[tactic(auto, unfolding(snapshot_file::specs::Snapshots::nodes_of))]
pub(crate) fn nodes_of<'a>(table: &Table<'a>) -> Result<HeldNodes<'a>, FileFault>
    ensures { result ≡ nodes_of table.now }
{
    let vector = vector_in(table, 2, 4)?;
    if vector.len() > NODE_LIMIT {
        return Err(FileFault::Limit);
    }
    nodes_in(vector)
}

/// The nodes of a snapshot's table, which were read before.
pub(crate) fn held_nodes<'a>(table: &Table<'a>) -> HeldNodes<'a>
    requires { IsOk (nodes_of table.now) }
    ensures { nodes_of table.now ≡ Ok result }
{
    let vector = vector_in(table, 2, 4).unwrap();
    HeldNodes { vector }
}

impl<'a> HeldNodes<'a> {
    /// How many nodes there are. They stand in the strict order of their paths' bytes.
    pub fn len(&self) -> usize
        ensures count { result ≡ length self.now }
        ensures order { Ascends node_key None self.now }
        ensures few { result ≤ node_limit }
    {
        self.vector.len()
    }

    /// Node number `i`, in their order.
    pub fn at(&self, i: usize) -> HeldNode<'a>
        requires { i < length self.now }
        ensures { slice_get self.now i ≡ Some result }
    {
        held_node(&self.vector, i)
    }

    /// The number of the node at a path; `None` exactly where there is none. The search goes by halves.
    pub fn place(&self, path: &str) -> Option<usize>
        ensures { result ≡ row_place self.now path.now }
    {
        let mut low = 0;
        let mut high = self.len();
        while low < high {
            let middle = low + (high - low) / 2;
            match self.at(middle).path().cmp(path) {
                Ordering::Less => low = middle + 1,
                Ordering::Equal => return Some(middle),
                Ordering::Greater => high = middle,
            }
        }
        None
    }

    /// The node at a path; `None` exactly where there is none. The search goes by halves.
    pub fn find(&self, path: &str) -> Option<HeldNode<'a>>
        ensures { result ≡ row_at self.now path.now }
    {
        match self.place(path) {
            None => None,
            Some(i) => Some(self.at(i)),
        }
    }
}

impl<'a> RowSource for HeldNodes<'a> {
    ghost rows = { λ nodes. nodes };

    fn len(&self) -> usize {
        self.len()
    }

    fn row(&self, alloc: Global, at: usize) -> Result<NodeRow, AllocError> {
        self.at(at).copy(alloc)
    }
}
