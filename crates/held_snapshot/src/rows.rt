ghost use Rattle.std.specs.Prelude.{◌≡◌, ◌<◌, Ok, Err, IfOk, IsOk, IsOkAnd, IsTrue, MatchResult};
ghost use Rattle.zarr_path.specs.Paths.{is_path};
ghost use Rattle.snapshot_file.specs.Nodes.{node_of, node_at};
ghost use Rattle.snapshot_file.specs.Snapshots.{manifests_named};
ghost use Rattle.held_snapshot.specs.LookUp.{is_array};

use crate::kinds::{HeldKind, held_kind, kind_of};
use crate::manifests::HeldManifestRefs;
use crate::slots::{number_in, table_in, text_in, vector_in};
use file_fields::id8_of;
use flat_tables::{FileFault, Table, Vector};
use ice_base::Bytes;
use ice_ids::Id8;
use snapshot_file::NodeRow;
use std::alloc::{AllocError, Global};
use std::marker::Model;
use zarr_path::{Path, path_fault};

/// A node of a tree, read in place. Contracts see it as the row that it stands for.
#[derive(Drop)]
pub struct HeldNode<'a> {
    at: usize,
    table: Table<'a>,
}

impl<'a> Model for HeldNode<'a> {
    ghost use Rattle.std.specs.Prelude.{IsOk};
    ghost use Rattle.snapshot_file.specs.declared.nodes.NodeRow.{NodeRow as TheRow};
    ghost use Rattle.snapshot_file.specs.Nodes.{node_of};
    ghost use Rattle.held_snapshot.specs.Views.{row_seen};

    ghost Value = { TheRow };

    ghost view = { λ n. row_seen n.at n.table };

    ghost invariant = { λ n. IsOk (node_of n.at n.table) };
}

/// The path of node number `at`, which a table has; else the node's first fault.
#[tactic(auto, unfolding(snapshot_file::specs::Nodes::node_of))]
fn check_node<'a>(at: usize, table: &Table<'a>) -> Result<&'a str, FileFault>
    ensures { MatchResult result
        (λ path. IsOkAnd (node_of at table.now) (λ row. row.path ≡ path.now))
        (λ fault. node_of at table.now ≡ Err fault) }
{
    let _id = id8_of(table, 0)?;
    let path = text_in(table, 1)?;
    let _text = vector_in(table, 2, 1)?;
    let node_type = number_in(table, 3, 1)?;
    let child = table_in(table, 4)?;
    let kind = kind_of(node_type, child)?;
    if path_fault(path).is_some() {
        return Err(FileFault::Path { at });
    }
    if kind.is_none() {
        return Err(FileFault::NodeKind { at });
    }
    Ok(path)
}

/// The path of node number `at`, to which that element leads; else the node's first fault.
#[tactic(auto, unfolding(snapshot_file::specs::Nodes::node_at))]
pub(crate) fn path_at<'a>(vector: &Vector<'a>, at: usize) -> Result<&'a str, FileFault>
    requires below { at < vector.now.count }
    requires offsets { vector.now.size ≡ 4 }
    ensures { MatchResult result
        (λ path. IsOkAnd (node_at vector.now at) (λ row. row.path ≡ path.now))
        (λ fault. node_at vector.now at ≡ Err fault) }
{
    let table = vector.table_at(at)?;
    check_node(at, &table)
}

/// Node number `at`, which was read before.
pub(crate) fn held_node<'a>(vector: &Vector<'a>, at: usize) -> HeldNode<'a>
    requires below { at < vector.now.count }
    requires offsets { vector.now.size ≡ 4 }
    requires read { IsOk (node_at vector.now at) }
    ensures { node_at vector.now at ≡ Ok result }
{
    let table = vector.table_at(at).unwrap();
    HeldNode { at, table }
}

/// The path of this text.
fn path_of(alloc: Global, text: &str) -> Result<Path, AllocError>
    ensures { IfOk result (λ path. path ≡ text.now) }
{
    Path::read(alloc, text).map_err(|_| AllocError)
}

impl<'a> HeldNode<'a> {
    /// The node's own id.
    pub fn id(&self) -> Id8
        ensures { result ≡ self.now.id }
    {
        id8_of(&self.table, 0).unwrap()
    }

    /// Where it stands in the tree.
    pub fn path(&self) -> &'a str
        ensures value { result.now ≡ self.now.path }
        ensures path { IsTrue (is_path result.now) }
    {
        text_in(&self.table, 1).unwrap()
    }

    /// The text of its `zarr.json`, which isn't looked at here.
    pub fn text(&self) -> &'a [u8]
        ensures { result.now ≡ self.now.user_data }
    {
        vector_in(&self.table, 2, 1).unwrap().all()
    }

    /// Whether it is an array. Its type alone is read.
    pub fn is_array(&self) -> bool
        ensures { result ≡ is_array self.now.kind }
    {
        number_in(&self.table, 3, 1).unwrap() == 1
    }

    /// The manifests that it names: those of an array. Of a group its type alone is read.
    pub fn manifests(&self) -> HeldManifestRefs<'a>
        ensures { result ≡ manifests_named self.now.kind }
    {
        if !self.is_array() {
            return HeldManifestRefs::none();
        }
        self.kind().manifests()
    }

    /// What it is.
    pub fn kind(&self) -> HeldKind<'a>
        ensures { result ≡ self.now.kind }
    {
        let node_type = number_in(&self.table, 3, 1).unwrap();
        let child = table_in(&self.table, 4).unwrap();
        held_kind(node_type, child)
    }

    /// The same in memory of its own.
    pub fn copy(&self, alloc: Global) -> Result<NodeRow, AllocError>
        ensures { IfOk result (λ copy. copy ≡ self.now) }
    {
        Ok(NodeRow {
            id: self.id(),
            path: path_of(alloc, self.path())?,
            user_data: Bytes::of(alloc, self.text())?,
            kind: self.kind().copy(alloc)?,
        })
    }
}
