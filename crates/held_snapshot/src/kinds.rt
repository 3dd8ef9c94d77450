ghost use Rattle.std.specs.Prelude.{◌≡◌, Ok, Some, IfOk, IsOkAnd, IsSome};
ghost use Rattle.snapshot_file.specs.Nodes.{array_of, kind_of};
ghost use Rattle.snapshot_file.specs.Snapshots.{manifests_named};
ghost use Rattle.held_manifest.specs.Files.{Checks};
ghost use Rattle.held_snapshot.specs.LookUp.{is_array, shape_named, names_named};

use crate::manifests::{HeldManifestRefs, held_manifests, manifests_of};
use crate::names::{HeldNames, held_names, names_of};
use crate::pairs::{HeldShape, shape_of};
use flat_tables::{FileFault, Table};
use snapshot_file::{Names, NodeKind};
use std::alloc::{AllocError, Global};
use std::marker::Model;

/// What a node is, read in place. Contracts see it as the kind that it stands for.
#[derive(Drop)]
pub struct HeldKind<'a> {
    array: Option<Table<'a>>,
}

impl<'a> Model for HeldKind<'a> {
    ghost use Rattle.std.specs.Prelude.{IsOk, IfSome};
    ghost use Rattle.snapshot_file.specs.declared.nodes.NodeKind.{NodeKind as TheKind};
    ghost use Rattle.snapshot_file.specs.Nodes.{array_of};
    ghost use Rattle.held_snapshot.specs.Views.{kind_seen};

    ghost Value = { TheKind };

    ghost view = { λ k. kind_seen k.array };

    ghost invariant = { λ k. IfSome k.array (λ t. IsOk (array_of t)) };
}

/// Whether a table has an array; else its first fault.
#[tactic(auto, unfolding(snapshot_file::specs::Nodes::array_of))]
fn check_array(table: &Table) -> Result<(), FileFault>
    ensures { Checks result (array_of table.now) }
{
    let _shape = shape_of(table)?;
    let _names = names_of(table)?;
    let _manifests = manifests_of(table)?;
    Ok(())
}

/// What a node of a type is by its table, and `None` where the type is neither 1 nor 2; else the first fault.
#[tactic(auto, unfolding(snapshot_file::specs::Nodes::kind_of))]
pub(crate) fn kind_of<'a>(
    node_type: u64,
    table: Table<'a>,
) -> Result<Option<HeldKind<'a>>, FileFault>
    ensures { result ≡ kind_of node_type table.entry }
{
    match node_type {
        1 => {
            check_array(&table)?;
            Ok(Some(HeldKind { array: Some(table) }))
        }
        2 => Ok(Some(HeldKind { array: None })),
        _ => Ok(None),
    }
}

/// What a node of a type is by its table, which was read before.
pub(crate) fn held_kind<'a>(node_type: u64, table: Table<'a>) -> HeldKind<'a>
    requires { IsOkAnd (kind_of node_type table) (λ kind. IsSome kind) }
    ensures { kind_of node_type table.entry ≡ Ok (Some result) }
{
    let array = if node_type == 1 { Some(table) } else { None };
    HeldKind { array }
}

/// Names in memory of their own, if they are there.
fn copy_names(alloc: Global, names: Option<HeldNames>) -> Result<Option<Names>, AllocError>
    ensures { IfOk result (λ copy. copy ≡ names.entry) }
{
    match names {
        Some(names) => Ok(Some(names.copy(alloc)?)),
        None => Ok(None),
    }
}

impl<'a> HeldKind<'a> {
    /// Whether it is an array.
    pub fn is_array(&self) -> bool
        ensures { result ≡ is_array self.now }
    {
        self.array.is_some()
    }

    /// The length of each dimension of an array, and that of a chunk in it; `None` exactly of a group.
    pub fn shape(&self) -> Option<HeldShape<'a>>
        ensures { result ≡ shape_named self.now }
    {
        match &self.array {
            None => None,
            Some(table) => Some(shape_of(table).unwrap()),
        }
    }

    /// The names of an array's dimensions, where it has any.
    pub fn names(&self) -> Option<HeldNames<'a>>
        ensures { result ≡ names_named self.now }
    {
        match &self.array {
            None => None,
            Some(table) => held_names(table),
        }
    }

    /// The manifests that it names: those of an array.
    pub fn manifests(&self) -> HeldManifestRefs<'a>
        ensures { result ≡ manifests_named self.now }
    {
        match &self.array {
            None => HeldManifestRefs::none(),
            Some(table) => held_manifests(table),
        }
    }

    /// The same in memory of its own.
    pub fn copy(&self, alloc: Global) -> Result<NodeKind, AllocError>
        ensures { IfOk result (λ copy. copy ≡ self.now) }
    {
        let Some(shape) = self.shape() else {
            return Ok(NodeKind::Group);
        };
        Ok(NodeKind::Array {
            shape: shape.copy(alloc)?,
            names: copy_names(alloc, self.names())?,
            manifests: self.manifests().copy(alloc)?,
        })
    }
}
