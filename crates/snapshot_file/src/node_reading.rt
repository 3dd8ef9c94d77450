ghost use Rattle.std.specs.Prelude.{◌≡◌, ◌<◌, Ok, map};
ghost use Rattle.flat_tables.specs.Places.{items_of};
ghost use Rattle.flat_tables.specs.Rows.{Reads, required};
ghost use Rattle.snapshot_file.specs.Nodes.{dimension_of, extent_of, manifest_of, manifest_at, manifests_in, manifests_of, name_at, names_in, names_of, shape_of, array_of, kind_of, proper_path, row_of, node_of, node_at};

use crate::lists::{Extents, Names, Shape};
use crate::nodes::{ManifestRef, NodeKind, NodeRow};
use crate::numbers;
use crate::slots::{number_in, table_in, text_in, vector_in};
use file_fields::{id8_of, id12_of};
use flat_tables::{FileFault, Table, Vector};
use ice_base::{Bytes, Text};
use ice_ids::Id8;
use ice_items::Items;
use std::alloc::Global;
use zarr_path::{Path, PathFault};

/// The dimensions in a vector.
fn dimensions_in(alloc: Global, vector: &Vector) -> Result<Shape, FileFault>
    requires { vector.now.size ≡ 16 }
    ensures { Reads (λ x. x) result (Ok (map dimension_of (items_of vector.now))) }
{
    let mut dimensions: Vec<(u64, u64)> = Vec::new(alloc);
    for at in 0..vector.len() {
        dimensions.push(numbers::dimension_of(vector.item(at)))?;
    }
    Ok(Shape::from_vec(dimensions))
}

/// The extents in a vector.
fn extents_in(alloc: Global, vector: &Vector) -> Result<Extents, FileFault>
    requires { vector.now.size ≡ 8 }
    ensures { Reads (λ x. x) result (Ok (map extent_of (items_of vector.now))) }
{
    let mut extents: Vec<(u32, u32)> = Vec::new(alloc);
    for at in 0..vector.len() {
        extents.push(numbers::extent_of(vector.item(at)))?;
    }
    Ok(Extents::from_vec(extents))
}

/// The manifest that a table has.
#[tactic(auto, unfolding(crate::specs::Nodes::manifest_of))]
fn manifest_of(alloc: Global, table: &Table) -> Result<ManifestRef, FileFault>
    ensures { Reads (λ x. x) result (manifest_of table.now) }
{
    let id = id12_of(table, 0)?;
    let vector = vector_in(table, 1, 8)?;
    let extents = extents_in(alloc, &vector)?;
    Ok(ManifestRef { id, extents })
}

/// The manifest that element `at` leads to.
#[tactic(auto, unfolding(crate::specs::Nodes::manifest_at))]
fn manifest_at(alloc: Global, vector: &Vector, at: usize) -> Result<ManifestRef, FileFault>
    requires below { at < vector.now.count }
    requires offsets { vector.now.size ≡ 4 }
    ensures { Reads (λ x. x) result (manifest_at vector.now at) }
{
    let table = vector.table_at(at)?;
    manifest_of(alloc, &table)
}

/// The manifests in a vector.
fn manifests_in(alloc: Global, vector: &Vector) -> Result<Items<ManifestRef>, FileFault>
    requires { vector.now.size ≡ 4 }
    ensures { Reads (λ x. x) result (manifests_in vector.now) }
{
    let mut manifests: Vec<ManifestRef> = Vec::new(alloc);
    for at in 0..vector.len() {
        manifests.push(manifest_at(alloc, vector, at)?)?;
    }
    Ok(Items::from_vec(manifests))
}

/// The manifests of an array, none where the slot is absent.
#[tactic(auto, unfolding(crate::specs::Nodes::manifests_of))]
fn manifests_of(alloc: Global, table: &Table) -> Result<Items<ManifestRef>, FileFault>
    ensures { Reads (λ x. x) result (manifests_of table.now) }
{
    match table.vector(2, 4)? {
        None => Ok(Items::from_vec(Vec::new(alloc))),
        Some(vector) => manifests_in(alloc, &vector),
    }
}

/// The name of the dimension that element `at` leads to.
#[tactic(auto, unfolding(crate::specs::Nodes::name_at))]
fn name_at(alloc: Global, vector: &Vector, at: usize) -> Result<Option<Text>, FileFault>
    requires below { at < vector.now.count }
    requires offsets { vector.now.size ≡ 4 }
    ensures { Reads (λ x. x) result (name_at vector.now at) }
{
    let table = vector.table_at(at)?;
    match table.text(0)? {
        None => Ok(None),
        Some(name) => Ok(Some(Text::of(alloc, name)?)),
    }
}

/// The names in a vector.
fn names_in(alloc: Global, vector: &Vector) -> Result<Names, FileFault>
    requires { vector.now.size ≡ 4 }
    ensures { Reads (λ x. x) result (names_in vector.now) }
{
    let mut names: Vec<Option<Text>> = Vec::new(alloc);
    for at in 0..vector.len() {
        names.push(name_at(alloc, vector, at)?)?;
    }
    Ok(Names::from_vec(names))
}

/// The names of an array's dimensions, where it has any.
#[tactic(auto, unfolding(crate::specs::Nodes::names_of))]
fn names_of(alloc: Global, table: &Table) -> Result<Option<Names>, FileFault>
    ensures { Reads (λ x. x) result (names_of table.now) }
{
    match table.vector(1, 4)? {
        None => Ok(None),
        Some(vector) => Ok(Some(names_in(alloc, &vector)?)),
    }
}

/// The shape of an array.
#[tactic(auto, unfolding(crate::specs::Nodes::shape_of))]
fn shape_of(alloc: Global, table: &Table) -> Result<Shape, FileFault>
    ensures { Reads (λ x. x) result (shape_of table.now) }
{
    let vector = vector_in(table, 0, 16)?;
    dimensions_in(alloc, &vector)
}

/// The array that a table has.
#[tactic(auto, unfolding(crate::specs::Nodes::array_of))]
fn array_of(alloc: Global, table: &Table) -> Result<NodeKind, FileFault>
    ensures { Reads (λ x. x) result (array_of table.now) }
{
    let shape = shape_of(alloc, table)?;
    let names = names_of(alloc, table)?;
    let manifests = manifests_of(alloc, table)?;
    Ok(NodeKind::Array {
        shape,
        names,
        manifests,
    })
}

/// What a node of a type is by its table, and `None` where the type is neither 1 nor 2.
#[tactic(auto, unfolding(crate::specs::Nodes::kind_of))]
fn kind_of(alloc: Global, node_type: u64, table: &Table) -> Result<Option<NodeKind>, FileFault>
    ensures { Reads (λ x. x) result (kind_of node_type table.now) }
{
    match node_type {
        1 => Ok(Some(array_of(alloc, table)?)),
        2 => Ok(Some(NodeKind::Group)),
        _ => Ok(None),
    }
}

/// The path of node number `at`.
fn path_of(alloc: Global, at: usize, text: &str) -> Result<Path, FileFault>
    ensures { Reads (λ x. x) result (proper_path at text.now) }
{
    match Path::read(alloc, text) {
        Ok(path) => Ok(path),
        Err(PathFault::NoMemory) => Err(FileFault::NoMemory),
        Err(_) => Err(FileFault::Path { at }),
    }
}

/// A node at a path.
fn row_at(
    alloc: Global,
    id: Id8,
    path: Path,
    bytes: &[u8],
    kind: NodeKind,
) -> Result<NodeRow, FileFault>
    ensures { Reads (λ x. x) result
        (Ok (record { id = id; path = path; user_data = bytes.now; kind = kind })) }
{
    match Bytes::of(alloc, bytes) {
        Ok(user_data) => Ok(NodeRow {
            id,
            path,
            user_data,
            kind,
        }),
        Err(_) => {
            drop(kind);
            Err(FileFault::NoMemory)
        }
    }
}

/// Node number `at`, by what its slots have.
fn row_of(
    alloc: Global,
    at: usize,
    id: Id8,
    text: &str,
    bytes: &[u8],
    kind: Option<NodeKind>,
) -> Result<NodeRow, FileFault>
    ensures { Reads (λ x. x) result (row_of at id text.now bytes.now kind) }
{
    match (path_of(alloc, at, text), kind) {
        (Ok(path), Some(kind)) => row_at(alloc, id, path, bytes, kind),
        (Ok(_), None) => Err(FileFault::NodeKind { at }),
        (Err(fault), kind) => {
            drop(kind);
            Err(fault)
        }
    }
}

/// Node number `at`, which a table has.
#[tactic(auto, unfolding(crate::specs::Nodes::node_of))]
fn node_of(alloc: Global, at: usize, table: &Table) -> Result<NodeRow, FileFault>
    ensures { Reads (λ x. x) result (node_of at table.now) }
{
    let id = id8_of(table, 0)?;
    let text = text_in(table, 1)?;
    let vector = vector_in(table, 2, 1)?;
    let node_type = number_in(table, 3, 1)?;
    let data = table_in(table, 4)?;
    let kind = kind_of(alloc, node_type, &data)?;
    row_of(alloc, at, id, text, vector.all(), kind)
}

/// Node number `at`, to which that element leads.
#[tactic(auto, unfolding(crate::specs::Nodes::node_at))]
pub fn node_at(alloc: Global, vector: &Vector, at: usize) -> Result<NodeRow, FileFault>
    requires below { at < vector.now.count }
    requires offsets { vector.now.size ≡ 4 }
    ensures { Reads (λ x. x) result (node_at vector.now at) }
{
    let table = vector.table_at(at)?;
    node_of(alloc, at, &table)
}
