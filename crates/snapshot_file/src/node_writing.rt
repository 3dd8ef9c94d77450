ghost use Rattle.std.specs.Prelude.{◌≡◌, IsTrue, IfOk, OnOk, IfSome};
ghost use Rattle.std.specs.List.{AllByRecursion};
ghost use Rattle.flat_tables.specs.Layout.{part_if};
ghost use Rattle.flat_tables.specs.Trees.{layout, part_of, is_writable, is_writable_slot};
ghost use Rattle.snapshot_file.specs.Layout.{text_part, name_block, names_part, extents_part, manifest_block, manifests_part, shape_part, kind_block, type_of, node_block, IsDimension, IsExtent, IsName, IsManifest, IsKind, IsNode};

use crate::fields::{data_slot, dimension_bytes, extent_bytes, path_slot, text_slot, u8_slot};
use crate::lists::{Extents, Names, Shape};
use crate::nodes::{ManifestRef, NodeKind, NodeRow};
use file_fields::{id8_slot, id12_slot};
use flat_tables::{Flat, Slot};
use ice_base::Text;
use ice_items::Items;
use std::alloc::{AllocError, Global};

/// The shape of an array.
fn shape_slot(alloc: Global, shape: &Shape) -> Result<Slot, AllocError>
    ensures part { IfOk result (λ s. part_of s ≡ shape_part shape.now) }
    ensures writable { IfOk result (λ s. IsTrue (is_writable_slot s)) }
    ensures sized { OnOk result (AllByRecursion IsDimension shape.now) }
{
    let mut bytes: Vec<u8> = Vec::new(alloc);
    for dimension in shape.as_slice() {
        bytes.extend_from_slice(&dimension_bytes(dimension))?;
    }
    Ok(Slot::Structs {
        align: 8,
        size: 16,
        bytes,
    })
}

/// The extents of a manifest.
fn extents_slot(alloc: Global, extents: &Extents) -> Result<Slot, AllocError>
    ensures part { IfOk result (λ s. part_of s ≡ extents_part extents.now) }
    ensures writable { IfOk result (λ s. IsTrue (is_writable_slot s)) }
    ensures sized { OnOk result (AllByRecursion IsExtent extents.now) }
{
    let mut bytes: Vec<u8> = Vec::new(alloc);
    for extent in extents.as_slice() {
        bytes.extend_from_slice(&extent_bytes(extent))?;
    }
    Ok(Slot::Structs {
        align: 4,
        size: 8,
        bytes,
    })
}

/// The name of a dimension, where it has one.
fn name_slot(alloc: Global, name: &Option<Text>) -> Result<Slot, AllocError>
    ensures part { IfOk result (λ s. part_of s ≡ part_if text_part name.now) }
    ensures writable { IfOk result (λ s. IsTrue (is_writable_slot s)) }
    ensures sized { OnOk result (IsName name.now) }
{
    match name {
        None => Ok(Slot::Absent),
        Some(name) => text_slot(alloc, name.as_str()),
    }
}

/// The table of a dimension's name.
fn name_table(alloc: Global, name: &Option<Text>) -> Result<Flat, AllocError>
    ensures block { IfOk result (λ f. layout f ≡ name_block name.now) }
    ensures writable { IfOk result (λ f. IsTrue (is_writable f)) }
    ensures sized { OnOk result (IsName name.now) }
{
    let slot = name_slot(alloc, name)?;
    Ok(Flat {
        slots: Vec::from_array(alloc, [slot])?,
    })
}

/// The names of dimensions.
fn names_slot(alloc: Global, names: &Names) -> Result<Slot, AllocError>
    ensures part { IfOk result (λ s. part_of s ≡ names_part names.now) }
    ensures writable { IfOk result (λ s. IsTrue (is_writable_slot s)) }
    ensures sized { OnOk result (AllByRecursion IsName names.now) }
{
    let mut tables: Vec<Flat> = Vec::new(alloc);
    for name in names.as_slice() {
        tables.push(name_table(alloc, name)?)?;
    }
    Ok(Slot::Tables(tables))
}

/// The names of dimensions, where an array has them.
fn names_slot_if(alloc: Global, names: &Option<Names>) -> Result<Slot, AllocError>
    ensures part { IfOk result (λ s. part_of s ≡ part_if names_part names.now) }
    ensures writable { IfOk result (λ s. IsTrue (is_writable_slot s)) }
    ensures sized { OnOk result (IfSome names.now (AllByRecursion IsName)) }
{
    match names {
        None => Ok(Slot::Absent),
        Some(names) => names_slot(alloc, names),
    }
}

/// The table of a manifest.
fn manifest_table(alloc: Global, manifest: &ManifestRef) -> Result<Flat, AllocError>
    ensures block { IfOk result (λ f. layout f ≡ manifest_block manifest.now) }
    ensures writable { IfOk result (λ f. IsTrue (is_writable f)) }
    ensures sized { OnOk result (IsManifest manifest.now) }
{
    let id = id12_slot(alloc, &manifest.id)?;
    let extents = extents_slot(alloc, &manifest.extents)?;
    Ok(Flat {
        slots: Vec::from_array(alloc, [id, extents])?,
    })
}

/// The manifests of an array.
fn manifests_slot(alloc: Global, manifests: &Items<ManifestRef>) -> Result<Slot, AllocError>
    ensures part { IfOk result (λ s. part_of s ≡ manifests_part manifests.now) }
    ensures writable { IfOk result (λ s. IsTrue (is_writable_slot s)) }
    ensures sized { OnOk result (AllByRecursion IsManifest manifests.now) }
{
    let mut tables: Vec<Flat> = Vec::new(alloc);
    for manifest in manifests.as_slice() {
        tables.push(manifest_table(alloc, manifest)?)?;
    }
    Ok(Slot::Tables(tables))
}

/// The table of what a node is.
#[tactic(auto, unfolding(crate::specs::Layout::kind_block))]
fn kind_table(alloc: Global, kind: &NodeKind) -> Result<Flat, AllocError>
    ensures block { IfOk result (λ f. layout f ≡ kind_block kind.now) }
    ensures writable { IfOk result (λ f. IsTrue (is_writable f)) }
    ensures sized { OnOk result (IsKind kind.now) }
{
    match kind {
        NodeKind::Group => Ok(Flat {
            slots: Vec::new(alloc),
        }),
        NodeKind::Array {
            shape,
            names,
            manifests,
        } => {
            let shape = shape_slot(alloc, shape)?;
            let names = names_slot_if(alloc, names)?;
            let manifests = manifests_slot(alloc, manifests)?;
            Ok(Flat {
                slots: Vec::from_array(alloc, [shape, names, manifests])?,
            })
        }
    }
}

/// The number of a node's type.
fn type_of(kind: &NodeKind) -> u8
    ensures { result ≡ type_of kind.now }
{
    match kind {
        NodeKind::Group => 2,
        NodeKind::Array { .. } => 1,
    }
}

/// The table of a node. Its path and its text go into it without a copy.
pub fn node_table(alloc: Global, node: NodeRow) -> Result<Flat, AllocError>
    ensures block { IfOk result (λ f. layout f ≡ node_block node) }
    ensures writable { IfOk result (λ f. IsTrue (is_writable f)) }
    ensures sized { OnOk result (IsNode node) }
{
    let NodeRow {
        id,
        path,
        user_data,
        kind,
    } = node;
    let slots = [
        id8_slot(alloc, &id)?,
        path_slot(path),
        data_slot(user_data),
        u8_slot(type_of(&kind)),
        Slot::Table(kind_table(alloc, &kind)?),
    ];
    Ok(Flat {
        slots: Vec::from_array(alloc, slots)?,
    })
}
