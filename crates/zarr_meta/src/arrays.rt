//! The view of a value, or its first fault.

ghost use Rattle.std.specs.Prelude.{◌≡◌};
ghost use Rattle.serde_json.specs.View.{view};
ghost use Rattle.zarr_meta.specs.Meta.{known_members, array_of, group_of, view_of, Tells};

use crate::codecs::big_of;
use crate::extras::least_extra;
use crate::faults::MetaFault;
use crate::names::names_of;
use crate::parts::{
    fill_of, has_attributes, has_encoding, has_format, has_no_transformers, kind_of, node_type_of,
};
use crate::shapes::{chunks_of, shape_of};
use crate::views::{ArrayView, MetaView, NodeType};
use ice_base::Text;
use serde_json::Value;
use std::alloc::Global;

/// Refuses unknown members.
fn known_members(alloc: Global, node_type: NodeType, value: &Value) -> Result<(), MetaFault>
    ensures { Tells (known_members node_type (view value.now)) result }
{
    let Some(members) = value.as_object() else {
        return Err(MetaFault::Json);
    };
    match least_extra(node_type, members) {
        Some(name) => Err(MetaFault::Extra(Text::of(alloc, name)?)),
        None => Ok(()),
    }
}

/// The view of an array.
#[tactic(auto, unfolding(crate::specs::Meta::array_of))]
fn array_of(alloc: Global, value: &Value) -> Result<ArrayView, MetaFault>
    ensures { Tells (array_of (view value.now)) result }
{
    let shape = shape_of(alloc, value)?.ok_or(MetaFault::Shape)?;
    let kind = kind_of(value).ok_or(MetaFault::DataType)?;
    let chunks = chunks_of(alloc, kind, shape.as_slice(), value)?.ok_or(MetaFault::Grid)?;
    if !has_encoding(value) {
        return Err(MetaFault::KeyEncoding);
    }
    let fill = fill_of(kind, value).ok_or(MetaFault::Fill)?;
    let big = big_of(kind, value).ok_or(MetaFault::Codec)?;
    if !has_no_transformers(value) {
        return Err(MetaFault::Transformers);
    }
    if !has_attributes(value) {
        return Err(MetaFault::Attributes);
    }
    let names = names_of(alloc, shape.as_slice().len(), value)?.ok_or(MetaFault::Names)?;
    known_members(alloc, NodeType::Array, value)?;
    Ok(ArrayView {
        shape,
        chunks,
        kind,
        big,
        fill,
        names,
    })
}

/// The view of a group.
#[tactic(auto, unfolding(crate::specs::Meta::group_of))]
fn group_of(alloc: Global, value: &Value) -> Result<MetaView, MetaFault>
    ensures { Tells (group_of (view value.now)) result }
{
    if !has_attributes(value) {
        return Err(MetaFault::Attributes);
    }
    known_members(alloc, NodeType::Group, value)?;
    Ok(MetaView::Group)
}

/// The view of a value.
#[tactic(auto, unfolding(crate::specs::Meta::view_of))]
pub fn view_of(alloc: Global, value: &Value) -> Result<MetaView, MetaFault>
    ensures { Tells (view_of (view value.now)) result }
{
    if !value.is_object() {
        return Err(MetaFault::Json);
    }
    if !has_format(value) {
        return Err(MetaFault::Format);
    }
    match node_type_of(value).ok_or(MetaFault::NodeType)? {
        NodeType::Group => group_of(alloc, value),
        NodeType::Array => Ok(MetaView::Array(array_of(alloc, value)?)),
    }
}
