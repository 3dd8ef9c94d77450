//! The lengths of an array's dimensions and of its chunks.

ghost use Rattle.std.specs.Prelude.{◌≡◌, IfOk, option_map};
ghost use Rattle.serde_json.specs.View.{view, items_view};
ghost use Rattle.json_words.specs.Reading.{whole_numbers};
ghost use Rattle.zarr_meta.specs.Kinds.{size_of};
ghost use Rattle.zarr_meta.specs.Parts.{are_short, is_shape, shape_of, chunk_items, chunks_of};

use crate::grids::has_grid;
use crate::kinds::IntKind;
use crate::lists::Lengths;
use crate::parts::is_text;
use serde_json::Value;
use std::alloc::{AllocError, Global};

/// The most dimensions of an array.
const MOST_DIMENSIONS: usize = 32;

/// The greatest length of a dimension.
const MOST_LENGTH: u64 = 0x7fff_ffff_ffff_ffff;

/// The whole numbers of a list, or None where an item isn't one.
fn whole_numbers(alloc: Global, items: &Vec<Value>) -> Result<Option<Lengths>, AllocError>
    ensures { IfOk result (λ numbers. numbers ≡ whole_numbers (items_view items.now.items)) }
{
    let mut numbers = Vec::new(alloc);
    for item in items {
        match item.as_u64() {
            Some(number) => numbers.push(number)?,
            None => return Ok(None),
        }
    }
    Ok(Some(Lengths::from_vec(numbers)))
}

/// Whether no dimension is too long.
fn are_short(shape: &[u64]) -> bool
    ensures { result ≡ are_short shape.now }
{
    shape.iter().all(|length| *length <= MOST_LENGTH)
}

/// Whether these may be the lengths of an array.
fn is_shape(shape: &[u64]) -> bool
    ensures { result ≡ is_shape shape.now }
{
    shape.len() <= MOST_DIMENSIONS && are_short(shape)
}

/// The shape that metadata says.
#[tactic(auto, unfolding(crate::specs::Parts::shape_of))]
pub fn shape_of(alloc: Global, value: &Value) -> Result<Option<Lengths>, AllocError>
    ensures { IfOk result (λ shape. shape ≡ shape_of (view value.now)) }
{
    let Some(items) = value.get("shape").and_then(Value::as_array) else {
        return Ok(None);
    };
    Ok(whole_numbers(alloc, items)?.filter(|shape| is_shape(shape.as_slice())))
}

/// The list of a regular grid's chunk lengths.
#[tactic(auto, unfolding(crate::specs::Parts::chunk_items))]
fn chunk_items(value: &Value) -> Option<&Vec<Value>>
    ensures { option_map (λ items. items_view items.now.items) result
        ≡ chunk_items (view value.now) }
{
    let grid = value.get("chunk_grid")?;
    if !is_text(grid.get("name"), "regular") {
        return None;
    }
    let configuration = grid.get("configuration")?;
    configuration.get("chunk_shape")?.as_array()
}

/// The lengths of chunks that metadata says, for an array of this type and shape.
#[tactic(auto, unfolding(crate::specs::Parts::chunks_of))]
pub fn chunks_of(
    alloc: Global,
    kind: IntKind,
    shape: &[u64],
    value: &Value,
) -> Result<Option<Lengths>, AllocError>
    ensures { IfOk result (λ chunks. chunks ≡ chunks_of kind shape.now (view value.now)) }
{
    let Some(items) = chunk_items(value) else {
        return Ok(None);
    };
    let chunks = whole_numbers(alloc, items)?;
    Ok(chunks.filter(|chunks| has_grid(kind.size(), shape, chunks.as_slice())))
}
