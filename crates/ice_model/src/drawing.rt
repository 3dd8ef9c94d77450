//! Edits that are drawn. Paths, indices and bytes are few, so that edits often meet.
//! What is drawn is left open.

ghost use Rattle.std.specs.Prelude.{◌≡◌, IfOk};

use crate::dice::Dice;
use ice_ids::Id8;
use ice_items::Items;
use std::alloc::{AllocError, Global};
use tree_model::{Edit, Nodes, refusal};
use zarr_meta::{IntKind, Meta};
use zarr_path::{Index, Path};

/// The paths, in the order of their bytes. Some are others' beginnings, and some stand between a path and those beneath it.
pub const PATHS: [&str; 11] = [
    "/", "/a", "/a-b", "/a/a", "/a/a/b", "/a/b", "/ab", "/b", "/b-", "/b/a", "/b/a/a",
];

/// The indices of chunks, in their order.
pub const INDICES: [&[u32]; 8] = [&[], &[0], &[0, 0], &[0, 1], &[1], &[1, 0], &[2], &[3]];

/// The index of the first chunk of a line.
const FIRST: &[u32] = &[0];

/// The text of a group that has an attribute.
const NOTED: &[u8] = br#"{"zarr_format":3,"node_type":"group","attributes":{"x":1}}"#;

/// A node's id is drawn again in one of so many additions.
const AGAIN: u32 = 24;

/// How often an edit is drawn at most before one is taken that may be refused.
const DRAWS: u32 = 24;

/// The ids that were drawn.
#[derive(Clone, Copy)]
pub struct Numbers {
    /// How many there were.
    pub drawn: u32,
    /// Whether each was a new one.
    pub fresh: bool,
}

/// The id of a number.
fn id_of(number: u32) -> Id8 {
    let [a, b, c, d] = number.to_be_bytes();
    Id8([d, c, b, a, 0, 0, 0, 1])
}

/// An id: mostly a new one.
fn draw_id(dice: &mut Dice, numbers: &mut Numbers) -> Id8 {
    if numbers.drawn > 0 && dice.below(AGAIN) == 0 {
        numbers.fresh = false;
        return id_of(dice.below(numbers.drawn));
    }
    let number = numbers.drawn;
    numbers.drawn = number.saturating_add(1);
    id_of(number)
}

/// The path of a text, which is that of a path.
pub fn path_of(alloc: Global, text: &str) -> Result<Path, AllocError>
    ensures { IfOk result (λ path. path ≡ text.now) }
{
    Path::read(alloc, text).ok().ok_or(AllocError)
}

/// The index of these numbers.
pub fn index_of(alloc: Global, numbers: &[u32]) -> Result<Index, AllocError>
    ensures { IfOk result (λ index. index ≡ numbers.now) }
{
    Ok(Index::from_parts(Vec::from_slice(alloc, numbers)?))
}

/// The edit that sets a chunk.
pub fn set_edit(
    alloc: Global,
    path: &Path,
    numbers: &[u32],
    bytes: &[u8],
) -> Result<Edit, AllocError> {
    Ok(Edit::Set {
        path: path.copy(alloc)?,
        index: index_of(alloc, numbers)?,
        bytes: Items::from_vec(Vec::from_slice(alloc, bytes)?),
    })
}

/// A path.
pub fn draw_path(alloc: Global, dice: &mut Dice) -> Result<Path, AllocError> {
    path_of(alloc, dice.one_of(PATHS.as_slice()).copied().unwrap_or("/"))
}

/// The index of a chunk: that of the first one of a line mostly.
fn draw_index(alloc: Global, dice: &mut Dice) -> Result<Index, AllocError> {
    if dice.below(2) == 0 {
        return index_of(alloc, FIRST);
    }
    let numbers = dice.one_of(INDICES.as_slice());
    index_of(alloc, numbers.copied().unwrap_or(FIRST))
}

/// The metadata of an array.
fn array(
    alloc: Global,
    kind: IntKind,
    shape: &[u64],
    chunks: &[u64],
    fill: i128,
) -> Result<Meta, AllocError> {
    Meta::plain_array(alloc, kind, shape, chunks, fill)
        .ok()
        .ok_or(AllocError)
}

/// The metadata of a group that has an attribute.
fn noted(alloc: Global) -> Result<Meta, AllocError> {
    Meta::read(alloc, NOTED).ok().ok_or(AllocError)
}

/// Metadata: groups, and arrays that differ in what stays, or in what may change.
fn draw_meta(alloc: Global, dice: &mut Dice) -> Result<Meta, AllocError> {
    match dice.below(14) {
        0..=3 => Meta::plain_group(alloc),
        4 => noted(alloc),
        5..=7 | 11 | 12 => array(alloc, IntKind::Uint8, &[4], &[2], 0),
        8 => array(alloc, IntKind::Uint8, &[6], &[2], 0),
        9 => array(alloc, IntKind::Uint8, &[2], &[2], 1),
        10 => array(alloc, IntKind::Int16, &[4], &[1], 0),
        _ => array(alloc, IntKind::Uint8, &[2, 3], &[1, 2], 0),
    }
}

/// Bytes of a chunk: two mostly, which is what all arrays ask for.
fn draw_bytes(alloc: Global, dice: &mut Dice) -> Result<Items<u8>, AllocError> {
    let byte = dice.below(3) as u8;
    let bytes = if dice.below(8) == 0 {
        Vec::from_slice(alloc, &[byte, 7, 7])?
    } else {
        Vec::from_slice(alloc, &[byte, 7])?
    };
    Ok(Items::from_vec(bytes))
}

/// A node more.
fn draw_addition(
    alloc: Global,
    dice: &mut Dice,
    numbers: &mut Numbers,
) -> Result<Edit, AllocError> {
    Ok(Edit::Add {
        path: draw_path(alloc, dice)?,
        id: draw_id(dice, numbers),
        meta: draw_meta(alloc, dice)?,
    })
}

/// An edit.
fn draw_edit(alloc: Global, dice: &mut Dice, numbers: &mut Numbers) -> Result<Edit, AllocError> {
    match dice.below(20) {
        0..=4 => draw_addition(alloc, dice, numbers),
        5..=7 => Ok(Edit::SetMeta {
            path: draw_path(alloc, dice)?,
            meta: draw_meta(alloc, dice)?,
        }),
        8 => Ok(Edit::Drop {
            path: draw_path(alloc, dice)?,
        }),
        9..=16 => Ok(Edit::Set {
            path: draw_path(alloc, dice)?,
            index: draw_index(alloc, dice)?,
            bytes: draw_bytes(alloc, dice)?,
        }),
        _ => Ok(Edit::Unset {
            path: draw_path(alloc, dice)?,
            index: draw_index(alloc, dice)?,
        }),
    }
}

/// An edit that these nodes take, if one comes soon: else one that is refused.
pub fn draw_for(
    alloc: Global,
    dice: &mut Dice,
    numbers: &mut Numbers,
    nodes: &Nodes,
) -> Result<Edit, AllocError> {
    for _ in 0..dice.below(DRAWS) {
        let mut after = *numbers;
        let edit = draw_edit(alloc, dice, &mut after)?;
        if refusal(nodes, &edit).is_none() {
            *numbers = after;
            return Ok(edit);
        }
        drop(edit);
    }
    draw_edit(alloc, dice, numbers)
}

/// The root group, with which most trees begin.
pub fn root(alloc: Global, numbers: &mut Numbers) -> Result<Edit, AllocError> {
    let number = numbers.drawn;
    numbers.drawn = number.saturating_add(1);
    Ok(Edit::Add {
        path: path_of(alloc, "/")?,
        id: id_of(number),
        meta: Meta::plain_group(alloc)?,
    })
}
