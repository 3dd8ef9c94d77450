//! Boxes of cells: whether they lie in an array, how many cells they have, and which chunks they meet.

ghost use Rattle.std.specs.Prelude.{◌≡◌, ◌≤◌, ◌<◌, ◌^◌, ◌↔◌, ℕ, [], length, get_or, IfOk, IsTrue, IsSome, MatchOption};
ghost use Rattle.zarr_meta.specs.declared.kinds.IntKind.{IntKind as TheKind};
ghost use Rattle.region_cells.specs.Boxes.{count_of};
ghost use Rattle.region_cells.specs.Walks.{are_at_most, is_in_shape, count_within, most_cells, chunks_met, AreGridded, IsFirstOutside};
ghost use Rattle.region_cells.specs.Rows.{AreInRange};

use std::alloc::{AllocError, Global};
use zarr_meta::IntKind;
use zarr_path::Index;

/// The most cells of a box.
pub const MOST_CELLS: usize = 1_048_576;

/// Whether no number is above the one at its place in the second list.
fn are_at_most(numbers: &[u64], limits: &[u64]) -> bool
    ensures { result ≡ are_at_most numbers.now limits.now }
{
    numbers
        .iter()
        .zip(limits)
        .all(|(number, limit)| *number <= *limit)
}

/// Whether a box lies in an array of this shape: it has the array's dimensions, and along each it ends neither before it
/// begins nor behind the array. It takes no memory.
pub fn is_in_shape(shape: &[u64], from: &[u64], to: &[u64]) -> bool
    ensures { result ≡ is_in_shape shape.now from.now to.now }
{
    from.len() == shape.len()
        && to.len() == shape.len()
        && are_at_most(from, to)
        && are_at_most(to, shape)
}

/// Whether a box has no cells.
fn is_empty(from: &[u64], to: &[u64]) -> bool
    ensures { IsTrue result ↔ (count_of from.now to.now ≡ 0) }
{
    for (first, end) in from.iter().zip(to) {
        if first >= end {
            return true;
        }
    }
    false
}

/// How many cells a box has, if they aren't too many. It takes no memory.
pub fn count_within(from: &[u64], to: &[u64]) -> Option<usize>
    ensures { result ≡ count_within from.now to.now }
{
    if is_empty(from, to) {
        return Some(0);
    }
    let mut count = 1;
    for (first, end) in from.iter().zip(to) {
        let length = *end - *first;
        if length > MOST_CELLS as u64 {
            return None;
        }
        count *= length as usize;
        if count > MOST_CELLS {
            return None;
        }
    }
    Some(count)
}

/// The first cell whose number the type doesn't hold. It takes no memory.
pub fn first_outside(kind: IntKind, cells: &[i128]) -> Option<usize>
    ensures { MatchOption result (AreInRange kind cells.now) (IsFirstOutside kind cells.now) }
{
    for at in 0..cells.len() {
        if !kind.holds(cells[at]) {
            return Some(at);
        }
    }
    None
}

/// How many chunks of these lengths a box meets. It takes no memory.
pub fn count_chunks(chunks: &[u64], from: &[u64], to: &[u64]) -> usize
    requires gridded { AreGridded chunks.now from.now to.now }
    requires few { count_of from.now to.now ≤ most_cells }
    ensures { result ≡ length (chunks_met chunks.now from.now to.now) }
{
    if is_empty(from, to) {
        return 0;
    }
    let mut count = 1;
    for ((chunk, first), end) in chunks.iter().zip(from).zip(to) {
        count *= (end.div_ceil(*chunk) - *first / *chunk) as usize;
    }
    count
}

/// The index of a chunk that a box meets, by its number among these.
pub fn chunk_met(
    alloc: Global,
    chunks: &[u64],
    from: &[u64],
    to: &[u64],
    at: usize,
) -> Result<Index, AllocError>
    requires gridded { AreGridded chunks.now from.now to.now }
    requires few { count_of from.now to.now ≤ most_cells }
    requires within { at < length (chunks_met chunks.now from.now to.now) }
    ensures { IfOk result (λ index. index ≡ get_or (chunks_met chunks.now from.now to.now) at []) }
{
    let mut count = count_chunks(chunks, from, to);
    let mut rest = at;
    let mut numbers = Vec::new(alloc);
    for ((chunk, first), end) in chunks.iter().zip(from).zip(to) {
        let number = *first / *chunk;
        count /= (end.div_ceil(*chunk) - number) as usize;
        numbers.push((number + (rest / count) as u64) as u32)?;
        rest %= count;
    }
    Ok(Index::from_parts(numbers))
}
