//! Lists of numbers.

ghost use Rattle.std.specs.Prelude.{◌≡◌, IfOk};
ghost use Rattle.script_values.specs.Values.{wide_of, numbers_of, index_part_of, index_of, long_of, corner_of, fill_of, cells_of};
ghost use Rattle.script_values.specs.Words.{parts};
ghost use Rattle.script_values.specs.Parts.{each};
ghost use Rattle.script_values.specs.SoFar.{parts_seen};

use crate::kinds::ScriptKind;
use crate::parts::with_part;
use crate::values::{fill_in, long_in, number_in, wide_in};
use crate::words::cut;
use ice_items::Items;
use std::alloc::{AllocError, Global};
use zarr_path::Index;

/// A number as it stands in a list.
trait Listed: Drop {
    ghost use Rattle.std.specs.Prelude.{ℕ, List, Result};
    ghost use Rattle.script_values.specs.declared.kinds.ScriptKind.{ScriptKind as TheKind};

    /// What a word stands for.
    ghost stands_for: { List ℕ → Result Self TheKind };

    /// The number that a word stands for.
    fn read(word: &str) -> Result<Self, ScriptKind>
        ensures { result ≡ stands_for word.now };
}

impl Listed for u32 {
    ghost stands_for = { index_part_of };

    fn read(word: &str) -> Result<u32, ScriptKind> {
        number_in(word, 0, u32::MAX)
    }
}

impl Listed for u64 {
    ghost stands_for = { long_of };

    fn read(word: &str) -> Result<u64, ScriptKind> {
        long_in(word)
    }
}

impl Listed for u128 {
    ghost stands_for = { wide_of };

    fn read(word: &str) -> Result<u128, ScriptKind> {
        wide_in(word)
    }
}

impl Listed for i128 {
    ghost stands_for = { fill_of };

    fn read(word: &str) -> Result<i128, ScriptKind> {
        fill_in(word)
    }
}

/// The numbers that stand between a word's commas, or the earliest of their faults.
fn listed_in<N: Listed>(alloc: Global, word: &str) -> Result<Result<Vec<N>, ScriptKind>, AllocError>
    ensures { IfOk result (λ r. parts_seen r ≡ each N.stands_for (parts 44 word.now)) }
{
    let mut numbers = Ok(Vec::new(alloc));
    let mut left = Some(word);
    while let Some(rest) = left {
        let (number, after) = cut(rest, ',');
        numbers = with_part(numbers, N::read(number))?;
        left = after;
    }
    Ok(numbers)
}

/// The numbers that a word lists, of which `-` lists none.
#[tactic(auto, unfolding(crate::specs::Values::numbers_of))]
pub fn numbers_in(alloc: Global, word: &str) -> Result<Result<Vec<u128>, ScriptKind>, AllocError>
    ensures { IfOk result (λ r. parts_seen r ≡ numbers_of word.now) }
{
    if word == "-" {
        return Ok(Ok(Vec::new(alloc)));
    }
    listed_in(alloc, word)
}

/// The index that a word lists, of which `-` lists no number.
#[tactic(auto, unfolding(crate::specs::Values::index_of))]
pub fn index_in(alloc: Global, word: &str) -> Result<Result<Index, ScriptKind>, AllocError>
    ensures { IfOk result (λ r. r ≡ index_of word.now) }
{
    if word == "-" {
        return Ok(Ok(Index::from_parts(Vec::new(alloc))));
    }
    match listed_in(alloc, word)? {
        Ok(numbers) => Ok(Ok(Index::from_parts(numbers))),
        Err(kind) => Ok(Err(kind)),
    }
}

/// The corner of a box that a word lists, of which `-` lists no number.
#[tactic(auto, unfolding(crate::specs::Values::corner_of))]
pub fn corner_in(alloc: Global, word: &str) -> Result<Result<Items<u64>, ScriptKind>, AllocError>
    ensures { IfOk result (λ r. r ≡ corner_of word.now) }
{
    if word == "-" {
        return Ok(Ok(Items::new(alloc)));
    }
    match listed_in(alloc, word)? {
        Ok(numbers) => Ok(Ok(Items::from_vec(numbers))),
        Err(kind) => Ok(Err(kind)),
    }
}

/// The numbers of cells that a word lists, of which `-` lists none.
#[tactic(auto, unfolding(crate::specs::Values::cells_of))]
pub fn cells_in(alloc: Global, word: &str) -> Result<Result<Items<i128>, ScriptKind>, AllocError>
    ensures { IfOk result (λ r. r ≡ cells_of word.now) }
{
    if word == "-" {
        return Ok(Ok(Items::new(alloc)));
    }
    match listed_in(alloc, word)? {
        Ok(numbers) => Ok(Ok(Items::from_vec(numbers))),
        Err(kind) => Ok(Err(kind)),
    }
}
