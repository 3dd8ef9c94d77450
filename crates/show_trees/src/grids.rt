//! Grids of chunks. Shapes, chunks, indices and cells are words like `5,6`, and `-` without dimensions.

ghost use Rattle.std.specs.Prelude.{◌≤◌, All, IsTrue};

use show_files::{NoAnswer, first_word, index_of, numbers_of, said, two_words};
use std::alloc::Global;
use zarr_grid::{grid, in_grid};

/// How many chunks lie along each dimension.
pub fn tell_grid(alloc: Global, text: &str) -> Result<String, NoAnswer> {
    let (shape, chunks) = two_words(text);
    let shape = numbers_of(alloc, shape)?;
    let chunks = numbers_of(alloc, chunks)?;
    if shape.len() != chunks.len() || !are_positive(&chunks) {
        return Err(NoAnswer::Words);
    }
    let counts = grid(alloc, &shape, &chunks)?;
    Ok(format!(in alloc; "{counts:?}")?)
}

/// Whether each number is at least 1.
fn are_positive(numbers: &[u64]) -> bool
    ensures { IsTrue result → All (λ n. 1 ≤ n) numbers.now }
{
    numbers.iter().all(|number| 1 <= *number)
}

/// Whether a chunk of this index lies in the grid.
pub fn tell_in_grid(alloc: Global, text: &str) -> Result<String, NoAnswer> {
    let (shape, rest) = first_word(text);
    let (chunks, index) = first_word(rest);
    let shape = numbers_of(alloc, shape)?;
    let chunks = numbers_of(alloc, chunks)?;
    if shape.len() != chunks.len() || !are_positive(&chunks) {
        return Err(NoAnswer::Words);
    }
    let index = index_of(alloc, index)?;
    Ok(String::from_str(alloc, said(in_grid(&shape, &chunks, &index)))?)
}
