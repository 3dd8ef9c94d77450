//! The grid of an array's chunks.

ghost use Rattle.std.specs.Prelude.{◌≡◌, ◌≤◌, ℕ, length, All, IfOk};
ghost use Rattle.zarr_meta.specs.Grids.{grid_of, are_each_below, is_in_grid, chunk_bytes, most_chunk_bytes};

use std::alloc::{AllocError, Global};
use zarr_path::Index;

/// How many chunks lie along each dimension: its length by the chunk's, rounded up.
pub fn grid(alloc: Global, shape: &[u64], chunks: &[u64]) -> Result<Vec<u64>, AllocError>
    requires ranks { length shape.now ≡ length chunks.now }
    requires positive { All (λ n. 1 ≤ n) chunks.now }
    ensures { IfOk result (λ counts. counts.items ≡ grid_of shape.now chunks.now) }
{
    let mut counts = Vec::new(alloc);
    for (length, chunk) in shape.iter().zip(chunks) {
        counts.push(length.div_ceil(*chunk))?;
    }
    Ok(counts)
}

/// Whether each number of an index is below how many chunks lie along its dimension.
#[tactic(auto, using(crate::proofs::GridEnds::below_at_end))]
fn are_few_before(shape: &[u64], chunks: &[u64], index: &[u32]) -> bool
    requires { All (λ n. 1 ≤ n) chunks.now }
    ensures { result ≡ are_each_below index.now (grid_of shape.now chunks.now) }
{
    for ((number, length), chunk) in index.iter().zip(shape).zip(chunks) {
        if u64::from(*number) >= length.div_ceil(*chunk) {
            return false;
        }
    }
    true
}

/// Whether a chunk of this index lies in the grid: it has a number for each dimension, below that of the chunks there. It
/// takes no memory.
#[tactic(auto, using(crate::proofs::GridEnds::in_grid_by_rank))]
pub fn in_grid(shape: &[u64], chunks: &[u64], index: &Index) -> bool
    requires ranks { length shape.now ≡ length chunks.now }
    requires positive { All (λ n. 1 ≤ n) chunks.now }
    ensures { result ≡ is_in_grid shape.now chunks.now index.now }
{
    index.parts().len() == shape.len() && are_few_before(shape, chunks, index.parts())
}

/// The bytes of a chunk of elements of `size` bytes; a chunk at an edge is whole. It takes no memory.
pub fn chunk_bytes(size: u8, chunks: &[u64]) -> u64
    requires positive { All (λ n. 1 ≤ n) chunks.now }
    requires small { chunk_bytes size chunks.now ≤ most_chunk_bytes }
    ensures { result ≡ chunk_bytes size chunks.now }
{
    let mut bytes = u64::from(size);
    for length in chunks {
        bytes *= *length;
    }
    bytes
}
