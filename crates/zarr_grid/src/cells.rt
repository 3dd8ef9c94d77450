//! The cells of an array.

ghost use Rattle.std.specs.Prelude.{◌≡◌, ◌≤◌, ◌<◌, ◌^◌, ℕ, length, All, IfOk};
ghost use Rattle.zarr_meta.specs.Grids.{product, most_chunk_bytes};
ghost use Rattle.zarr_grid.specs.Cells.{chunk_of, place_of};

use std::alloc::{AllocError, Global};
use zarr_path::Index;

/// The index of a cell's chunk.
fn chunk_of(alloc: Global, chunks: &[u64], cell: &[u64]) -> Result<Index, AllocError>
    requires ranks { length cell.now ≡ length chunks.now }
    requires positive { All (λ n. 1 ≤ n) chunks.now }
    requires fits { All (λ number. number < 2 ^ 32) (chunk_of chunks.now cell.now) }
    ensures { IfOk result (λ index. index ≡ chunk_of chunks.now cell.now) }
{
    let mut index = Vec::new(alloc);
    for (position, length) in cell.iter().zip(chunks) {
        index.push((position / length) as u32)?;
    }
    Ok(Index::from_parts(index))
}

/// The number of a cell's element in its chunk.
fn place_of(chunks: &[u64], cell: &[u64]) -> u64
    requires ranks { length cell.now ≡ length chunks.now }
    requires positive { All (λ n. 1 ≤ n) chunks.now }
    requires small { product chunks.now ≤ most_chunk_bytes }
    ensures { result ≡ place_of chunks.now cell.now }
{
    let mut place = 0;
    for (position, length) in cell.iter().zip(chunks) {
        place = place * length + position % length;
    }
    place
}

/// The chunk in which a cell stands, and the number of its element there, from 0 on in C order.
pub fn cell_place(alloc: Global, chunks: &[u64], cell: &[u64]) -> Result<(Index, u64), AllocError>
    requires ranks { length cell.now ≡ length chunks.now }
    requires positive { All (λ n. 1 ≤ n) chunks.now }
    requires small { product chunks.now ≤ most_chunk_bytes }
    requires fits { All (λ number. number < 2 ^ 32) (chunk_of chunks.now cell.now) }
    ensures { IfOk result (λ found. (found.0 ≡ chunk_of chunks.now cell.now)
        × (found.1 ≡ place_of chunks.now cell.now)) }
{
    Ok((chunk_of(alloc, chunks, cell)?, place_of(chunks, cell)))
}
