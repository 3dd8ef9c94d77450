//! Whether chunks divide an array within the limits.

ghost use Rattle.std.specs.Prelude.{◌≡◌, ◌≤◌, ◌&&◌, nat_le, All};
ghost use Rattle.std.specs.List.{list_all};
ghost use Rattle.zarr_meta.specs.Grids.{are_lengths, has_few_chunks, has_small_chunks, has_grid};

/// The greatest length of a chunk along a dimension.
const MOST_CHUNK_LENGTH: u64 = 0xffff_ffff;

/// The most chunks along a dimension.
const MOST_CHUNKS: u64 = 0xffff_ffff;

/// The most bytes of a chunk.
const MOST_CHUNK_BYTES: u64 = 268_435_456;

/// Whether these may be the lengths of chunks.
fn are_lengths(chunks: &[u64]) -> bool
    ensures { result ≡ are_lengths chunks.now }
{
    chunks
        .iter()
        .all(|length| 1 <= *length && *length <= MOST_CHUNK_LENGTH)
}

/// Whether no dimension has too many chunks.
#[tactic(auto, using(crate::proofs::GridLaws::few_at_end))]
fn has_few_chunks(shape: &[u64], chunks: &[u64]) -> bool
    requires { All (λ length. 1 ≤ length) chunks.now }
    ensures { result ≡ has_few_chunks shape.now chunks.now }
{
    for (length, chunk) in shape.iter().zip(chunks) {
        if length.div_ceil(*chunk) > MOST_CHUNKS {
            return false;
        }
    }
    true
}

/// Whether a chunk of elements of so many bytes isn't too long.
fn has_small_chunks(size: u8, chunks: &[u64]) -> bool
    requires { All (λ length. 1 ≤ length) chunks.now }
    ensures { result ≡ has_small_chunks size chunks.now }
{
    let mut bytes = u64::from(size);
    for length in chunks {
        match bytes.checked_mul(*length) {
            Some(product) if product <= MOST_CHUNK_BYTES => bytes = product,
            _ => return false,
        }
    }
    true
}

/// Whether chunks of these lengths divide an array of this shape, whose elements have so many bytes, within the limits.
#[tactic(auto, unfolding(crate::specs::Grids::has_grid))]
pub fn has_grid(size: u8, shape: &[u64], chunks: &[u64]) -> bool
    ensures { result ≡ has_grid size shape.now chunks.now }
{
    shape.len() == chunks.len()
        && are_lengths(chunks)
        && has_few_chunks(shape, chunks)
        && has_small_chunks(size, chunks)
}
