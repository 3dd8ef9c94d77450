//! Chunks that aren't held.

ghost use Rattle.std.specs.Prelude.{◌≡◌, ◌*◌, ◌≤◌, IfOk, IsTrue};
ghost use Rattle.zarr_meta.specs.Kinds.{size_of, is_in_range};
ghost use Rattle.zarr_meta.specs.Grids.{most_chunk_bytes};
ghost use Rattle.region_cells.specs.Walks.{filled};

use crate::elements::Element;
use std::alloc::{AllocError, Global};

/// The bytes of a chunk of so many elements, each of which has this number.
pub fn filled_chunk(
    alloc: Global,
    element: Element,
    number: i128,
    count: usize,
) -> Result<Vec<u8>, AllocError>
    requires range { IsTrue (is_in_range element.kind number) }
    requires small { size_of element.kind * count ≤ most_chunk_bytes }
    ensures { IfOk result (λ bytes. bytes.items ≡ filled element.kind element.big number count) }
{
    let size = usize::from(element.kind.size());
    let mut one = [0; 8];
    element.write(number, &mut one);
    let mut bytes = Vec::with_capacity(alloc, size * count)?;
    for _ in 0..count {
        bytes.extend_from_slice(&one[..size])?;
    }
    Ok(bytes)
}
