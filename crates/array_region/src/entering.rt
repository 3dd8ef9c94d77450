//! The numbers of chunks that were read.

ghost use Rattle.std.specs.Prelude.{◌≡◌, ◌<◌, ◌^◌, [], length, get_or, IfOk};
ghost use Rattle.zarr_tree.specs.Nodes.{chunk_length};
ghost use Rattle.array_region.specs.Reading.{fits, with_value};
ghost use Rattle.array_region.specs.Getting.{reads_of, chunks_of};

use crate::plans::Plan;
use region_cells::{Element, Sides, chunk_met, count_chunks, read_part};
use session::Value;
use std::alloc::{AllocError, Global};
use zarr_grid::chunk_bytes;
use zarr_path::Index;

impl Plan {
    /// How many bytes a chunk of the array has.
    pub(crate) fn want(&self) -> u64
        ensures { result ≡ chunk_length self.now.array }
    {
        chunk_bytes(self.array.kind.size(), self.array.chunks.as_slice())
    }

    /// How many chunks the box meets.
    pub(crate) fn met(&self) -> usize
        ensures value { result ≡ length (chunks_of (reads_of self.now)) }
        ensures few { length (chunks_of (reads_of self.now)) < 2 ^ 64 }
    {
        count_chunks(
            self.array.chunks.as_slice(),
            self.region.from.as_slice(),
            self.region.to.as_slice(),
        )
    }

    /// The index of the chunk of a number among those.
    pub(crate) fn index_of(&self, alloc: Global, at: usize) -> Result<Index, AllocError>
        requires { at < length (chunks_of (reads_of self.now)) }
        ensures { IfOk result (λ index. index ≡ get_or (chunks_of (reads_of self.now)) at []) }
    {
        chunk_met(
            alloc,
            self.array.chunks.as_slice(),
            self.region.from.as_slice(),
            self.region.to.as_slice(),
            at,
        )
    }

    /// Whether these are the bytes of a chunk with such an index, and the numbers of the box.
    pub(crate) fn fits(&self, index: &Index, bytes: &[u8], numbers: &[i128]) -> bool
        ensures { result ≡ fits (reads_of self.now) index.now bytes.now numbers.now }
    {
        index.parts().len() == self.array.chunks.as_slice().len()
            && bytes.len() as u64 == self.want()
            && numbers.len() == self.count
    }

    /// The box over a chunk.
    pub(crate) fn sides<'a>(&'a self, index: &'a Index) -> Sides<'a>
        ensures from { result.from.now ≡ self.now.region.from.items }
        ensures to { result.to.now ≡ self.now.region.to.items }
        ensures chunks { result.chunks.now ≡ self.now.array.chunks }
        ensures index { result.index.now ≡ index.now }
    {
        Sides {
            from: self.region.from.as_slice(),
            to: self.region.to.as_slice(),
            chunks: self.array.chunks.as_slice(),
            index: index.parts(),
        }
    }

    /// Enters the numbers of a chunk that was read.
    pub(crate) fn enter(&self, index: &Index, value: &Value, numbers: &mut [i128])
        ensures { numbers.new ≡ with_value (reads_of self.now) index.now value.now numbers.old }
    {
        let Value::Bytes(bytes) = value else {
            return;
        };
        if !self.fits(index, bytes.as_slice(), numbers) {
            return;
        }
        let element = Element {
            kind: self.array.kind,
            big: self.array.big,
        };
        read_part(element, self.sides(index), bytes.as_slice(), numbers);
    }
}
