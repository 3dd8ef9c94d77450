//! The bytes of chunks with the numbers of a box.

ghost use Rattle.std.specs.Prelude.{◌≡◌, IfOk};
ghost use Rattle.region_cells.specs.Sides.{AreOver};
ghost use Rattle.array_region.specs.Getting.{reads_of};
ghost use Rattle.array_region.specs.Writing.{is_covered, bytes_read, with_numbers, bytes_put};

use crate::given::Given;
use crate::plans::Plan;
use ice_base::Bytes;
use region_cells::{Element, Sides, filled_chunk, write_part};
use session::Value;
use std::alloc::{AllocError, Global};
use zarr_grid::chunk_bytes;
use zarr_path::Index;

/// Whether all cells of a chunk lie in a box.
fn covered(sides: Sides<'_>) -> bool
    requires { AreOver sides }
    ensures { result ≡ is_covered sides.entry.from.now sides.entry.to.now sides.entry.chunks.now
        sides.entry.index.now }
{
    let Some((side, rest)) = sides.split() else {
        return true;
    };
    let start = side.start();
    side.from <= start && start + side.chunk <= side.to && covered(rest)
}

impl Plan {
    /// Whether all cells of a chunk lie in the box.
    pub(crate) fn covers(&self, index: &Index) -> bool
        ensures { result ≡ is_covered self.now.region.from.items self.now.region.to.items
            self.now.array.chunks index.now }
    {
        index.parts().len() == self.array.chunks.as_slice().len() && covered(self.sides(index))
    }

    /// How an element stands in a chunk.
    fn element(&self) -> Element
        ensures kind { result.kind ≡ self.now.array.kind }
        ensures big { result.big ≡ self.now.array.big }
    {
        Element {
            kind: self.array.kind,
            big: self.array.big,
        }
    }

    /// The bytes of a chunk that isn't held. (An array's fill value is one of its type.)
    fn unheld(&self, alloc: Global) -> Result<Vec<u8>, AllocError>
        ensures { IfOk result (λ bytes. bytes.items ≡ bytes_read self.now.array Value.Fill) }
    {
        if !self.array.kind.holds(self.array.fill) {
            return Err(AllocError);
        }
        let count = chunk_bytes(1, self.array.chunks.as_slice()) as usize;
        filled_chunk(alloc, self.element(), self.array.fill, count)
    }

    /// The bytes of a chunk that was read.
    fn bytes_read(&self, alloc: Global, value: Value) -> Result<Vec<u8>, AllocError>
        ensures { IfOk result (λ bytes. bytes.items ≡ bytes_read self.now.array value) }
    {
        match value {
            Value::Bytes(bytes) => Ok(bytes.into_vec()),
            Value::Fill => self.unheld(alloc),
        }
    }
}

impl Given {
    /// Writes the numbers into the bytes of a chunk.
    fn write(&self, index: &Index, bytes: &mut [u8])
        ensures { bytes.new ≡ with_numbers (reads_of self.now.plan) index.now self.now.numbers.items
            bytes.old }
    {
        if self.plan.fits(index, bytes, self.numbers.as_slice()) {
            write_part(
                self.plan.element(),
                self.plan.sides(index),
                self.numbers.as_slice(),
                bytes,
            );
        }
    }

    /// The bytes of a chunk with the numbers, by what was read of it.
    pub(crate) fn bytes_over(
        &self,
        alloc: Global,
        index: &Index,
        value: Value,
    ) -> Result<Bytes, AllocError>
        ensures { IfOk result (λ bytes. bytes ≡ bytes_put (reads_of self.now.plan) index.now
            self.now.numbers.items value) }
    {
        let mut bytes = self.plan.bytes_read(alloc, value)?;
        self.write(index, bytes.as_mut_slice());
        Ok(Bytes::from_vec(bytes))
    }
}
