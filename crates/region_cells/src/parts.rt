//! The part of a box that lies in a chunk.

ghost use Rattle.std.specs.Prelude.{◌≡◌, ◌≤◌, ◌<◌, ◌*◌, ◌+◌, ◌-◌, ◌^◌, ◌∷◌, [], ℕ, pos, length, get_or, All, IsTrue};
ghost use Rattle.zarr_meta.specs.Kinds.{size_of, is_in_range};
ghost use Rattle.zarr_meta.specs.Grids.{chunk_bytes};
ghost use Rattle.region_cells.specs.Boxes.{count_of};
ghost use Rattle.region_cells.specs.Numbers.{number_of, element_at, bytes_of};
ghost use Rattle.region_cells.specs.Parts.{ReadsPart, WritesPart};
ghost use Rattle.region_cells.specs.Rows.{ReadsRow, WritesRow, AreInRange};
ghost use Rattle.region_cells.specs.Sides.{AreOver};

use crate::elements::Element;
use crate::sides::{Side, Sides};

/// Reads numbers that stand side by side. It takes no memory.
fn read_row(element: Element, bytes: &[u8], row: &mut [i128])
    requires { size_of element.kind * length row.old ≤ length bytes.now }
    ensures { ReadsRow element.kind element.big bytes.now row.new }
{
    let size = usize::from(element.kind.size());
    for at in 0..row.len() {
        row[at] = element.read(&bytes[at * size..]);
    }
}

/// Writes numbers side by side. It takes no memory.
fn write_row(element: Element, row: &[i128], bytes: &mut [u8])
    requires room { size_of element.kind * length row.now ≤ length bytes.old }
    requires range { AreInRange element.kind row.now }
    ensures { WritesRow element.kind element.big row.now bytes.old bytes.new }
{
    let size = usize::from(element.kind.size());
    for at in 0..row.len() {
        element.write(row[at], &mut bytes[at * size..]);
    }
}

/// Reads the numbers of a box of one dimension that stand in the chunk. It takes no memory.
fn read_last(element: Element, side: Side, bytes: &[u8], cells: &mut [i128])
    requires some { 1 ≤ side.chunk }
    requires short { side.chunk < 2 ^ 32 }
    requires whole { length bytes.now ≡ size_of element.kind * side.chunk }
    requires count { length cells.old ≡ side.to - side.from }
    ensures { ReadsPart element.kind element.big (side.from ∷ []) (side.to ∷ []) (side.chunk ∷ [])
        (side.number ∷ []) bytes.now cells.old cells.new }
{
    let first = side.first();
    let end = side.end();
    if first >= end {
        return;
    }
    let at = (first - side.start()) as usize * usize::from(element.kind.size());
    let put = (first - side.from) as usize;
    let count = (end - first) as usize;
    read_row(element, &bytes[at..], &mut cells[put..put + count]);
}

/// Reads the numbers of the box that stand in the chunk, whose bytes these are. It takes no memory.
pub fn read_part(element: Element, sides: Sides<'_>, bytes: &[u8], cells: &mut [i128])
    requires over { AreOver sides }
    requires whole { length bytes.now ≡ chunk_bytes (size_of element.kind) sides.chunks.now }
    requires count { length cells.old ≡ count_of sides.from.now sides.to.now }
    ensures { ReadsPart element.kind element.big sides.entry.from.now sides.entry.to.now
        sides.entry.chunks.now sides.entry.index.now bytes.now cells.old cells.new }
{
    let Some((side, rest)) = sides.split() else {
        read_row(element, bytes, cells);
        return;
    };
    if rest.chunks.is_empty() {
        read_last(element, side, bytes, cells);
        return;
    }
    if side.first() >= side.end() {
        return;
    }
    let block = bytes.len() / side.chunk as usize;
    let row = cells.len() / (side.to - side.from) as usize;
    for position in side.first()..side.end() {
        let at = (position - side.start()) as usize * block;
        let put = (position - side.from) as usize * row;
        read_part(
            element,
            rest,
            &bytes[at..at + block],
            &mut cells[put..put + row],
        );
    }
}

/// Writes the numbers of a box of one dimension that stand in the chunk. It takes no memory.
fn write_last(element: Element, side: Side, cells: &[i128], bytes: &mut [u8])
    requires some { 1 ≤ side.chunk }
    requires short { side.chunk < 2 ^ 32 }
    requires whole { length bytes.old ≡ size_of element.kind * side.chunk }
    requires count { length cells.now ≡ side.to - side.from }
    requires range { AreInRange element.kind cells.now }
    ensures { WritesPart element.kind element.big (side.from ∷ []) (side.to ∷ []) (side.chunk ∷ [])
        (side.number ∷ []) cells.now bytes.old bytes.new }
{
    let first = side.first();
    let end = side.end();
    if first >= end {
        return;
    }
    let at = (first - side.start()) as usize * usize::from(element.kind.size());
    let put = (first - side.from) as usize;
    let count = (end - first) as usize;
    write_row(element, &cells[put..put + count], &mut bytes[at..]);
}

/// Writes the numbers of the box that stand in the chunk into the chunk's bytes. It takes no memory.
pub fn write_part(element: Element, sides: Sides<'_>, cells: &[i128], bytes: &mut [u8])
    requires over { AreOver sides }
    requires whole { length bytes.old ≡ chunk_bytes (size_of element.kind) sides.chunks.now }
    requires count { length cells.now ≡ count_of sides.from.now sides.to.now }
    requires range { AreInRange element.kind cells.now }
    ensures { WritesPart element.kind element.big sides.entry.from.now sides.entry.to.now
        sides.entry.chunks.now sides.entry.index.now cells.now bytes.old bytes.new }
{
    let Some((side, rest)) = sides.split() else {
        write_row(element, cells, bytes);
        return;
    };
    if rest.chunks.is_empty() {
        write_last(element, side, cells, bytes);
        return;
    }
    if side.first() >= side.end() {
        return;
    }
    let block = bytes.len() / side.chunk as usize;
    let row = cells.len() / (side.to - side.from) as usize;
    for position in side.first()..side.end() {
        let at = (position - side.start()) as usize * block;
        let put = (position - side.from) as usize * row;
        write_part(
            element,
            rest,
            &cells[put..put + row],
            &mut bytes[at..at + block],
        );
    }
}
