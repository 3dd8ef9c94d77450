//! Bytes of chunks, and places of cells. Their calls ask of the lengths what no word of a case shows.

use std::alloc::Global;
use std::test::Fail;
use test_ends::{holds, none};
use zarr_grid::{cell_place, chunk_bytes};

#[test]
fn bytes() -> Result<(), Fail> {
    holds(chunk_bytes(4, &[8, 8]) == 256, "8 by 8")?;
    holds(chunk_bytes(8, &[]) == 8, "no dimensions")?;
    holds(chunk_bytes(1, &[268435456]) == 268435456, "the most")
}

/// The place of a cell, its chunk, and the number of its element there.
const CELLS: [([u32; 2], [u32; 2], u64); 8] = [
    ([0, 0], [0, 0], 0),
    ([0, 2], [0, 0], 2),
    ([0, 3], [0, 1], 0),
    ([1, 0], [0, 0], 3),
    ([1, 2], [0, 0], 5),
    ([1, 4], [0, 1], 4),
    ([2, 0], [1, 0], 0),
    ([2, 4], [1, 1], 1),
];

/// Whether a cell of an array in chunks of 2 by 3 has this place in this chunk.
fn has_place(alloc: Global, cell: &[u32; 2], index: &[u32; 2], place: u64) -> bool {
    let cell = [u64::from(cell[0]), u64::from(cell[1])];
    let Ok((chunk, number)) = cell_place(alloc, &[2, 3], &cell) else {
        return false;
    };
    let has = chunk.parts() == index.as_slice() && number == place;
    drop(chunk);
    has
}

/// Whether the one cell of an array of no dimensions is the first of its one chunk.
fn has_one_cell(alloc: Global) -> bool {
    let Ok((chunk, number)) = cell_place(alloc, &[], &[]) else {
        return false;
    };
    let has = chunk.parts().is_empty() && number == 0;
    drop(chunk);
    has
}

/// The place of the first cell that has another one, if there is one.
fn first_wrong(alloc: Global) -> Option<u64> {
    for (cell, index, place) in &CELLS {
        if !has_place(alloc, cell, index, *place) {
            return Some(*place);
        }
    }
    None
}

/// Each cell of an array of 3 by 5 in chunks of 2 by 3: the chunks' edges lie between the cells.
#[test]
fn cells(rt: HostRuntime) -> Result<(), Fail> {
    none(first_wrong(rt.alloc()))?;
    holds(has_one_cell(rt.alloc()), "one cell")
}
