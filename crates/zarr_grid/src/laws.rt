//! Laws of cells, chunks and grids.

ghost use Rattle.zarr_grid.specs.Laws.{WithinLaw, OneCellLaw, InGridLaw, FirstCellLaw};

/// Each cell has a place within its chunk.
#[tactic(auto, using(crate::proofs::CellLaws::within_law))]
pub fn within_law()
    ensures { WithinLaw }
{}

/// Each place of a chunk is that of exactly one cell.
#[tactic(auto, using(crate::proofs::CellLaws::one_cell_law))]
pub fn one_cell_law()
    ensures { OneCellLaw }
{}

/// The cells of an array lie in the chunks of its grid.
#[tactic(auto, using(crate::proofs::GridCells::in_grid_law))]
pub fn in_grid_law()
    ensures { InGridLaw }
{}

/// Each chunk of an array's grid has a cell of the array.
#[tactic(auto, using(crate::proofs::GridCells::first_cell_law))]
pub fn first_cell_law()
    ensures { FirstCellLaw }
{}
