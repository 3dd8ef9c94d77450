//! Regular grids of chunks: how many chunks an array has, how long they are, and where a cell stands.
//!
//! Shapes, chunk lengths, indices and cells are lists with a number for each dimension. Elements of a chunk stand in
//! C order, the last dimension's side by side. (Zarr v3 core specification, "Regular grids".)
//!
//! The functions that end in `law` do nothing: the contract of each is a law on which other crates may stand.
#![tactic(auto)]

mod cells;
mod grids;
mod laws;

pub use cells::cell_place;
pub use grids::{chunk_bytes, grid, in_grid};
pub use laws::{first_cell_law, in_grid_law, one_cell_law, within_law};
