//! The numbers of a box of cells, read from the bytes of chunks and written into them.
#![tactic(auto)]

mod boxes;
mod elements;
mod filling;
mod laws;
mod parts;
mod sides;

pub use boxes::{MOST_CELLS, chunk_met, count_chunks, count_within, first_outside, is_in_shape};
pub use elements::Element;
pub use filling::filled_chunk;
pub use laws::{box_law, filled_law, number_law, part_law, whole_law, written_law};
pub use parts::{read_part, write_part};
pub use sides::{Side, Sides};
