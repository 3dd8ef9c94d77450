//! The base of all binary files: the header of a file, and flat tables in its payload, read in place and written in
//! one layout.
//!
//! A payload is a list of bytes in the manner of FlatBuffers: tables, vectors and strings that lead to one another by
//! offsets. [`Table`] and [`Vector`] borrow from it, and no call that reads takes memory. Each part is found by an
//! offset from an earlier one, and the first that would lie outside of the payload is told with its place.
//!
//! What stands in which slot is the matter of the crates above, one for each kind of file. The words for that stand in
//! `specs/Rows.antt`, and the lemmas in `proofs/`: `Loop` for readers, `Building` for writers, `Again` for what was
//! written and is read again.
#![tactic(auto)]

mod ends;
mod fault;
mod flat;
mod framing;
mod header;
mod place;
mod source;
mod table;
mod writing;

pub use fault::{FileFault, FlatFault, WriteFault};
pub use flat::{Flat, Slot};
pub use framing::framed_write;
pub use header::{FILE_LIMIT, HEADER, HeaderFault, Kind, header_read, header_write, with_header};
pub use source::TableSource;
pub use table::{Table, Vector};
pub use writing::flat_write;
