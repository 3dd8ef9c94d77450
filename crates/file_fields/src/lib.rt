//! The payloads of files, and ids, indices, bytes and numbers in their tables: what the kinds of files that hold them have in common.
//!
//! Beside its calls, the crate has the lemmas of `proofs/`: `LoopLaws` for loops that read rows in order, `BuildingLaws`
//! for loops that build fields, `Again` for ids and indices that were written and are read again, `WasRead` and `Places`
//! for what was read of a payload, and `Blocks` for what is laid out of bytes.
#![tactic(auto)]

mod reading;
mod writing;

pub use reading::{
    id_follows, id8, id8_of, id12, id12_of, index_follows, index_of, payload_in, u32_of,
};
pub use writing::{bytes_slot, id8_bytes, id8_slot, id12_bytes, id12_slot, index_slot, u64_slot};
