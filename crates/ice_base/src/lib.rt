//! What all crates stand on: ends of byte streams, clocks, names of refs, lists of bytes, texts.
#![tactic(auto)]

mod byte_list;
mod clocks;
mod ends;
mod in_memory;
pub mod laws;
mod names;
mod standard;
mod texts;

pub use byte_list::Bytes;
pub use clocks::{Clock, TickClock};
pub use ends::{Failed, InputFault, Sink, Source, read_input, write_whole};
pub use in_memory::{ByteSink, ByteSource};
pub use names::{NameFault, RefName};
pub use standard::{StdSink, StdSource};
pub use texts::Text;
