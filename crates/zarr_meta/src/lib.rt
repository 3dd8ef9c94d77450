//! The metadata of Zarr nodes: the text of `zarr.json`, read exactly.
//!
//! The profile is Zarr version 3 with the eight data types of whole numbers, regular grids, the default chunk key
//! encoding with the separator `/`, and the codec `bytes` alone. A text outside of it is refused with the first of
//! [`MetaFault`] that it meets.
//!
//! The functions that end in `law` do nothing: the contract of each is a law on which other crates may stand.
#![tactic(auto)]

mod arrays;
mod codecs;
mod extras;
mod faults;
mod grids;
mod kinds;
mod laws;
mod lists;
mod metas;
mod names;
mod parts;
mod plain;
mod reader;
mod shapes;
mod shared;
mod views;

pub use faults::MetaFault;
pub use kinds::IntKind;
pub use laws::{extra_law, plain_law, text_law};
pub use lists::{DimensionNames, Lengths};
pub use metas::Meta;
pub use plain::{codec_text, text_about};
pub use reader::MetaReader;
pub use shared::SharedMeta;
pub use views::{ArrayView, MetaView, NodeType};
