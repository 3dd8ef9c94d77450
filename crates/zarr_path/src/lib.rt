//! Paths of Zarr nodes, indices of chunks, and the keys under which a Zarr store keeps them.
//!
//! The functions that end in `law` do nothing: the contract of each is a law on which other crates may stand.
#![tactic(auto)]

mod indices;
mod keys;
mod parts;
mod paths;

ghost use Rattle.zarr_path.specs.Grammar.{GrammarLaw, ParentNameLaw};
ghost use Rattle.zarr_path.specs.KeyLaw.{KeyLaw, RoundTripLaw, OneKeyLaw};
ghost use Rattle.zarr_path.specs.Laws.{WithinReflexive, WithinTransitive, ParentLaw, BeneathLaw, OrderLaw};

pub use indices::Index;
pub use keys::{KeyFault, ZarrKey, chunk_key, meta_key, read_key};
pub use paths::{MOST_PATH_BYTES, Path, PathFault, is_within, parent_text, path_fault};

/// A path is within itself.
pub fn within_reflexive_law()
    ensures { WithinReflexive }
{}

/// What is within a path that is within another is within that.
pub fn within_transitive_law()
    ensures { WithinTransitive }
{}

/// A path is within its parent, which is a path.
pub fn parent_law()
    ensures { ParentLaw }
{}

/// A path is beneath another exactly where it isn't `/` and its parent is within the other; the parent is shorter.
pub fn beneath_law()
    ensures { BeneathLaw }
{}

/// The order of paths by bytes is total, and ties only what is the same.
pub fn order_law()
    ensures { OrderLaw }
{}

/// The function that tells whose key a text is tells exactly that.
pub fn key_law()
    ensures { KeyLaw }
{}

/// Reading the key of a path, or of a path and an index, gives them back.
pub fn round_trip_law()
    ensures { RoundTripLaw }
{}

/// What has one key is the same.
pub fn one_key_law()
    ensures { OneKeyLaw }
{}

/// The tests of paths, and the faults of texts, are those of the grammar.
pub fn grammar_law()
    ensures { GrammarLaw }
{}

/// A path other than `/` is its parent's, a slash unless that is `/`, and a name.
pub fn parent_name_law()
    ensures { ParentNameLaw }
{}
