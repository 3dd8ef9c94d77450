//! What a session has changed of the tree that it began with: a set of changes on nodes, over any base that can be looked
//! up in as a tree.
//!
//! The functions that end in `law` do nothing: the contract of each is a law on which other crates may stand.
#![tactic(auto)]

mod added;
mod adding;
mod changing;
mod chunk_lists;
mod chunks;
mod dropping;
mod entries;
mod ids;
mod keys;
mod kinds;
mod laws;
mod listing;
mod looking;
mod net;
mod overlay;
mod places;
mod placing;
mod set;
mod shared_nodes;
mod texts;

pub use chunks::{ChangedArray, ChunkAt};
pub use ids::IdSet;
pub use keys::{ChangeKeys, ChunkKey};
pub use kinds::{is_array, is_group};
pub use laws::{
    added_law, drop_law, refusal_law, set_law, set_refusal_law, taken_law, text_law, unset_law,
    unset_refusal_law,
};
pub use listing::path_of;
pub use looking::before_slash;
pub use overlay::{Overlay, Row};
pub use placing::Placed;
pub use set::ChangeSet;
