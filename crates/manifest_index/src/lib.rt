//! The list of an array's manifests: which of them may have a chunk, and the one new list of chunks after a change.
//!
//! [`candidates`] answers the manifests whose extents contain an index; [`merge`] answers where the chunks of an array are
//! after a change, and [`extents_of`] their extents.
#![tactic(auto)]

mod chunks;
mod copies;
mod extents;
mod laws;
mod manifests_within;
mod merging;

pub use extents::extents_of;
pub use laws::{extents_law, merged_law, new_list_law, sized_extents_law};
pub use manifests_within::candidates;
pub use merging::merge;
