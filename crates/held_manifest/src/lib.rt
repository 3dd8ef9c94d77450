//! Manifests that are read in place: the file stays as it came, and its parts are found when they are asked for.
//!
//! [`hold`] takes a file that stands for a manifest and refuses another one with its first fault; no call takes memory, but
//! for [`IndexView::copy`].
//! Arrays and chunks are found by halves. [`HeldManifest::objects`] walks over all that a manifest names.
#![tactic(auto)]

mod arrays;
mod chunks;
mod held;
mod indices;
pub mod laws;
mod looking;
mod objects;
mod places;

pub use arrays::{ArrayView, Arrays};
pub use chunks::{RefView, Refs};
pub use held::{HeldManifest, hold};
pub use indices::{IndexView, index_of};
pub use looking::{chunk_place, is_within, look_up};
pub use objects::Objects;
pub use places::PlaceView;
