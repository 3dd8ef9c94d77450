//! Sessions: a base tree and changes over it.
#![tactic(auto)]

mod chunks;
mod committing;
mod editing;
mod filling;
mod getting;
mod open;
mod opening;
mod origin;
mod placing;
mod properties;
mod putting;
mod reading;
mod rebasing;
mod rows;
mod saving;
mod seeing;
mod session;
mod setting;

pub use chunks::Value;
pub use getting::{GetChunk, Getting};
pub use open::Open;
pub use origin::{Origin, Tip};
pub use saving::Saved;
pub use seeing::ArrayAt;
pub use session::{Listing, Listings, Session};
pub use setting::{SetChunk, Setting};
pub use zarr_changes::Placed;
