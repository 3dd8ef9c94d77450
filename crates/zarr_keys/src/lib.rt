//! A Zarr store's view of a session: what is at its keys, is set there, and is erased.
#![tactic(auto)]

mod getting;
mod laws;
mod setting;
mod values;

pub use getting::{KeyGetting, key_get};
pub use laws::read_back_law;
pub use setting::{key_erase, key_set};
pub use values::{KeyValue, key_answer};
