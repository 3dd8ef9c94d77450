//! Boxes of numbers, read and written over sessions.
#![tactic(auto)]

mod entering;
mod getting;
mod given;
mod giving;
mod kept_manifest;
mod lookups;
mod placing;
mod planning;
mod plans;
mod running;
mod runs;
mod setting;
mod stages;
mod writing;

pub use getting::{Getting, Numbers, RegionGet};
pub use plans::Region;
pub use setting::{RegionSet, Setting};
