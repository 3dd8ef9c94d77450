//! What `ice_show` tells of metadata and grids, of trees and of their changes.
//!
//! A function that begins with `tell` gives the answer to one kind of cases, as in `show_files`; the README of `ice_show` has the
//! kinds.
#![tactic(auto)]

mod changing;
mod conflicting;
mod grids;
mod loads;
mod metas;

pub use changing::tell_changes;
pub use conflicting::{tell_conflicts, tell_solved};
pub use grids::{tell_grid, tell_in_grid};
pub use loads::{tell_known_log, tell_known_ref, tell_loaded};
pub use metas::{tell_json, tell_member, tell_meta, tell_meta_text, tell_number, tell_plain};
