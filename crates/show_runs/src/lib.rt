//! What `ice_show` tells of scripts, of reports and refusals, of inputs and outputs, and of objects by their keys.
//!
//! A function that begins with `tell` gives the answer to one kind of cases, as in `show_files`; the README of `ice_show` has the
//! kinds.
#![tactic(auto)]

mod checks;
mod ends;
mod expiries;
mod printed_texts;
mod refusals;
mod reports;
mod scripts;
mod store_keys;

pub use ends::{tell_byte_list, tell_input, tell_output};
pub use refusals::tell_refusal;
pub use reports::tell_report;
pub use scripts::tell_script;
pub use store_keys::{id_of, key_of, tell_object, tell_same};
