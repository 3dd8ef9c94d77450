//! A check of a store on which nobody else acts.
#![tactic(auto)]

mod checking;

pub use checking::check_store;
