//! Object stores: keys, operations, events, the machine that says how operations are answered, who calls, and the trait of a
//! store, whose callers keep a rule.
#![tactic(auto)]

mod events;
mod key_display;
mod keys;
mod names;
mod operations;
mod orders;
mod rules;

pub use events::{
    Entries, Entry, Event, Gone, GoneAt, Got, Listed, New, Op, Over, Reply, StoreFault, Version,
};
pub use keys::{Key, Part, Why};
pub use operations::{CountingStore, ObjectStore, Viewed, WholeStore};
pub use rules::Rule;
