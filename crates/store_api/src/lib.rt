//! Object stores: keys, events, the trait of a store, programs of store operations, and the laws
//! that hold of every journal.
#![tactic(auto)]

mod driving;
mod laws;
mod machines;
mod rules;
mod running;

pub use driving::{Machine, Payload, Request, ask, drive, perform};
pub use laws::{first_law, names_law, polite_law, rows_law, trees_law};
pub use machines::{Next, Refusal, RegionFault};
pub use object_store::{
    CountingStore, Entries, Entry, Event, Gone, GoneAt, Got, Key, Listed, New, ObjectStore, Op,
    Over, Part, Reply, Rule, StoreFault, Version, Viewed, WholeStore, Why,
};
pub use rules::{Base, Counting, Polite, Store};
pub use running::run_machine;
