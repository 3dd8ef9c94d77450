//! How many operations were made on a store in memory.

use crate::{FaultStore, MemStore, Telling};
use ice_base::Clock;
use object_store::CountingStore;

impl<C: Clock> CountingStore for MemStore<C> {
    fn operations(&self) -> u64 {
        self.number_of_events() as u64
    }
}

impl<S: Telling> CountingStore for FaultStore<S> {
    fn operations(&self) -> u64 {
        self.events() as u64
    }
}
