//! A store in memory that tells no journal.

ghost use Rattle.std.specs.Prelude.{◌≡◌, false, refl, [], length, Some, None};
ghost use Rattle.mem_store.specs.Memory.{journal_of, client_of};
ghost use Rattle.untold_store.specs.Untold.{memory_of, late_of, view_of};

use ice_base::TickClock;
use mem_store::MemStore;
use std::alloc::Global;
use store_api::{
    CountingStore, Gone, GoneAt, Got, Key, Listed, New, ObjectStore, Over, Part, Rule, StoreFault,
    Version, Viewed, WholeStore, Why,
};

/// A store in memory that tells nothing of its journal, so that a call over it asks nothing of what was done before. Behind
/// each listing it drops what stands at a key, if one is named.
#[derive(Drop)]
pub struct Untold {
    memory: MemStore<TickClock>,
    late: Option<Key>,
}

impl Untold {
    /// A store with no objects, which drops nothing.
    pub fn new(alloc: Global) -> Untold
        ensures journal { journal_of (memory_of result) ≡ [] }
        ensures client { client_of (memory_of result) ≡ 0 }
        ensures late { late_of result ≡ None }
    {
        Untold {
            memory: MemStore::new(alloc, TickClock::new()),
            late: None,
        }
    }

    /// A store with no objects, which drops what stands at this key behind each listing.
    pub fn dropping(alloc: Global, late: Key) -> Untold
        ensures journal { journal_of (memory_of result) ≡ [] }
        ensures client { client_of (memory_of result) ≡ 0 }
        ensures late { late_of result ≡ Some late }
    {
        Untold {
            memory: MemStore::new(alloc, TickClock::new()),
            late: Some(late),
        }
    }

    /// The store beneath, which tells its journal.
    pub fn into_memory(self) -> MemStore<TickClock>
        ensures { result ≡ memory_of self }
    {
        drop(self.late);
        self.memory
    }
}

impl Viewed for Untold {
    ghost view = { λ s. view_of s };
}

impl<R: Rule> ObjectStore<R> for Untold {
    fn get(&mut self, key: &Key) -> Result<Got, StoreFault> {
        ObjectStore::<R>::get(&mut self.memory, key)
    }

    fn put_new(&mut self, key: &Key, bytes: &[u8], why: Why) -> Result<New, StoreFault> {
        ObjectStore::<R>::put_new(&mut self.memory, key, bytes, why)
    }

    fn put_over(
        &mut self,
        key: &Key,
        bytes: &[u8],
        old: Version,
        why: Why,
    ) -> Result<Over, StoreFault> {
        ObjectStore::<R>::put_over(&mut self.memory, key, bytes, old, why)
    }

    fn remove(&mut self, key: &Key, why: Why) -> Result<Gone, StoreFault> {
        ObjectStore::<R>::remove(&mut self.memory, key, why)
    }

    fn remove_at(&mut self, key: &Key, old: Version, why: Why) -> Result<GoneAt, StoreFault> {
        ObjectStore::<R>::remove_at(&mut self.memory, key, old, why)
    }

    fn list(&mut self, part: Part) -> Result<Listed, StoreFault> {
        let listed = ObjectStore::<R>::list(&mut self.memory, part);
        if let Some(late) = &self.late {
            let _ = ObjectStore::<R>::remove(&mut self.memory, late, Why::Drop);
        }
        listed
    }
}

impl WholeStore for Untold {
    ghost tells = { false };

    fn set_client(&mut self, client: u32) {
        self.memory.set_client(client);
    }

    ghost told = { λ s. refl };

    ghost alone = { λ s. record { low = refl; end = refl } };
}

impl CountingStore for Untold {
    /// How many operations were made on the store beneath, the drops among them: the time of the next one.
    fn operations(&self) -> u64
        ensures { result ≡ length (journal_of (memory_of self.now)) }
    {
        self.memory.number_of_events() as u64
    }
}
