//! A store over a folder in memory, in a type of its own, so that a run over it asks for no folder.

ghost use Rattle.std.specs.Prelude.{false, refl};
ghost use Rattle.dir_store.specs.Store.{view_of};

use dir_store::FolderStore;
use folder::MemoryFolder;
use ice_base::TickClock;
use std::alloc::{AllocError, Global};
use store_api::{
    CountingStore, Gone, GoneAt, Got, Key, Listed, New, ObjectStore, Over, Part, Rule, StoreFault,
    Version, Viewed, WholeStore, Why,
};

/// The store in a folder in memory.
#[derive(Drop)]
pub(crate) struct MemoryStore {
    store: FolderStore<MemoryFolder, TickClock>,
}

impl MemoryStore {
    /// The store over a folder.
    pub(crate) fn over(alloc: Global, tree: MemoryFolder) -> Result<MemoryStore, AllocError> {
        let store = FolderStore::over(tree, alloc, "d", TickClock::new())?;
        Ok(MemoryStore { store })
    }

    /// The folder on which the store stands.
    pub(crate) fn into_tree(self) -> MemoryFolder {
        let MemoryStore { store } = self;
        store.into_tree()
    }
}

impl Viewed for MemoryStore {
    ghost view = { λ s. view_of s.store };
}

impl<L: Rule> ObjectStore<L> for MemoryStore {
    fn get(&mut self, key: &Key) -> Result<Got, StoreFault> {
        ObjectStore::<L>::get(&mut self.store, key)
    }

    fn put_new(&mut self, key: &Key, bytes: &[u8], why: Why) -> Result<New, StoreFault> {
        ObjectStore::<L>::put_new(&mut self.store, key, bytes, why)
    }

    fn put_over(
        &mut self,
        key: &Key,
        bytes: &[u8],
        old: Version,
        why: Why,
    ) -> Result<Over, StoreFault> {
        ObjectStore::<L>::put_over(&mut self.store, key, bytes, old, why)
    }

    fn remove(&mut self, key: &Key, why: Why) -> Result<Gone, StoreFault> {
        ObjectStore::<L>::remove(&mut self.store, key, why)
    }

    fn remove_at(&mut self, key: &Key, old: Version, why: Why) -> Result<GoneAt, StoreFault> {
        ObjectStore::<L>::remove_at(&mut self.store, key, old, why)
    }

    fn list(&mut self, part: Part) -> Result<Listed, StoreFault> {
        ObjectStore::<L>::list(&mut self.store, part)
    }
}

impl WholeStore for MemoryStore {
    ghost tells = { false };

    fn set_client(&mut self, client: u32) {
        self.store.set_client(client);
    }

    ghost told = { λ s. refl };

    ghost alone = { λ s. record { low = refl; end = refl } };
}

impl CountingStore for MemoryStore {
    fn operations(&self) -> u64 {
        self.store.operations()
    }
}
