//! Stores over folders, each in a type of its own, so that what is done on one asks for no folder.

use crate::calls::{Answering, Call, Counts, made_on, reply_on};
use dir_store::{Claim, DirStore, FolderStore, OpenFault, Opened, open};
use folder::MemoryFolder;
use ice_base::TickClock;
use std::alloc::{AllocError, Global};
use store_api::{Key, Reply, StoreFault};

/// A store in a directory of the system, and what it counts.
#[derive(Drop)]
pub(crate) struct HostStore {
    store: DirStore<HostRuntime, TickClock>,
    pub(crate) counts: Counts,
}

impl HostStore {
    /// The store in the directory at this path.
    pub(crate) fn at(
        rt: HostRuntime,
        path: &str,
        clock: TickClock,
    ) -> Result<HostStore, StoreFault> {
        let store = DirStore::at(rt, path, clock)?;
        Ok(HostStore {
            store,
            counts: Counts::NONE,
        })
    }
}

impl Answering for HostStore {
    fn reply(&mut self, key: &Key, call: &Call<'_>) -> Result<Reply, StoreFault> {
        made_on(&mut self.store, &mut self.counts, key, call)
    }
}

/// A directory that was opened.
#[derive(Drop)]
pub(crate) struct Claimed {
    claim: Claim,
    pub(crate) store: HostStore,
    pub(crate) seed: [u8; 32],
}

/// Opens the directory at this path.
pub(crate) fn claim_at(rt: HostRuntime, path: &str) -> Result<Claimed, OpenFault> {
    let Opened {
        claim,
        store,
        seed,
        ..
    } = open(rt, path, TickClock::new())?;
    let store = HostStore {
        store,
        counts: Counts::NONE,
    };
    Ok(Claimed { claim, store, seed })
}

/// The store in a folder in memory.
#[derive(Drop)]
pub(crate) struct MemoryStore {
    store: FolderStore<MemoryFolder, TickClock>,
}

impl MemoryStore {
    /// The store over a folder.
    pub(crate) fn over(alloc: Global, tree: MemoryFolder) -> Result<MemoryStore, AllocError> {
        let store = FolderStore::over(tree, alloc, "d", TickClock::new())?;
        Ok(MemoryStore { store })
    }
}

impl Answering for MemoryStore {
    fn reply(&mut self, key: &Key, call: &Call<'_>) -> Result<Reply, StoreFault> {
        reply_on(&mut self.store, key, call)
    }
}
