//! The store in the cell.
ghost use Rattle.std.specs.Prelude.{◌≡◌, true};
ghost use Rattle.store_api.specs.Callers.{Called, MayCall, as_client};
ghost use Rattle.store_api.specs.Journal.{IsGoodJournal};
ghost use Rattle.shared_store.specs.Told.{told, client_of};

use std::marker::Model;
use store_api::{
    Base, Event, Gone, GoneAt, Got, Key, Listed, New, Op, Over, Part, Reply, StoreFault, Version,
    Why,
};
use turn_cell::Journaled;

/// A store whose journal, where the store tells it, is legal and polite. Contracts see it as the store.
#[derive(Drop)]
pub struct LegalStore<S: Base> {
    store: S,
}

impl<S: Base> Model for LegalStore<S> {
    ghost use Rattle.std.specs.Prelude.{◌≡◌, true};
    ghost use Rattle.store_api.specs.Journal.{IsGoodJournal};

    ghost Value = { S };

    ghost view = { λ h. h.store };

    ghost invariant = { λ h. S.tells ≡ true → IsGoodJournal (S.view h.store).seen };
}

impl<S: Base> Journaled for LegalStore<S> {
    type Entry = Event;

    ghost journal = { λ store. told S.tells (S.view store).seen };

    ghost owner = { client_of };

    ghost count = { λ store. (S.view store).faults };
}

impl<S: Base> LegalStore<S> {
    /// This store.
    pub(crate) fn new(store: S) -> LegalStore<S>
        requires good { S.tells ≡ true → IsGoodJournal (S.view store).seen }
        ensures { result ≡ store }
    {
        LegalStore { store }
    }

    /// The store, given back.
    pub(crate) fn into_store(self) -> S
        ensures same { result ≡ self }
        ensures good { S.tells ≡ true → IsGoodJournal (S.view result).seen }
    {
        self.store
    }

    // Tells what is true of each of them.
    pub(crate) fn tell(&self)
        ensures good { S.tells ≡ true → IsGoodJournal (S.view self.now).seen }
    {
        let _ = &self.store;
    }

    /// Reads an object, as this client.
    pub(crate) fn get(&mut self, client: u32, key: &Key) -> Result<Got, StoreFault>
        ensures { Called (λ got. Reply.Got got) (Op.Get key.now) result
            (as_client client (S.view self.old)) (S.view self.new) }
    {
        self.store.set_client(client);
        self.store.get(key)
    }

    /// Puts an object where its key is free, as this client.
    pub(crate) fn put_new(
        &mut self,
        client: u32,
        key: &Key,
        bytes: &[u8],
        why: Why,
    ) -> Result<New, StoreFault>
        requires polite { MayCall (S.view self.old) (Op.PutNew key.now bytes.now why) }
        ensures { Called (λ new. Reply.New new) (Op.PutNew key.now bytes.now why) result
            (as_client client (S.view self.old)) (S.view self.new) }
    {
        self.store.set_client(client);
        self.store.put_new(key, bytes, why)
    }

    /// Puts an object over the version that stands there, as this client.
    pub(crate) fn put_over(
        &mut self,
        client: u32,
        key: &Key,
        bytes: &[u8],
        old: Version,
        why: Why,
    ) -> Result<Over, StoreFault>
        requires polite { MayCall (S.view self.old) (Op.PutOver key.now bytes.now old why) }
        ensures { Called (λ over. Reply.Over over) (Op.PutOver key.now bytes.now old why) result
            (as_client client (S.view self.old)) (S.view self.new) }
    {
        self.store.set_client(client);
        self.store.put_over(key, bytes, old, why)
    }

    /// Removes an object, as this client.
    pub(crate) fn remove(&mut self, client: u32, key: &Key, why: Why) -> Result<Gone, StoreFault>
        requires polite { MayCall (S.view self.old) (Op.Remove key.now why) }
        ensures { Called (λ gone. Reply.Gone gone) (Op.Remove key.now why) result
            (as_client client (S.view self.old)) (S.view self.new) }
    {
        self.store.set_client(client);
        self.store.remove(key, why)
    }

    /// Removes the version that stands there, as this client.
    pub(crate) fn remove_at(
        &mut self,
        client: u32,
        key: &Key,
        old: Version,
        why: Why,
    ) -> Result<GoneAt, StoreFault>
        requires polite { MayCall (S.view self.old) (Op.RemoveAt key.now old why) }
        ensures { Called (λ gone. Reply.GoneAt gone) (Op.RemoveAt key.now old why) result
            (as_client client (S.view self.old)) (S.view self.new) }
    {
        self.store.set_client(client);
        self.store.remove_at(key, old, why)
    }

    /// Lists a part, as this client.
    pub(crate) fn list(&mut self, client: u32, part: Part) -> Result<Listed, StoreFault>
        ensures { Called (λ listed. Reply.Listed listed) (Op.List part) result
            (as_client client (S.view self.old)) (S.view self.new) }
    {
        self.store.set_client(client);
        self.store.list(part)
    }
}
