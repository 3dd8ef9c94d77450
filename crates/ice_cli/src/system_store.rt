//! A store in a directory of the system, in a type of its own.

ghost use Rattle.std.specs.Prelude.{◌≡◌, false, refl, IfOk};
ghost use Rattle.object_store.specs.Callers.{Called};
ghost use Rattle.dir_store.specs.Store.{view_of, operations_of, Raises, IsRightGot, IsRightNew, IsRightOver, IsRightGoneAt};
ghost use Rattle.dir_store.specs.Listings.{IsListed};

use dir_store::{DirStore, FirstFault};
use moments::WallClock;
use store_api::{
    CountingStore, Gone, GoneAt, Got, Key, Listed, New, ObjectStore, Op, Over, Part, Reply, Rule,
    StoreFault, Version, Viewed, WholeStore, Why,
};

/// The directory of the system as a store.
type Directory = DirStore<HostRuntime, WallClock<HostRuntime>>;

/// A store in a directory of the system. Each call is that of [`DirStore`], with its clauses on answers; the type names no folder
/// and no files, so that who runs over it proves nothing of these anew.
#[derive(Drop)]
pub struct SystemStore {
    store: Directory,
}

impl SystemStore {
    /// The store over this one.
    pub fn new(store: Directory) -> SystemStore
        ensures { result.store ≡ store }
    {
        SystemStore { store }
    }

    /// The first call on files that failed, if one has.
    pub fn first_fault(&self) -> Option<&FirstFault> {
        self.store.first_fault()
    }
}

impl Viewed for SystemStore {
    ghost view = { λ s. view_of s.store };
}

impl<L: Rule> ObjectStore<L> for SystemStore {
    fn get(&mut self, key: &Key) -> Result<Got, StoreFault>
        ensures call { Called L.may (λ a. Reply.Got a) (Op.Get key.now) result
            (view_of self.old.store) (view_of self.new.store) }
        ensures content { IfOk result (IsRightGot key.now) }
        ensures made { Raises result (operations_of self.old.store) (operations_of self.new.store) }
    {
        ObjectStore::<L>::get(&mut self.store, key)
    }

    fn put_new(&mut self, key: &Key, bytes: &[u8], why: Why) -> Result<New, StoreFault>
        ensures call { Called L.may (λ a. Reply.New a) (Op.PutNew key.now bytes.now why) result
            (view_of self.old.store) (view_of self.new.store) }
        ensures content { IfOk result (IsRightNew key.now bytes.now) }
        ensures made { Raises result (operations_of self.old.store) (operations_of self.new.store) }
    {
        ObjectStore::<L>::put_new(&mut self.store, key, bytes, why)
    }

    fn put_over(
        &mut self,
        key: &Key,
        bytes: &[u8],
        old: Version,
        why: Why,
    ) -> Result<Over, StoreFault>
        ensures call { Called L.may (λ a. Reply.Over a) (Op.PutOver key.now bytes.now old why)
            result (view_of self.old.store) (view_of self.new.store) }
        ensures content { IfOk result (IsRightOver key.now bytes.now old) }
        ensures made { Raises result (operations_of self.old.store) (operations_of self.new.store) }
    {
        ObjectStore::<L>::put_over(&mut self.store, key, bytes, old, why)
    }

    fn remove(&mut self, key: &Key, why: Why) -> Result<Gone, StoreFault>
        ensures call { Called L.may (λ a. Reply.Gone a) (Op.Remove key.now why) result
            (view_of self.old.store) (view_of self.new.store) }
        ensures made { Raises result (operations_of self.old.store) (operations_of self.new.store) }
    {
        ObjectStore::<L>::remove(&mut self.store, key, why)
    }

    fn remove_at(&mut self, key: &Key, old: Version, why: Why) -> Result<GoneAt, StoreFault>
        ensures call { Called L.may (λ a. Reply.GoneAt a) (Op.RemoveAt key.now old why) result
            (view_of self.old.store) (view_of self.new.store) }
        ensures content { IfOk result (IsRightGoneAt old) }
        ensures made { Raises result (operations_of self.old.store) (operations_of self.new.store) }
    {
        ObjectStore::<L>::remove_at(&mut self.store, key, old, why)
    }

    fn list(&mut self, part: Part) -> Result<Listed, StoreFault>
        ensures call { Called L.may (λ a. Reply.Listed a) (Op.List part) result
            (view_of self.old.store) (view_of self.new.store) }
        ensures content { IfOk result (λ listed. IsListed part listed.entries) }
        ensures made { Raises result (operations_of self.old.store) (operations_of self.new.store) }
    {
        ObjectStore::<L>::list(&mut self.store, part)
    }
}

impl WholeStore for SystemStore {
    ghost tells = { false };

    fn set_client(&mut self, client: u32) {
        self.store.set_client(client);
    }

    ghost told = { λ s. refl };

    ghost alone = { λ s. record { low = refl; end = refl } };
}

impl CountingStore for SystemStore {
    fn operations(&self) -> u64 {
        self.store.operations()
    }
}
