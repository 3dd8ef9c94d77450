//! The trait of a store.

ghost use Rattle.std.specs.Prelude.{◌≡◌, Bool, IsTrue, length};
ghost use Rattle.object_store.specs.Callers.{View, Called, MayCall, HasAll, as_client};

use crate::{
    Gone, GoneAt, Got, Key, Listed, New, Op, Over, Part, Reply, Rule, StoreFault, Version, Why,
};

/// A way to a store.
pub trait Viewed {
    /// Who calls, the journal that this caller knows, and how often the store has failed.
    ghost view: { Self → View };
}

/// A store of objects, whose callers keep a rule. Each operation is one event of its journal, after events of other clients
/// that are answered as the machine does and keep the rule. An operation may find no memory; then it is no event and has
/// changed nothing. It answers `Failed` only where the store's count of faults rose, and it was then done or not done. A
/// caller that is told the journal makes an operation only where the rule allows it.
pub trait ObjectStore<R: Rule>: Viewed {
    /// Reads an object.
    fn get(&mut self, key: &Key) -> Result<Got, StoreFault>
        ensures { Called R.may (λ got. Reply.Got got) (Op.Get key.now) result (Self.view self.old)
            (Self.view self.new) };

    /// Puts an object where its key is free.
    fn put_new(&mut self, key: &Key, bytes: &[u8], why: Why) -> Result<New, StoreFault>
        requires { MayCall R.may (Self.view self.old) (Op.PutNew key.now bytes.now why) }
        ensures { Called R.may (λ new. Reply.New new) (Op.PutNew key.now bytes.now why) result
            (Self.view self.old) (Self.view self.new) };

    /// Puts an object over the version that stands there.
    fn put_over(
        &mut self,
        key: &Key,
        bytes: &[u8],
        old: Version,
        why: Why,
    ) -> Result<Over, StoreFault>
        requires { MayCall R.may (Self.view self.old) (Op.PutOver key.now bytes.now old why) }
        ensures { Called R.may (λ over. Reply.Over over) (Op.PutOver key.now bytes.now old why)
            result (Self.view self.old) (Self.view self.new) };

    /// Removes an object.
    fn remove(&mut self, key: &Key, why: Why) -> Result<Gone, StoreFault>
        requires { MayCall R.may (Self.view self.old) (Op.Remove key.now why) }
        ensures { Called R.may (λ gone. Reply.Gone gone) (Op.Remove key.now why) result
            (Self.view self.old) (Self.view self.new) };

    /// Removes the version that stands there.
    fn remove_at(&mut self, key: &Key, old: Version, why: Why) -> Result<GoneAt, StoreFault>
        requires { MayCall R.may (Self.view self.old) (Op.RemoveAt key.now old why) }
        ensures { Called R.may (λ gone. Reply.GoneAt gone) (Op.RemoveAt key.now old why) result
            (Self.view self.old) (Self.view self.new) };

    /// Lists a part, in the order of ids or names, a tag before its tombstone.
    fn list(&mut self, part: Part) -> Result<Listed, StoreFault>
        ensures { Called R.may (λ listed. Reply.Listed listed) (Op.List part) result
            (Self.view self.old) (Self.view self.new) };
}

/// A whole store: nobody else has part in its journal.
pub trait WholeStore: Viewed {
    /// Whether stores of this type tell their journal.
    ghost tells: { Bool };

    /// Makes the next operations those of this client.
    fn set_client(&mut self, client: u32)
        ensures { Self.view self.new ≡ as_client client (Self.view self.old) };

    /// What the type says, each store of it does.
    ghost told: { (s : Self) → (Self.view s).caller.tells ≡ Self.tells };

    /// Its caller has every client number.
    ghost alone: { (s : Self) → HasAll (Self.view s).caller };
}

/// A whole store that counts the operations made on it.
pub trait CountingStore: WholeStore {
    /// How many operations were made on it. Where the store tells its journal, they are its events.
    fn operations(&self) -> u64
        ensures { IsTrue (Self.view self.now).caller.tells
            → result ≡ length (Self.view self.now).seen };
}
