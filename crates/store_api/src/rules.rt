//! The rule of a repository's clients, and the stores whose callers keep it.

ghost use Rattle.store_api.specs.Journal.{IsPolite};

use object_store::{CountingStore, ObjectStore, Rule, WholeStore};

/// What clients of a repository keep: politeness.
pub struct Polite;

impl Rule for Polite {
    ghost may = { IsPolite };
}

/// A store whose callers are polite.
pub trait Store: ObjectStore<Polite> {}

impl<S: ObjectStore<Polite>> Store for S {}

/// A whole store whose callers are polite.
pub trait Base: Store + WholeStore {}

impl<S: Store + WholeStore> Base for S {}

/// A whole store whose callers are polite, and that counts the operations made on it.
pub trait Counting: Base + CountingStore {}

impl<S: Base + CountingStore> Counting for S {}
