//! What a key is called.

ghost use Rattle.std.specs.Prelude.{◌≡◌, ◌==◌, IfOk};
ghost use Rattle.object_store.specs.Machine.{same_key, part_of};

use crate::{Key, Part};
use std::alloc::{AllocError, Global};

impl Key {
    /// Whether two names are the same.
    pub fn same(&self, other: &Key) -> bool
        ensures { result ≡ same_key self.now other.now }
    {
        match (self, other) {
            (Key::Snapshot(a), Key::Snapshot(b)) => a.0 == b.0,
            (Key::Manifest(a), Key::Manifest(b)) => a.0 == b.0,
            (Key::Txn(a), Key::Txn(b)) => a.0 == b.0,
            (Key::Chunk(a), Key::Chunk(b)) => a.0 == b.0,
            (Key::Branch(a), Key::Branch(b)) => a == b,
            (Key::Tag(a), Key::Tag(b)) => a == b,
            (Key::Tombstone(a), Key::Tombstone(b)) => a == b,
            (Key::Lease(a), Key::Lease(b)) => a.0 == b.0,
            _ => false,
        }
    }

    /// The part of the store that it belongs to.
    pub fn part(&self) -> Part
        ensures { result ≡ part_of self.now }
    {
        match self {
            Key::Snapshot(_) => Part::Snapshots,
            Key::Manifest(_) => Part::Manifests,
            Key::Txn(_) => Part::Txns,
            Key::Chunk(_) => Part::Chunks,
            Key::Branch(_) => Part::Branches,
            Key::Tag(_) | Key::Tombstone(_) => Part::Tags,
            Key::Lease(_) => Part::Leases,
        }
    }

    /// A copy of the name.
    pub fn copy(&self, alloc: Global) -> Result<Key, AllocError>
        ensures { IfOk result (λ key. key ≡ self.now) }
    {
        match self {
            Key::Snapshot(id) => Ok(Key::Snapshot(*id)),
            Key::Manifest(id) => Ok(Key::Manifest(*id)),
            Key::Txn(id) => Ok(Key::Txn(*id)),
            Key::Chunk(id) => Ok(Key::Chunk(*id)),
            Key::Branch(name) => Ok(Key::Branch(name.copy(alloc)?)),
            Key::Tag(name) => Ok(Key::Tag(name.copy(alloc)?)),
            Key::Tombstone(name) => Ok(Key::Tombstone(name.copy(alloc)?)),
            Key::Lease(id) => Ok(Key::Lease(*id)),
        }
    }
}
