//! The name of an object as text.

use crate::Key;
use std::fmt;

/// Icechunk specification version 1, "File layout".
impl fmt::Display for Key {
    ghost use Rattle.std.specs.Prelude.{Some};
    ghost use Rattle.object_store.specs.Names.{key_name};

    ghost output = { λ key. Some (key_name key) };

    fn fmt<W: fmt::Write>(&self, f: &mut fmt::Formatter<W>) -> fmt::Result {
        match self {
            Key::Snapshot(id) => write!(f, "snapshots/{id}"),
            Key::Manifest(id) => write!(f, "manifests/{id}"),
            Key::Txn(id) => write!(f, "transactions/{id}"),
            Key::Chunk(id) => write!(f, "chunks/{id}"),
            Key::Branch(name) => write!(f, "refs/branch.{name}/ref.json"),
            Key::Tag(name) => write!(f, "refs/tag.{name}/ref.json"),
            Key::Tombstone(name) => write!(f, "refs/tag.{name}/ref.json.deleted"),
            Key::Lease(id) => write!(f, "leases/{id}"),
        }
    }
}
