//! What a mirror did, and how it ended.

ghost use Rattle.std.specs.Prelude.{◌≡◌, IfOk};
ghost use Rattle.object_store.specs.declared.keys.Key.TheVariants as Key;
ghost use Rattle.mirror_reports.specs.Told.{key_of};

use ice_base::RefName;
use ice_ids::Id12;
use ice_items::Items;
use std::alloc::{AllocError, Global};
use store_api::{Key, Refusal};

/// A branch or a tag.
#[derive(Debug, Drop)]
pub struct RefId {
    /// Whether it is a tag.
    pub tag: bool,
    /// Its name.
    pub name: RefName,
}

/// How many objects were put in the target: those whose put was told as done.
#[derive(Clone, Copy, Debug, PartialEq, Eq)]
pub struct Mirrored {
    /// How many snapshots.
    pub snapshots: u64,
    /// How many transaction logs.
    pub logs: u64,
    /// How many manifests.
    pub manifests: u64,
    /// How many objects with chunks.
    pub chunks: u64,
}

/// What became of a ref.
#[derive(Debug, Drop)]
pub struct MirrorRef {
    /// Whether it is a tag.
    pub tag: bool,
    /// Its name.
    pub name: RefName,
    /// The snapshot that it named in the source, and names in the target.
    pub id: Id12,
    /// Whether it was put in the target, or left there.
    pub put: bool,
}

/// What became of refs, in the order in which they were copied.
pub type MirrorRefs = Items<MirrorRef>;

/// What a mirror did, whatever its end.
#[derive(Debug, Drop)]
pub struct MirrorEnd {
    /// The refs that name a snapshot in the target now that the source's named.
    pub refs: MirrorRefs,
    /// How many objects were put, or why the mirror was refused.
    pub result: Result<Mirrored, Refusal>,
}

impl RefId {
    /// The key at which it stands.
    pub fn key(&self, alloc: Global) -> Result<Key, AllocError>
        ensures { IfOk result (λ key. key ≡ key_of self.now) }
    {
        let name = self.name.copy(alloc)?;
        if self.tag {
            Ok(Key::Tag(name))
        } else {
            Ok(Key::Branch(name))
        }
    }

    /// The key of its tombstone, if it is a tag.
    pub fn tombstone(&self, alloc: Global) -> Result<Key, AllocError>
        ensures { IfOk result (λ key. key ≡ Key.Tombstone self.now.name) }
    {
        Ok(Key::Tombstone(self.name.copy(alloc)?))
    }
}
