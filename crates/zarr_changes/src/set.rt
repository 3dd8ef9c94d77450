//! The set of changes.

ghost use Rattle.std.specs.Prelude.{◌≡◌, IfOk};
ghost use Rattle.std.specs.FinMap.{len};
ghost use Rattle.zarr_changes.specs.Edits.{nothing};

use crate::added::Added;
use crate::entries::Entries;
use crate::ids::IdSet;
use crate::texts::Texts;
use std::alloc::{AllocError, Global};
use std::marker::Model;

/// What a session has changed of its base, the tree that it began with. Each call is passed the same base, and speaks of
/// the overlay: the base under the changes. Contracts see what is held.
#[derive(Debug, Drop)]
pub struct ChangeSet {
    pub(crate) added: Added,
    pub(crate) dropped: IdSet,
    pub(crate) metas: Texts,
    pub(crate) entries: Entries,
}

impl Model for ChangeSet {
    ghost use Rattle.manifest_file.specs.declared.manifest.Place.{Place};
    ghost use Rattle.zarr_tree.specs.Held.{Held};
    ghost use Rattle.zarr_changes.specs.Codes.{coded_held, coded_place};

    ghost Value = { Held Place };

    ghost coded = { coded_held coded_place };

    ghost view = { λ s. record { dropped = s.dropped; added = s.added; metas = s.metas; chunks = s.entries } };
}

impl ChangeSet {
    /// No changes. It takes no memory.
    pub fn new(alloc: Global) -> ChangeSet
        ensures { result ≡ nothing }
    {
        ChangeSet {
            added: Added::new(alloc),
            dropped: IdSet::new(alloc),
            metas: Texts::new(alloc),
            entries: Entries::new(alloc),
        }
    }

    /// How many nodes were added.
    pub fn added_len(&self) -> usize
        ensures { result ≡ len self.now.added }
    {
        self.added.len()
    }

    /// The same changes once more.
    pub fn copy(&self, alloc: Global) -> Result<ChangeSet, AllocError>
        ensures { IfOk result (λ set. set ≡ self.now) }
    {
        Ok(ChangeSet {
            added: self.added.copy(alloc)?,
            dropped: self.dropped.copy()?,
            metas: self.metas.copy(alloc)?,
            entries: self.entries.copy(alloc)?,
        })
    }
}
