//! Changes that are kept, to go back to.

ghost use Rattle.std.specs.Prelude.{◌≡◌, ◌≤◌, IfOk, IfErr};
ghost use Rattle.std.specs.FinMap.{len};
ghost use Rattle.zarr_tree.specs.Edits.{most_nodes};
ghost use Rattle.zarr_tree.specs.Held.{nodes_over};
ghost use Rattle.session.specs.Sessions.{base_nodes};

use crate::Session;
use ice_ids::Id12;
use std::mem;
use store_api::Refusal;
use zarr_changes::ChangeSet;

/// The changes of a session as they were, and its base.
#[derive(Debug, Drop)]
pub struct Saved {
    /// The base's id.
    pub base: Id12,
    /// The changes.
    pub changes: ChangeSet,
}

impl Session {
    /// The changes as they are, to go back to. It is refused by `NoMemory` alone.
    pub fn saved(&self) -> Result<Saved, Refusal>
        ensures saved { IfOk result
            (λ saved. saved ≡ record { base = self.now.base; changes = self.now.held }) }
        ensures listed { IfErr result (λ why. why ≡ Refusal.NoMemory) }
    {
        match self.changes.copy(self.alloc) {
            Ok(changes) => Ok(Saved {
                base: self.base,
                changes,
            }),
            Err(_) => Err(Refusal::NoMemory),
        }
    }

    /// Goes back to changes that were saved of this session, on the base that it has. It takes no memory.
    pub fn restore(&mut self, saved: Saved)
        requires base { saved.base ≡ self.old.base }
        requires few { len (nodes_over saved.changes (base_nodes self.old)) ≤ most_nodes }
        ensures { self.new ≡ record self.old { held = saved.changes } }
    {
        let Saved { changes, .. } = saved;
        drop(mem::replace(&mut self.changes, changes));
    }
}
