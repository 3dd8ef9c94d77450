//! Chunks that are entered at once.

ghost use Rattle.std.specs.Prelude.{◌≡◌, OnOk, OnErr};
ghost use Rattle.session.specs.Placing.{set_allowed, with_places};

use crate::Session;
use crate::editing::refusal_of_edit;
use std::alloc::AllocError;
use store_api::Refusal;
use zarr_changes::Placed;
use zarr_path::{Index, Path};

impl Session {
    /// Refuses as a set of a chunk of so many bytes would, before it draws an id: by `ReadOnly`, `NoNode`, `NotArray`,
    /// `OutOfGrid` or `ChunkLength`, the first in this order. It takes no memory.
    pub fn may_set(&self, path: &Path, index: &Index, len: u64) -> Result<(), Refusal>
        ensures { result ≡ set_allowed self.now path.now index.now len }
    {
        if !self.writes() {
            return Err(Refusal::ReadOnly);
        }
        match self.changes.may_set(&self.loaded, path, index, len) {
            Ok(()) => Ok(()),
            Err(fault) => Err(refusal_of_edit(fault)),
        }
    }

    /// Enters where chunks of the array at a path are: all of them, or none where memory runs out. Whether the array takes them
    /// isn't asked; `may_set` tells. Where no node is at the path, none is entered.
    pub fn enter_chunks(&mut self, path: &Path, placed: Vec<Placed>) -> Result<(), AllocError>
        ensures ok { OnOk result (self.new ≡ with_places self.old path.now placed.items) }
        ensures err { OnErr result (self.new ≡ self.old) }
    {
        match self.changes.lookup(&self.loaded, path.as_str()) {
            Some(found) => {
                let node = found.id;
                self.changes.enter_chunks(self.alloc, node, placed)
            }
            None => Ok(()),
        }
    }
}
