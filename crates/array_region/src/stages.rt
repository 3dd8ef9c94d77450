//! Where the reading of a box stands.

use ice_ids::Id12;
use ice_items::Items;
use session::Value;
use std::mem;
use zarr_path::Index;

/// The operation that comes next, and what it is for.
#[derive(Drop)]
pub(crate) enum Stage {
    /// A manifest is got.
    Manifest {
        /// The chunk's index.
        index: Index,
        /// The manifest.
        id: Id12,
        /// The manifests that may have the chunk.
        ids: Items<Id12>,
        /// The number of the one that comes behind it.
        at: usize,
    },
    /// The object is got of which the chunk is a part.
    Object {
        /// The chunk's index.
        index: Index,
        /// The object.
        id: Id12,
        /// The place of the chunk's first byte in it.
        offset: u64,
        /// The number of the chunk's bytes.
        length: u64,
    },
    /// The machine has ended.
    Ended,
}

impl Stage {
    ghost use Rattle.std.specs.Prelude.{◌≡◌};

    /// The operation that comes next, where none did.
    pub(crate) fn follow(&mut self, next: Stage)
        requires { self.old ≡ Stage.Ended }
        ensures { self.new ≡ next }
    {
        match mem::replace(self, next) {
            Stage::Ended => {}
            _ => unreachable!(),
        }
    }
}

/// What a look for a chunk came to.
#[derive(Drop)]
pub(crate) enum Found {
    /// The chunk of this index was read.
    Told(Index, Value),
    /// Something is to be got.
    Gets(Stage),
}
