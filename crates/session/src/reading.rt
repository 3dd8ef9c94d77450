//! Where the reading of a chunk stands.

use crate::chunks::Value;
use ice_ids::Id12;
use ice_items::Items;
use std::mem;

/// The operation that comes next.
#[derive(Debug, Drop)]
pub enum Reading {
    /// A manifest is got.
    Manifest {
        /// The manifest.
        id: Id12,
        /// The manifests that may have the chunk.
        ids: Items<Id12>,
        /// The number of the one that comes behind it.
        at: usize,
    },
    /// The object is got of which the chunk is a part.
    Object {
        /// The object.
        id: Id12,
        /// The place of the chunk's first byte in it.
        offset: u64,
        /// The number of the chunk's bytes.
        length: u64,
    },
    /// The machine has ended.
    Ended,
}

impl Reading {
    ghost use Rattle.std.specs.Prelude.{◌≡◌};

    /// The operation that comes next, where none did.
    pub(crate) fn follow(&mut self, next: Reading)
        requires { self.old ≡ Reading.Ended }
        ensures { self.new ≡ next }
    {
        match mem::replace(self, next) {
            Reading::Ended => {}
            _ => unreachable!(),
        }
    }
}

/// How a reading begins.
#[derive(Debug, Drop)]
pub(crate) enum First {
    /// The chunk is read without any operation.
    Told(Value),
    /// There is something to be got.
    Reads(Reading),
}
