//! Where the writing of a box stands.

use crate::given::Given;
use crate::kept_manifest::KeptManifest;
use crate::stages::Stage;
use ice_base::Bytes;
use ice_ids::Id12;
use session::{Placed, Session};
use std::alloc::Global;
use std::mem;
use zarr_path::Index;

/// The operation that comes next.
#[derive(Drop)]
pub(crate) enum WriteStage {
    /// A manifest or an object is got for a chunk.
    Reads(Stage),
    /// The object of a chunk is put.
    Puts {
        /// The chunk's index.
        index: Index,
        /// The object.
        id: Id12,
        /// The chunk's bytes.
        bytes: Bytes,
    },
    /// Nothing comes next.
    Ended,
}

impl WriteStage {
    ghost use Rattle.std.specs.Prelude.{◌≡◌};

    /// The operation that comes next, where none did.
    pub(crate) fn follow(&mut self, next: WriteStage)
        requires { self.old ≡ WriteStage.Ended }
        ensures { self.new ≡ next }
    {
        match mem::replace(self, next) {
            WriteStage::Ended => {}
            _ => unreachable!(),
        }
    }
}

/// A box that is being written.
#[derive(Drop)]
pub(crate) struct Run {
    pub(crate) alloc: Global,
    pub(crate) session: Session,
    pub(crate) given: Given,
    /// How many of the chunks that the box meets were begun.
    pub(crate) at: usize,
    pub(crate) kept: Option<KeptManifest>,
    /// The chunks so far, which are entered at the end.
    pub(crate) placed: Vec<Placed>,
    pub(crate) stage: WriteStage,
}

impl Run {
    ghost use Rattle.std.specs.Prelude.{◌≡◌};

    /// The session.
    pub(crate) fn into_session(self) -> Session
        ensures { result ≡ self.session }
    {
        let Run {
            session,
            given,
            kept,
            placed,
            stage,
            ..
        } = self;
        drop(given);
        drop(kept);
        drop(placed);
        drop(stage);
        session
    }
}
