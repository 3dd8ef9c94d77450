//! Where a commit stands.

use changed_snapshot::NewManifest;
use held_manifest::HeldManifest;
use ice_base::Bytes;
use ice_ids::Id12;
use snapshot_file::{Extents, ManifestRef};
use std::mem;

/// Manifests that were got, each with its extents in the list.
pub type Got = Vec<(Extents, HeldManifest)>;

/// The operation that comes next, with the bytes that it puts.
#[derive(Debug, Drop)]
pub enum Committing {
    /// A manifest of the first array that is left is got; these were got before.
    Old { manifest: ManifestRef, got: Got },
    /// The new manifest of the first array that is left is put.
    New { manifest: NewManifest, file: Bytes },
    /// The transaction log is put.
    Log { id: Id12, file: Bytes },
    /// The snapshot is put.
    Snapshot { id: Id12, file: Bytes },
    /// The branch is put over.
    Branch { id: Id12, file: Bytes },
    /// The machine has ended.
    Ended,
}

impl Committing {
    ghost use Rattle.std.specs.Prelude.{◌≡◌};

    /// The operation that comes next, where none did.
    pub(crate) fn follow(&mut self, next: Committing)
        requires { self.old ≡ Committing.Ended }
        ensures { self.new ≡ next }
    {
        match mem::replace(self, next) {
            Committing::Ended => {}
            _ => unreachable!(),
        }
    }
}
