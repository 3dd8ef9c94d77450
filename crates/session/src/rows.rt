//! The manifests of the base's arrays.

ghost use Rattle.std.specs.Prelude.{◌≡◌};
ghost use Rattle.changed_snapshot.specs.Rows.{own_manifests};

use crate::Session;
use held_snapshot::HeldManifestRefs;
use ice_ids::Id8;
use zarr_path::Path;

impl Session {
    /// The manifests that the base has for this node at a path; none where another node stands there, or none. The row is found
    /// by halves, without memory.
    pub fn manifests(&self, path: &Path, node: Id8) -> HeldManifestRefs<'_>
        ensures { result ≡ own_manifests self.now.rows path.now node }
    {
        match self.loaded.file().nodes().find(path.as_str()) {
            Some(row) if row.id() == node => row.manifests(),
            _ => HeldManifestRefs::none(),
        }
    }
}
