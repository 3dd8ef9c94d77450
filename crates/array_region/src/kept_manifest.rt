//! The manifest that was got last.

ghost use Rattle.std.specs.Prelude.{◌≡◌};
ghost use Rattle.std.specs.Option.{option_copied};
ghost use Rattle.array_region.specs.Reading.{file_kept};
ghost use Rattle.array_region.specs.Getting.{kept_of};

use held_manifest::HeldManifest;
use ice_ids::Id12;

/// A manifest, as it was got.
#[derive(Drop)]
pub(crate) struct KeptManifest {
    pub(crate) id: Id12,
    pub(crate) held: HeldManifest,
}

/// The manifest of this id, where it is the one that is kept.
pub(crate) fn file_kept(kept: &Option<KeptManifest>, id: Id12) -> Option<&HeldManifest>
    ensures { option_copied result ≡ file_kept (kept_of kept.now) id }
{
    match kept {
        Some(kept) if kept.id == id => Some(&kept.held),
        _ => None,
    }
}
