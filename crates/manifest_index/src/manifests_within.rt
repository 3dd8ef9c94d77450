ghost use Rattle.std.specs.Prelude.{◌≡◌, IfOk};
ghost use Rattle.manifest_index.specs.Merging.{ids_within};

use held_snapshot::HeldManifestRefs;
use ice_ids::Id12;
use ice_items::Items;
use std::alloc::{AllocError, Global};
use zarr_path::Index;

/// The manifests of a list whose extents contain an index, in the order of the list.
///
/// # Errors
///
/// Memory may run out.
pub fn candidates(
    alloc: Global,
    refs: &HeldManifestRefs,
    index: &Index,
) -> Result<Items<Id12>, AllocError>
    ensures { IfOk result (λ ids. ids ≡ ids_within index.now refs.now) }
{
    let mut ids = Items::new(alloc);
    for at in 0..refs.len() {
        let manifest = refs.at(at);
        if manifest.extents().contain(index.parts()) {
            ids.push(manifest.id())?;
        }
    }
    Ok(ids)
}
