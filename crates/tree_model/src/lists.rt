//! Lists of ids, and whether paths and indices are the same.

ghost use Rattle.std.specs.Prelude.{◌≡◌, ◌++◌, ◌∷◌, [], if◌then◌else◌, OnOk};
ghost use Rattle.zarr_path.specs.Paths.{same_path};
ghost use Rattle.zarr_tree.specs.Nodes.{same_numbers};
ghost use Rattle.zarr_tree.specs.Touched.{lists};

use ice_ids::Id8;
use ice_items::Items;
use std::alloc::AllocError;
use zarr_path::Index;

/// Whether two paths are the same.
pub(crate) fn same_path(path: &str, other: &str) -> bool
    ensures { result ≡ same_path path.now other.now }
{
    path == other
}

/// Whether two indices are the same.
pub(crate) fn same_index(index: &Index, other: &Index) -> bool
    ensures { result ≡ same_numbers index.now other.now }
{
    *index == *other
}

/// Whether a list has an id.
pub(crate) fn contains(ids: &[Id8], id: &Id8) -> bool
    ensures { result ≡ lists ids.now id.now }
{
    ids.iter().any(|other| *other == *id)
}

/// Pushes an id, if it is to be listed.
pub(crate) fn push_if(ids: &mut Items<Id8>, listed: bool, id: Id8) -> Result<(), AllocError>
    ensures { OnOk result (ids.new ≡ ids.old ++ (if listed then id ∷ [] else [])) }
{
    if listed {
        ids.push(id)?;
    }
    Ok(())
}
