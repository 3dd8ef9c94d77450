//! Sets of ids.

ghost use Rattle.std.specs.Prelude.{◌≡◌, IfOk};
ghost use Rattle.ice_ids.specs.declared.Id8.{Id8 as TheId};
ghost use Rattle.zarr_tree.specs.Touched.{lists};

use ice_ids::Id8;
use std::alloc::{AllocError, Global};
use zarr_changes::IdSet;

/// The set of these ids.
pub(crate) fn set_of(alloc: Global, ids: &[Id8]) -> Result<IdSet, AllocError>
    ensures { IfOk result (λ set. (id : TheId) → lists set id ≡ lists ids.now id) }
{
    let mut set = IdSet::new(alloc);
    for id in ids {
        set.insert(*id)?;
    }
    Ok(set)
}
