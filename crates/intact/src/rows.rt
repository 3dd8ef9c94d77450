//! Whether the rows of a snapshot are a tree's.

ghost use Rattle.std.specs.Prelude.{◌≡◌, not, IfOk};
ghost use Rattle.intact.specs.Rows.{first_unwell, stands};

use held_snapshot::HeldNodes;
use ice_ids::Id8;
use std::alloc::{AllocError, Global};
use std::collections::BTreeSet;
use zarr_path::parent_text;

/// Whether a path is `/`, or a group stands at its parent, which is looked up by halves.
fn stands(rows: &HeldNodes, path: &str) -> bool
    ensures { result ≡ stands rows.now path.now }
{
    if path == "/" {
        return true;
    }
    match rows.find(parent_text(path)) {
        Some(row) => !row.kind().is_array(),
        None => false,
    }
}

/// The number of the first row that has the id of an earlier one, or that isn't `/` and has no group row as its parent; `None`
/// exactly where there is none. It holds an id for each row.
pub fn first_unwell(alloc: Global, rows: &HeldNodes) -> Result<Option<usize>, AllocError>
    ensures { IfOk result (λ at. at ≡ first_unwell rows.now) }
{
    let mut ids: BTreeSet<Id8> = BTreeSet::new(alloc);
    for at in 0..rows.len() {
        let row = rows.at(at);
        if !ids.insert(row.id())? {
            return Ok(Some(at));
        }
        if !stands(rows, row.path()) {
            return Ok(Some(at));
        }
    }
    Ok(None)
}
