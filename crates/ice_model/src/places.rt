//! Where is looked: at all paths and all indices that are drawn.

ghost use Rattle.std.specs.Prelude.{◌≡◌, length, IfOk};

use crate::drawing::{INDICES, PATHS, index_of, path_of};
use ice_items::Items;
use std::alloc::{AllocError, Global};
use zarr_path::{Index, Path};

/// All paths and all indices that are drawn.
#[derive(Drop)]
pub struct Places {
    /// The paths.
    pub paths: Items<Path>,
    /// The indices.
    pub indices: Items<Index>,
}

/// The paths.
fn paths(alloc: Global) -> Result<Items<Path>, AllocError>
    ensures { IfOk result (λ paths. length paths ≡ 11) }
{
    let mut all = Items::new(alloc);
    for text in &PATHS {
        all.push(path_of(alloc, text)?)?;
    }
    Ok(all)
}

/// The indices.
fn indices(alloc: Global) -> Result<Items<Index>, AllocError>
    ensures { IfOk result (λ indices. length indices ≡ 8) }
{
    let mut all = Items::new(alloc);
    for numbers in &INDICES {
        all.push(index_of(alloc, numbers)?)?;
    }
    Ok(all)
}

impl Places {
    /// All of them.
    pub fn new(alloc: Global) -> Result<Places, AllocError>
        ensures paths { IfOk result (λ places. length places.paths ≡ 11) }
        ensures indices { IfOk result (λ places. length places.indices ≡ 8) }
    {
        Ok(Places {
            paths: paths(alloc)?,
            indices: indices(alloc)?,
        })
    }
}
