//! The paths beneath a path.

ghost use Rattle.std.specs.Prelude.{◌≡◌, IfOk, IsTrue};
ghost use Rattle.zarr_path.specs.Paths.{is_path, is_beneath};
ghost use Rattle.zarr_tree.specs.Held.{nodes_over};
ghost use Rattle.zarr_changes.specs.Sets.{beneath_in, rows_beneath};

use crate::kinds::is_array;
use crate::overlay::Overlay;
use crate::set::ChangeSet;
use std::alloc::{AllocError, Global};
use zarr_path::{Path, is_within};
use zarr_tree::TreeLike;

/// Whether the text of a path is that of one beneath another.
fn is_beneath(of: &str, path: &str) -> bool
    ensures { result ≡ is_beneath of.now path.now }
{
    is_within(of, path) && path != of
}

/// The path of this text.
pub fn path_of(alloc: Global, text: &str) -> Result<Path, AllocError>
    requires { IsTrue (is_path text.now) }
    ensures { IfOk result (λ path. path ≡ text.now) }
{
    Path::read(alloc, text).map_err(|_| AllocError)
}

/// The paths of an overlay beneath a path, and whether they are arrays'.
fn listed<B: TreeLike>(
    alloc: Global,
    mut overlay: Overlay<'_, B>,
    of: &str,
) -> Result<Vec<(Path, bool)>, AllocError>
    ensures { IfOk result (λ rows. rows.items ≡ beneath_in overlay.entry of.now) }
{
    let mut rows = Vec::new(alloc);
    while let Some((text, found)) = overlay.next() {
        if is_beneath(of, text) {
            rows.push((path_of(alloc, text)?, is_array(found.meta)))?;
        }
    }
    Ok(rows)
}

impl ChangeSet {
    /// The overlay's paths beneath a path, in the order of their bytes, and whether they are arrays'.
    pub fn beneath<B: TreeLike>(
        &self,
        alloc: Global,
        base: &B,
        path: &Path,
    ) -> Result<Vec<(Path, bool)>, AllocError>
        ensures { IfOk result
            (λ rows. rows.items ≡ rows_beneath (nodes_over self.now (B.nodes base.now)) path.now) }
    {
        listed(alloc, self.over(base), path.as_str())
    }
}
