//! Arrays of the overlay that have entries.

ghost use Rattle.std.specs.Prelude.{◌≡◌, ◌++◌, List, ℕ, IfOk, OnOk, IsTrue, option_to_list};
ghost use Rattle.std.specs.List.{list_any, filter, filter_map};
ghost use Rattle.zarr_path.specs.Paths.{is_path};
ghost use Rattle.zarr_tree.specs.Nodes.{Node as TheNode, is_array};
ghost use Rattle.zarr_tree.specs.Rows.{node_found};
ghost use Rattle.zarr_tree.specs.Held.{Rows, written_rows};
ghost use Rattle.zarr_changes.specs.Sets.{array_of_row, changed_arrays};
ghost use Rattle.zarr_changes.specs.inside.Touching.{IsOf, with_entries, chunk_lists};

use crate::chunks::ChangedArray;
use crate::entries::Entries;
use crate::kinds::is_array;
use crate::listing::path_of;
use crate::net::Kinds;
use crate::overlay::Overlay;
use crate::set::ChangeSet;
use ice_ids::Id8;
use ice_items::Items;
use std::alloc::{AllocError, Global};
use zarr_meta::MetaView;
use zarr_tree::{ArrayChunks, Found, TreeLike};

/// The ids of an overlay's nodes that have entries.
fn kinds_with<B: TreeLike>(
    alloc: Global,
    entries: &Entries,
    mut overlay: Overlay<'_, B>,
) -> Result<Kinds, AllocError>
    ensures { IfOk result (λ kinds. IsOf kinds (with_entries entries.now overlay.entry)) }
{
    let mut kinds = Kinds::new(alloc);
    while let Some((_, found)) = overlay.next() {
        if entries.has(&found.id) {
            kinds.enter(found)?;
        }
    }
    Ok(kinds)
}

/// Whether an array of an overlay has entries.
fn any_with<B: TreeLike>(entries: &Entries, mut overlay: Overlay<'_, B>) -> bool
    ensures { result ≡ list_any (λ row. is_array row.1.text)
        (with_entries entries.now overlay.entry) }
{
    while let Some((_, found)) = overlay.next() {
        if entries.has(&found.id) && is_array(found.meta) {
            return true;
        }
    }
    false
}

/// One more array, if the node is one.
fn push_array(
    alloc: Global,
    arrays: &mut Items<ChangedArray>,
    text: &str,
    found: Found<'_>,
) -> Result<(), AllocError>
    requires { IsTrue (is_path text.now) }
    ensures { OnOk result
        (arrays.new ≡ arrays.old ++ option_to_list
        (array_of_row (text.now, node_found found.entry))) }
{
    if let MetaView::Array(array) = &found.meta.view {
        arrays.push(ChangedArray {
            path: path_of(alloc, text)?,
            node: found.id,
            rank: array.shape.len(),
        })?;
    }
    Ok(())
}

/// The arrays of an overlay that have entries.
fn arrays_with<B: TreeLike>(
    alloc: Global,
    entries: &Entries,
    mut overlay: Overlay<'_, B>,
) -> Result<Items<ChangedArray>, AllocError>
    ensures { IfOk result
        (λ arrays. arrays ≡ filter_map array_of_row (with_entries entries.now overlay.entry)) }
{
    let mut arrays = Items::new(alloc);
    while let Some((text, found)) = overlay.next() {
        if entries.has(&found.id) {
            push_array(alloc, &mut arrays, text, found)?;
        }
    }
    Ok(arrays)
}

/// Arrays, and the indices of their entries.
pub(crate) fn chunk_lists(
    alloc: Global,
    entries: &Entries,
    ids: &[Id8],
) -> Result<Items<ArrayChunks>, AllocError>
    ensures { IfOk result (λ arrays. arrays ≡ chunk_lists entries.now ids.now) }
{
    let mut arrays = Items::new(alloc);
    for node in ids {
        arrays.push(ArrayChunks {
            node: *node,
            chunks: entries.indices(alloc, node)?,
        })?;
    }
    Ok(arrays)
}

impl ChangeSet {
    /// The ids of the overlay's nodes that have entries.
    pub(crate) fn written<B: TreeLike>(&self, alloc: Global, base: &B) -> Result<Kinds, AllocError>
        ensures { IfOk result (λ kinds. IsOf kinds (written_rows self.now (B.nodes base.now))) }
    {
        if self.entries.is_empty() {
            return Ok(Kinds::new(alloc));
        }
        kinds_with(alloc, &self.entries, self.over(base))
    }

    /// Whether an array of the overlay has entries.
    pub(crate) fn has_written<B: TreeLike>(&self, base: &B) -> bool
        ensures { result ≡ list_any (λ row. is_array row.1.text)
            (written_rows self.now (B.nodes base.now)) }
    {
        if self.entries.is_empty() {
            return false;
        }
        any_with(&self.entries, self.over(base))
    }

    /// The overlay's arrays that have entries, in the order of the bytes of their paths.
    pub fn changed_arrays<B: TreeLike>(
        &self,
        alloc: Global,
        base: &B,
    ) -> Result<Items<ChangedArray>, AllocError>
        ensures { IfOk result (λ arrays. arrays ≡ changed_arrays self.now (B.nodes base.now)) }
    {
        if self.entries.is_empty() {
            return Ok(Items::new(alloc));
        }
        arrays_with(alloc, &self.entries, self.over(base))
    }
}
