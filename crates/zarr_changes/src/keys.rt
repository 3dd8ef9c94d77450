//! What changes hold, without texts and places.

ghost use Rattle.std.specs.Prelude.{◌≡◌, map, IfOk};
ghost use Rattle.std.specs.FinMap as finmap;
ghost use Rattle.zarr_tree.specs.Held.{nodes_over};
ghost use Rattle.zarr_changes.specs.Edits.{without_chunks};
ghost use Rattle.zarr_changes.specs.Sets.{keys_held};

use crate::added::AddedRows;
use crate::listing::path_of;
use crate::overlay::Overlay;
use crate::set::ChangeSet;
use ice_ids::Id8;
use ice_items::Items;
use std::alloc::{AllocError, Global};
use zarr_path::{Index, Path};
use zarr_tree::{Ids, TreeLike};

/// A chunk, by the id of its array's node and its index.
pub type ChunkKey = (Id8, Index);

/// What changes hold, without texts and places.
#[derive(Debug, Drop)]
pub struct ChangeKeys {
    /// The ids of nodes that were dropped, in the order of their bytes.
    pub dropped: Ids,
    /// The paths of added nodes, in the order of their bytes.
    pub added: Items<Path>,
    /// The ids of nodes with other metadata, in the order of their bytes.
    pub metas: Ids,
    /// The chunks that have entries, in the order of the ids' bytes and then of the indices.
    pub chunks: Items<ChunkKey>,
}

/// The paths of added nodes.
fn added_paths(alloc: Global, mut rows: AddedRows<'_>) -> Result<Items<Path>, AllocError>
    ensures { IfOk result (λ paths. paths ≡ map (λ row. row.0) rows.entry) }
{
    let mut paths = Items::new(alloc);
    while let Some((text, _)) = rows.next() {
        paths.push(path_of(alloc, text)?)?;
    }
    Ok(paths)
}

/// The paths of an overlay.
fn paths_in<B: TreeLike>(
    alloc: Global,
    mut overlay: Overlay<'_, B>,
) -> Result<Items<Path>, AllocError>
    ensures { IfOk result (λ paths. paths ≡ map (λ row. row.0) overlay.entry) }
{
    let mut paths = Items::new(alloc);
    while let Some((text, _)) = overlay.next() {
        paths.push(path_of(alloc, text)?)?;
    }
    Ok(paths)
}

impl ChangeSet {
    /// What the set holds, without texts and places.
    pub fn keys(&self, alloc: Global) -> Result<ChangeKeys, AllocError>
        ensures { IfOk result (λ keys. keys ≡ keys_held self.now) }
    {
        Ok(ChangeKeys {
            dropped: self.dropped.items(alloc)?,
            added: added_paths(alloc, self.added.rows())?,
            metas: self.metas.ids(alloc)?,
            chunks: self.entries.keys(alloc)?,
        })
    }

    /// The overlay's paths in the order of their bytes.
    pub fn paths<B: TreeLike>(&self, alloc: Global, base: &B) -> Result<Items<Path>, AllocError>
        ensures { IfOk result
            (λ paths. paths ≡ finmap.keys (nodes_over self.now (B.nodes base.now))) }
    {
        paths_in(alloc, self.over(base))
    }

    /// Takes away the entries of these chunks.
    pub fn take_out(&mut self, out: &[ChunkKey])
        ensures { self.new ≡ without_chunks self.old out.now }
    {
        self.entries.remove_each(out);
    }
}
