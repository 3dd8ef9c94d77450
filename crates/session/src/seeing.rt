//! Reads of nodes.

ghost use Rattle.std.specs.Prelude.{◌≡◌, Err, IfOk, IsOk, map, option_map};
ghost use Rattle.std.specs.Option.{option_copied};
ghost use Rattle.zarr_tree.specs.Held.{entry_in};
ghost use Rattle.session.specs.Arrays.{array_at, array_told};
ghost use Rattle.session.specs.Editing.{Answers, listed, text_at, text_found};

use crate::{Listing, Listings, Session};
use ice_ids::Id8;
use manifest_file::Place;
use std::alloc::{AllocError, Global};
use store_api::Refusal;
use zarr_meta::{ArrayView, Meta, MetaView};
use zarr_path::{Index, Path};
use zarr_tree::EditFault;

/// An array of a session's tree.
#[derive(Debug, Drop)]
pub struct ArrayAt<'a> {
    /// The id of its node.
    pub node: Id8,
    /// What its metadata says.
    pub array: &'a ArrayView,
}

/// The nodes as a listing.
fn as_listings(alloc: Global, rows: Vec<(Path, bool)>) -> Result<Listings, AllocError>
    ensures { IfOk result (λ l. l ≡ map (λ row. record { path = row.0; array = row.1 })
        rows.items) }
{
    let list = rows
        .into_iter()
        .map(|(path, array)| Listing { path, array })
        .collect(alloc)?;
    Ok(Listings::from_vec(list))
}

impl Session {
    /// The metadata of the node at a path, or `NoNode`. It takes no memory.
    pub fn get_meta(&self, path: &Path) -> Result<&Meta, Refusal>
        ensures { text_found result ≡ text_at self.now path.now }
    {
        match self.changes.lookup(&self.loaded, path.as_str()) {
            Some(found) => Ok(found.meta),
            None => Err(Refusal::Edit(EditFault::NoNode)),
        }
    }

    /// The array at a path: its node's id, and what its metadata says. It is refused by `NoNode` or `NotArray`, and takes no
    /// memory.
    pub fn find_array(&self, path: &Path) -> Result<ArrayAt<'_>, Refusal>
        ensures { array_told result ≡ array_at self.now path.now }
    {
        let Some(found) = self.changes.lookup(&self.loaded, path.as_str()) else {
            return Err(Refusal::Edit(EditFault::NoNode));
        };
        match &found.meta.view {
            MetaView::Array(array) => Ok(ArrayAt {
                node: found.id,
                array,
            }),
            MetaView::Group => Err(Refusal::Edit(EditFault::NotArray)),
        }
    }

    /// The session's own entry for a chunk: where its bytes are, or that none is held. The outer `None` is where there is no
    /// entry. It takes no memory.
    pub fn chunk_entry(&self, node: Id8, index: &Index) -> Option<Option<&Place>>
        ensures { option_map option_copied result ≡ entry_in self.now.held.chunks node index.now }
    {
        self.changes.chunk(node, index)
    }

    /// The nodes beneath a path, in the order of the paths' bytes; `NoNode` where the tree has no
    /// node at the path, or `NoMemory`.
    pub fn list_beneath(&self, path: &Path) -> Result<Listings, Refusal>
        ensures told { Answers (listed self.now path.now) result }
        ensures memory { result ≡ Err Refusal.NoMemory → IsOk (listed self.now path.now) }
    {
        if self.changes.lookup(&self.loaded, path.as_str()).is_none() {
            return Err(Refusal::Edit(EditFault::NoNode));
        }
        let Ok(rows) = self.changes.beneath(self.alloc, &self.loaded, path) else {
            return Err(Refusal::NoMemory);
        };
        match as_listings(self.alloc, rows) {
            Ok(list) => Ok(list),
            Err(_) => Err(Refusal::NoMemory),
        }
    }
}
