//! Chunks in the changes.

ghost use Rattle.std.specs.Prelude.{◌≡◌, Some, IfOk, OnOk, OnErr, option_map};
ghost use Rattle.std.specs.Option.{option_copied};
ghost use Rattle.zarr_tree.specs.Nodes.{array_in};
ghost use Rattle.zarr_tree.specs.Rows.{node_found};
ghost use Rattle.zarr_tree.specs.Edits.{unless};
ghost use Rattle.zarr_tree.specs.Held.{entry_in, nodes_over};
ghost use Rattle.zarr_changes.specs.Edits.{with_chunk_at, with_entry, without_chunk_at};
ghost use Rattle.zarr_changes.specs.Placing.{with_placed};
ghost use Rattle.zarr_changes.specs.Sets.{length_of, chunk_in, chunk_found, set_refusal, unset_refusal, chunks_of, Enters, FindsArray};

use crate::places::length_of;
use crate::placing::Placed;
use crate::set::ChangeSet;
use ice_ids::Id8;
use manifest_file::Place;
use std::alloc::{AllocError, Global};
use zarr_grid::{chunk_bytes, in_grid};
use zarr_meta::MetaView;
use zarr_path::{Index, Path};
use zarr_tree::{EditFault, Found, TreeLike, grid_law};

/// A chunk of an array that was looked for.
#[derive(Clone, Copy, Debug)]
pub struct ChunkAt {
    /// The array, by its node's id.
    pub node: Id8,
    /// How many bytes the chunk has.
    pub bytes: u64,
}

/// An array of the overlay with changed chunks.
#[derive(Debug, Drop)]
pub struct ChangedArray {
    /// Its path.
    pub path: Path,
    /// Its node's id.
    pub node: Id8,
    /// How many dimensions it has.
    pub rank: usize,
}

/// The chunk of this index of the array that a node is.
fn chunk_in(found: Found<'_>, index: &Index) -> Result<ChunkAt, EditFault>
    ensures { result ≡ chunk_in found.entry.id index.now (array_in (node_found found.entry).text) }
{
    grid_law();
    let MetaView::Array(array) = &found.meta.view else {
        return Err(EditFault::NotArray);
    };
    if !in_grid(array.shape.as_slice(), array.chunks.as_slice(), index) {
        return Err(EditFault::OutOfGrid);
    }
    Ok(ChunkAt {
        node: found.id,
        bytes: chunk_bytes(array.kind.size(), array.chunks.as_slice()),
    })
}

impl ChangeSet {
    /// The chunk of this index of the overlay's array at a path. It refuses exactly as setting no chunk there would, and
    /// takes no memory.
    pub fn find_chunk<B: TreeLike>(
        &self,
        base: &B,
        path: &Path,
        index: &Index,
    ) -> Result<ChunkAt, EditFault>
        ensures { result ≡ chunk_found (nodes_over self.now (B.nodes base.now)) path.now index.now }
    {
        match self.lookup(base, path.as_str()) {
            Some(found) => chunk_in(found, index),
            None => Err(EditFault::NoNode),
        }
    }

    /// The id of the overlay's array at a path, which takes so many bytes as its chunk of this index; or it refuses exactly
    /// as setting that chunk would. It takes no memory.
    pub fn array_to_set<B: TreeLike>(
        &self,
        base: &B,
        path: &Path,
        index: &Index,
        len: u64,
    ) -> Result<Id8, EditFault>
        ensures { FindsArray (nodes_over self.now (B.nodes base.now)) path.now index.now len
            result }
    {
        let chunk = self.find_chunk(base, path, index)?;
        if len != chunk.bytes {
            return Err(EditFault::ChunkLength {
                want: chunk.bytes,
                got: len,
            });
        }
        Ok(chunk.node)
    }

    /// Refuses exactly as setting a chunk of so many bytes would. It takes no memory.
    pub fn may_set<B: TreeLike>(
        &self,
        base: &B,
        path: &Path,
        index: &Index,
        len: u64,
    ) -> Result<(), EditFault>
        ensures { result ≡ unless (set_refusal (nodes_over self.now (B.nodes base.now)) path.now
            index.now len) tt }
    {
        self.array_to_set(base, path, index, len)?;
        Ok(())
    }

    /// The chunk of this index of the overlay's array at a path has its bytes at this place from now on. After a refusal,
    /// and where memory runs out, the set is as before.
    pub fn set_chunk<B: TreeLike>(
        &mut self,
        alloc: Global,
        base: &B,
        path: &Path,
        index: &Index,
        place: Place,
    ) -> Result<(), EditFault>
        ensures { Enters (set_refusal (nodes_over self.old (B.nodes base.now)) path.now index.now
            (length_of place)) (with_chunk_at self.old (B.nodes base.now) path.now index.now place)
            self.old result self.new }
    {
        let node = self.array_to_set(base, path, index, length_of(&place))?;
        let index = index.copy(alloc)?;
        self.enter_chunk(alloc, node, index, place)?;
        Ok(())
    }

    /// The chunk of this index of an array has its bytes at this place from now on, or memory runs out and the set is as before.
    /// Whether the overlay has such an array isn't asked.
    pub fn enter_chunk(
        &mut self,
        alloc: Global,
        node: Id8,
        index: Index,
        place: Place,
    ) -> Result<(), AllocError>
        ensures ok { OnOk result
            (self.new ≡ record self.old {
              chunks = with_entry self.old.chunks node index (Some place);
            }) }
        ensures err { OnErr result (self.new ≡ self.old) }
    {
        self.entries.insert(alloc, node, index, Some(place))
    }

    /// The chunks of an array have their bytes at these places from now on: all of them, or none where memory runs out. Whether
    /// the overlay has such an array isn't asked.
    pub fn enter_chunks(
        &mut self,
        alloc: Global,
        node: Id8,
        placed: Vec<Placed>,
    ) -> Result<(), AllocError>
        ensures ok { OnOk result
            (self.new ≡ record self.old {
              chunks = with_placed self.old.chunks node placed.items;
            }) }
        ensures err { OnErr result (self.new ≡ self.old) }
    {
        self.entries.insert_all(alloc, node, placed)
    }

    /// The overlay's array at a path has no chunk of this index from now on: of an added array the entry goes, of another one
    /// an entry says so. After a refusal, and where memory runs out, the set is as before.
    pub fn unset_chunk<B: TreeLike>(
        &mut self,
        alloc: Global,
        base: &B,
        path: &Path,
        index: &Index,
    ) -> Result<(), EditFault>
        ensures { Enters (unset_refusal (nodes_over self.old (B.nodes base.now)) path.now index.now)
            (without_chunk_at self.old (B.nodes base.now) path.now index.now) self.old result
            self.new }
    {
        let node = self.find_chunk(base, path, index)?.node;
        if self.added.find(path.as_str()).is_some() {
            self.entries.remove(&node, index);
            return Ok(());
        }
        let index = index.copy(alloc)?;
        self.entries.insert(alloc, node, index, None)?;
        Ok(())
    }

    /// The entry of a chunk: where its bytes are, or that none is held. The outer `None` is where there is no entry. It takes
    /// no memory.
    pub fn chunk(&self, node: Id8, index: &Index) -> Option<Option<&Place>>
        ensures { option_map option_copied result ≡ entry_in self.now.chunks node index.now }
    {
        self.entries.get(&node, index)
    }

    /// The entries of an array in the order of the indices.
    pub fn chunk_changes(
        &self,
        alloc: Global,
        node: Id8,
    ) -> Result<Vec<(Index, Option<Place>)>, AllocError>
        ensures { IfOk result (λ list. list.items ≡ chunks_of self.now.chunks node) }
    {
        self.entries.rows(alloc, &node)
    }
}
