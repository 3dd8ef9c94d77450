//! Entries for chunks.

ghost use Rattle.std.specs.Prelude.{◌≡◌, ◌++◌, [], map, not, IfOk, OnOk, OnErr, IsTrue, option_map};
ghost use Rattle.std.specs.List.{filter};
ghost use Rattle.std.specs.Map.{keys_of, remove_entry};
ghost use Rattle.std.specs.BTreeMap.{is_at, insert_entry};
ghost use Rattle.std.specs.Option.{option_copied};
ghost use Rattle.ice_ids.specs.Text.{id8_cmp};
ghost use Rattle.zarr_path.specs.Indices.{index_cmp};
ghost use Rattle.zarr_tree.specs.Nodes.{same_numbers};
ghost use Rattle.zarr_tree.specs.Touched.{lists, IdsAscend, IndicesAscend};
ghost use Rattle.zarr_tree.specs.Held.{entry_in, indices_of, indices_in_order};
ghost use Rattle.zarr_changes.specs.Edits.{with_entry, without_entry, lists_key};
ghost use Rattle.zarr_changes.specs.Placing.{with_placed};
ghost use Rattle.zarr_changes.specs.Sets.{chunks_of, has_chunks};

use crate::ids::IdSet;
use crate::keys::ChunkKey;
use crate::places::copy_entry;
use crate::placing::{Chunks, Placed, enter_all};
use ice_ids::Id8;
use ice_items::Items;
use manifest_file::Place;
use std::alloc::{AllocError, Global};
use std::collections::BTreeMap;
use std::marker::Model;
use zarr_path::Index;

/// The entries of arrays, by the ids of their nodes.
type Arrays = BTreeMap<Id8, Chunks>;

/// An index, and its entry.
type ChunkRow = (Index, Option<Place>);

/// An entry for the chunk of an index, in place of what there is for it. Where memory runs out, all is as before.
fn enter(chunks: &mut Chunks, index: Index, entry: Option<Place>) -> Result<(), AllocError>
    ensures ok { OnOk result (chunks.new.entries ≡ insert_entry index_cmp chunks.old.entries index
        entry) }
    ensures err { OnErr result (chunks.new.entries ≡ chunks.old.entries) }
    ensures order { IndicesAscend (keys_of chunks.old.entries) }
{
    chunks.insert(index, entry)?;
    Ok(())
}

/// Takes away the entry for the chunk of an index.
fn forget(chunks: &mut Chunks, index: &Index)
    ensures { chunks.new.entries ≡ filter (λ row. not (same_numbers row.0 index.now))
        chunks.old.entries }
{
    // The contract of `len` says that the indices ascend.
    let _ordered = chunks.len();
    chunks.remove(index);
}

/// An array with its entries. Where memory runs out, all is as before.
fn enter_array(arrays: &mut Arrays, id: Id8, chunks: Chunks) -> Result<(), AllocError>
    ensures ok { OnOk result (arrays.new.entries ≡ insert_entry id8_cmp arrays.old.entries id
        chunks) }
    ensures err { OnErr result (arrays.new.entries ≡ arrays.old.entries) }
    ensures order { IdsAscend (keys_of arrays.new.entries) }
{
    arrays.insert(id, chunks)?;
    Ok(())
}

/// Without an array.
fn leave_array(arrays: &mut Arrays, id: &Id8)
    ensures left { arrays.new.entries ≡ remove_entry (is_at (id8_cmp id.now)) arrays.old.entries }
    ensures order { IdsAscend (keys_of arrays.new.entries) }
{
    arrays.remove(id);
}

/// The same entries once more.
fn copy_chunks(alloc: Global, chunks: &Chunks) -> Result<Chunks, AllocError>
    ensures { IfOk result (λ copy. copy.entries ≡ chunks.now.entries) }
{
    let mut copy = BTreeMap::new(alloc);
    for (index, entry) in chunks.iter() {
        enter(&mut copy, index.copy(alloc)?, copy_entry(alloc, entry)?)?;
    }
    Ok(copy)
}

/// The entries in the order of their indices.
fn rows_of(alloc: Global, chunks: &Chunks) -> Result<Vec<ChunkRow>, AllocError>
    ensures { IfOk result (λ rows. rows.items ≡ chunks.now.entries) }
{
    let mut rows = Vec::with_capacity(alloc, chunks.len())?;
    for (index, entry) in chunks.iter() {
        rows.push((index.copy(alloc)?, copy_entry(alloc, entry)?))?;
    }
    Ok(rows)
}

/// The indices of entries in their order.
fn indices_in(alloc: Global, chunks: &Chunks) -> Result<Items<Index>, AllocError>
    ensures value { IfOk result (λ indices. indices ≡ keys_of chunks.now.entries) }
    ensures order { IndicesAscend (keys_of chunks.now.entries) }
{
    let mut indices = Items::from_vec(Vec::with_capacity(alloc, chunks.len())?);
    for (index, _) in chunks.iter() {
        indices.push(index.copy(alloc)?)?;
    }
    Ok(indices)
}

/// The chunks of an array that have entries, behind others.
fn push_keys(
    alloc: Global,
    keys: &mut Items<ChunkKey>,
    id: Id8,
    chunks: &Chunks,
) -> Result<(), AllocError>
    ensures { OnOk result (keys.new ≡ keys.old ++ map (λ row. (id, row.0)) chunks.now.entries) }
{
    for (index, _) in chunks.iter() {
        keys.push((id, index.copy(alloc)?))?;
    }
    Ok(())
}

/// Entries for chunks of arrays. Contracts see them in the order of the ids' bytes, and then of the indices.
#[derive(Debug, Drop)]
pub(crate) struct Entries {
    arrays: Arrays,
}

impl Model for Entries {
    ghost use Rattle.std.specs.Prelude.{List};
    ghost use Rattle.std.specs.Map.{keys_of};
    ghost use Rattle.manifest_file.specs.declared.manifest.Place.{Place as ThePlace};
    ghost use Rattle.zarr_tree.specs.Touched.{IdsAscend};
    ghost use Rattle.zarr_tree.specs.Held.{HeldEntry};
    ghost use Rattle.zarr_changes.specs.inside.Kept.{array_rows, entry_rows};

    ghost Value = { List (HeldEntry ThePlace) };

    ghost view = { λ e. entry_rows (array_rows e.arrays.entries) };

    ghost invariant = { λ e. IdsAscend (keys_of e.arrays.entries) };
}

impl Entries {
    /// No entries. It takes no memory.
    pub(crate) fn new(alloc: Global) -> Entries
        ensures { result ≡ [] }
    {
        Entries {
            arrays: BTreeMap::new(alloc),
        }
    }

    /// Whether there is no array with entries. Where that is so, there are none.
    pub(crate) fn is_empty(&self) -> bool
        ensures { IsTrue result → self.now ≡ [] }
    {
        self.arrays.is_empty()
    }

    /// Whether an array has entries.
    pub(crate) fn has(&self, node: &Id8) -> bool
        ensures { result ≡ has_chunks self.now node.now }
    {
        match self.arrays.get(node) {
            Some(chunks) => !chunks.is_empty(),
            None => false,
        }
    }

    /// The entry of a chunk.
    pub(crate) fn get(&self, node: &Id8, index: &Index) -> Option<Option<&Place>>
        ensures { option_map option_copied result ≡ entry_in self.now node.now index.now }
    {
        let entry = self.arrays.get(node)?.get(index)?;
        Some(entry.as_ref())
    }

    /// An entry for a chunk, in place of what there is for it. Where memory runs out, all is as before.
    pub(crate) fn insert(
        &mut self,
        alloc: Global,
        node: Id8,
        index: Index,
        entry: Option<Place>,
    ) -> Result<(), AllocError>
        ensures ok { OnOk result (self.new ≡ with_entry self.old node index entry) }
        ensures err { OnErr result (self.new ≡ self.old) }
    {
        match self.arrays.get_mut(&node) {
            Some(chunks) => enter(chunks, index, entry),
            None => {
                let mut chunks = BTreeMap::new(alloc);
                enter(&mut chunks, index, entry)?;
                enter_array(&mut self.arrays, node, chunks)
            }
        }
    }

    /// Entries for chunks of an array, in place of what there is for them: all of them, or none where memory runs out.
    pub(crate) fn insert_all(
        &mut self,
        alloc: Global,
        node: Id8,
        placed: Vec<Placed>,
    ) -> Result<(), AllocError>
        ensures ok { OnOk result (self.new ≡ with_placed self.old node placed.items) }
        ensures err { OnErr result (self.new ≡ self.old) }
    {
        if placed.is_empty() {
            return Ok(());
        }
        match self.arrays.get_mut(&node) {
            Some(chunks) => enter_all(alloc, chunks, placed),
            None => {
                let mut chunks = BTreeMap::new(alloc);
                enter_all(alloc, &mut chunks, placed)?;
                enter_array(&mut self.arrays, node, chunks)
            }
        }
    }

    /// Takes away the entry of a chunk, and no more.
    fn forget(&mut self, node: &Id8, index: &Index)
        ensures { self.new ≡ without_entry self.old node.now index.now }
    {
        if let Some(chunks) = self.arrays.get_mut(node) {
            forget(chunks, index);
        }
    }

    /// Lets go of an array that has no entries.
    fn prune(&mut self, node: &Id8)
        ensures { self.new ≡ self.old }
    {
        if !self.has(node) {
            leave_array(&mut self.arrays, node);
        }
    }

    /// Takes away the entry of a chunk. An array without entries isn't kept.
    pub(crate) fn remove(&mut self, node: &Id8, index: &Index)
        ensures { self.new ≡ without_entry self.old node.now index.now }
    {
        self.forget(node, index);
        self.prune(node);
    }

    /// Takes away the entries of these chunks.
    pub(crate) fn remove_each(&mut self, out: &[ChunkKey])
        ensures { self.new ≡ filter (λ row. not (lists_key out.now row.0 row.1)) self.old }
    {
        for key in out {
            self.remove(&key.0, &key.1);
        }
    }

    /// Takes away the entries of these arrays.
    pub(crate) fn remove_all(&mut self, ids: &IdSet)
        ensures { self.new ≡ filter (λ row. not (lists ids.now row.0)) self.old }
    {
        self.arrays.retain(|id, _| !ids.contains(id));
    }

    /// The entries of an array in the order of the indices.
    pub(crate) fn rows(&self, alloc: Global, node: &Id8) -> Result<Vec<ChunkRow>, AllocError>
        ensures { IfOk result (λ rows. rows.items ≡ chunks_of self.now node.now) }
    {
        match self.arrays.get(node) {
            Some(chunks) => rows_of(alloc, chunks),
            None => Ok(Vec::new(alloc)),
        }
    }

    /// The indices of an array's entries in their order.
    pub(crate) fn indices(&self, alloc: Global, node: &Id8) -> Result<Items<Index>, AllocError>
        ensures { IfOk result
            (λ indices. indices ≡ indices_in_order (indices_of self.now node.now)) }
    {
        match self.arrays.get(node) {
            Some(chunks) => indices_in(alloc, chunks),
            None => Ok(Items::new(alloc)),
        }
    }

    /// The chunks that have entries, in their order.
    pub(crate) fn keys(&self, alloc: Global) -> Result<Items<ChunkKey>, AllocError>
        ensures { IfOk result (λ keys. keys ≡ map (λ row. (row.0, row.1)) self.now) }
    {
        let mut keys = Items::new(alloc);
        for (id, chunks) in self.arrays.iter() {
            push_keys(alloc, &mut keys, *id, chunks)?;
        }
        Ok(keys)
    }

    /// The same entries once more.
    pub(crate) fn copy(&self, alloc: Global) -> Result<Entries, AllocError>
        ensures { IfOk result (λ entries. entries ≡ self.now) }
    {
        let mut arrays = BTreeMap::new(alloc);
        for (id, chunks) in self.arrays.iter() {
            enter_array(&mut arrays, *id, copy_chunks(alloc, chunks)?)?;
        }
        Ok(Entries { arrays })
    }
}
