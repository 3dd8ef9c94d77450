//! What changes hold, and what they touch.

ghost use Rattle.std.specs.Prelude.{◌≡◌, IsTrue, OnOk};
ghost use Rattle.zarr_tree.specs.Held.{touched};
ghost use Rattle.zarr_tree.specs.Nodes.{same_numbers};
ghost use Rattle.zarr_tree.specs.Touched.{lists, lists_chunk, lists_index};
ghost use Rattle.tree_model.specs.Models.{changes_of, tree_of};
ghost use Rattle.ice_model.specs.Lists.{has_chunks, has_chunks_of, has_ids, same_chunks, same_ids, SameLists, TouchesAlike};

use crate::stops::{Stop, expect};
use ice_ids::Id8;
use ice_items::Items;
use std::alloc::Global;
use tree_model::{Changes, Tree};
use zarr_changes::{ChangeKeys, ChangeSet, ChunkKey};
use zarr_path::Index;
use zarr_tree::{ArrayChunks, Touched};

/// Whether a list has an id.
fn has_id(ids: &[Id8], id: &Id8) -> bool
    ensures { result ≡ lists ids.now id.now }
{
    ids.iter().any(|other| *other == *id)
}

/// Whether one list has all ids of another.
fn has_ids(ids: &[Id8], others: &[Id8]) -> bool
    ensures { result ≡ has_ids ids.now others.now }
{
    others.iter().all(|other| has_id(ids, other))
}

/// Whether two lists have the same ids.
fn same_ids(ids: &Items<Id8>, others: &Items<Id8>) -> bool
    ensures { result ≡ same_ids ids.now others.now }
{
    has_ids(ids.as_slice(), others.as_slice()) && has_ids(others.as_slice(), ids.as_slice())
}

/// Whether two indices are the same.
fn same_index(index: &Index, other: &Index) -> bool
    ensures { result ≡ same_numbers index.now other.now }
{
    *index == *other
}

/// Whether indices have this one.
fn has_index(indices: &[Index], index: &Index) -> bool
    ensures { result ≡ lists_index indices.now index.now }
{
    indices.iter().any(|other| same_index(other, index))
}

/// Whether a list has a chunk of an array.
fn has_chunk(arrays: &[ArrayChunks], node: &Id8, index: &Index) -> bool
    ensures { result ≡ lists_chunk arrays.now node.now index.now }
{
    arrays.iter().any(|array| array.node == *node && has_index(array.chunks.as_slice(), index))
}

/// Whether a list has all of an array's chunks.
fn has_chunks_of(arrays: &[ArrayChunks], other: &ArrayChunks) -> bool
    ensures { result ≡ has_chunks_of arrays.now other.now }
{
    let node = &other.node;
    other
        .chunks
        .as_slice()
        .iter()
        .all(|index| has_chunk(arrays, node, index))
}

/// Whether a list has all chunks of another.
fn has_chunks(arrays: &[ArrayChunks], others: &[ArrayChunks]) -> bool
    ensures { result ≡ has_chunks arrays.now others.now }
{
    others.iter().all(|other| has_chunks_of(arrays, other))
}

/// Whether two lists have the same chunks.
fn same_chunks(arrays: &[ArrayChunks], others: &[ArrayChunks]) -> bool
    ensures { result ≡ same_chunks arrays.now others.now }
{
    has_chunks(arrays, others) && has_chunks(others, arrays)
}

/// Stops where the lists of chunks differ.
fn compare_chunks(arrays: &[ArrayChunks], others: &[ArrayChunks]) -> Result<(), Stop>
    ensures { OnOk result (IsTrue (same_chunks arrays.now others.now)) }
{
    expect(same_chunks(arrays, others), "the list of chunks")?;
    let none_bare = arrays.iter().all(|array| !array.chunks.is_empty());
    expect(none_bare, "an array of the list of chunks")?;
    Ok(())
}

/// Stops where two lists of what is touched differ.
fn compare_lists(net: &Touched, touched: &Touched) -> Result<(), Stop>
    ensures { OnOk result (SameLists net.now touched.now) }
{
    let alike = same_ids(&net.new_groups, &touched.new_groups);
    expect(alike, "the list of new groups")?;
    let alike = same_ids(&net.new_arrays, &touched.new_arrays);
    expect(alike, "the list of new arrays")?;
    let alike = same_ids(&net.deleted_groups, &touched.deleted_groups);
    expect(alike, "the list of deleted groups")?;
    let alike = same_ids(&net.deleted_arrays, &touched.deleted_arrays);
    expect(alike, "the list of deleted arrays")?;
    let alike = same_ids(&net.updated_groups, &touched.updated_groups);
    expect(alike, "the list of updated groups")?;
    let alike = same_ids(&net.updated_arrays, &touched.updated_arrays);
    expect(alike, "the list of updated arrays")?;
    let chunks = touched.updated_chunks.as_slice();
    compare_chunks(net.updated_chunks.as_slice(), chunks)
}

/// Whether no list has an entry.
fn is_untouched(lists: &Touched) -> bool {
    lists.new_groups.is_empty()
        && lists.new_arrays.is_empty()
        && lists.deleted_groups.is_empty()
        && lists.deleted_arrays.is_empty()
        && lists.updated_groups.is_empty()
        && lists.updated_arrays.is_empty()
        && lists.updated_chunks.is_empty()
}

/// Stops where two lists of what is touched differ, or it differs whether they are empty.
fn compare_both(net: &Touched, is_empty: bool, touched: &Touched) -> Result<(), Stop>
    ensures { OnOk result (SameLists net.now touched.now) }
{
    let alike = is_empty == is_untouched(touched);
    expect(alike, "whether nothing is touched")?;
    compare_lists(net, touched)
}

/// Stops where these aren't the lists of what the changes touch, or it differs whether they are empty.
fn compare_net(
    alloc: Global,
    base: &Tree,
    net: &Touched,
    is_empty: bool,
    changes: &Changes,
) -> Result<(), Stop>
    ensures { OnOk result (TouchesAlike net.now (changes_of changes.now) (tree_of base.now)) }
{
    let touched = changes.touched(alloc, base)?;
    let compared = compare_both(net, is_empty, &touched);
    drop(touched);
    compared
}

/// Stops where it differs what the changes touch.
pub fn compare_touched(
    alloc: Global,
    base: &Tree,
    set: &ChangeSet,
    changes: &Changes,
) -> Result<(), Stop>
    ensures { OnOk result (TouchesAlike (touched set.now base.now.nodes) (changes_of changes.now)
        (tree_of base.now)) }
{
    let net = set.net(alloc, base)?;
    let compared = compare_net(alloc, base, &net, set.is_empty(base), changes);
    drop(net);
    compared
}

/// The nodes that have other metadata.
fn meta_ids(alloc: Global, changes: &Changes) -> Result<Items<Id8>, Stop> {
    let mut ids = Items::new(alloc);
    for row in changes.metas.as_slice() {
        ids.push(row.0)?;
    }
    Ok(ids)
}

/// Whether keys have this chunk.
fn has_key(keys: &[ChunkKey], node: &Id8, index: &Index) -> bool {
    keys.iter()
        .any(|key| key.0 == *node && same_index(&key.1, index))
}

/// Stops where the chunks that have entries differ.
fn compare_keys_of_chunks(keys: &[ChunkKey], changes: &Changes) -> Result<(), Stop> {
    let mut held = true;
    for key in keys {
        held &= changes.entry(&key.0, &key.1).is_some();
    }
    let mut keyed = true;
    for row in changes.chunks.as_slice() {
        keyed &= has_key(keys, &row.0, &row.1);
    }
    expect(held, "the key of an entry").and(expect(keyed, "a key that an entry has"))
}

/// Stops where the added paths differ.
fn compare_added(keys: &ChangeKeys, set: &ChangeSet, changes: &Changes) -> Result<(), Stop> {
    let number = changes.added.len();
    let paths = expect(keys.added.len() == number, "the number of added paths");
    let nodes = expect(set.added_len() == number, "the number of added nodes");
    let mut alike = true;
    for path in keys.added.as_slice() {
        alike &= changes.added.find(path.as_str()).is_some();
    }
    paths.and(nodes).and(expect(alike, "an added path"))
}

/// Stops where the ids with other metadata differ.
fn compare_metas(alloc: Global, keys: &ChangeKeys, changes: &Changes) -> Result<(), Stop> {
    let metas = meta_ids(alloc, changes)?;
    expect(same_ids(&keys.metas, &metas), "the ids with other metadata")
}

/// Stops where these aren't the keys of what the changes hold.
fn compare_held(
    alloc: Global,
    keys: &ChangeKeys,
    set: &ChangeSet,
    changes: &Changes,
) -> Result<(), Stop>
    ensures { OnOk result (IsTrue (same_ids keys.now.dropped changes.now.dropped)) }
{
    expect(same_ids(&keys.dropped, &changes.dropped), "the dropped ids")?;
    compare_metas(alloc, keys, changes)?;
    compare_added(keys, set, changes)?;
    compare_keys_of_chunks(keys.chunks.as_slice(), changes)
}

/// Stops where it differs what the changes hold.
pub fn compare_keys(alloc: Global, set: &ChangeSet, changes: &Changes) -> Result<(), Stop>
    ensures { OnOk result (IsTrue (same_ids set.now.dropped changes.now.dropped)) }
{
    let keys = set.keys(alloc)?;
    compare_held(alloc, &keys, set, changes)
}
