//! Entries of one array that are put at once, and put back.

ghost use Rattle.std.specs.Prelude.{◌≡◌, Some, OnOk, OnErr};
ghost use Rattle.std.specs.Map.{keys_of, set_value};
ghost use Rattle.std.specs.BTreeMap.{is_at, insert_entry};
ghost use Rattle.zarr_path.specs.Indices.{index_cmp};
ghost use Rattle.zarr_tree.specs.Touched.{IndicesAscend};
ghost use Rattle.zarr_changes.specs.inside.Placing.{put_back, all_back, rows_placed};

use manifest_file::Place;
use std::alloc::{AllocError, Global};
use std::collections::BTreeMap;
use std::mem;
use zarr_path::Index;

/// The entries of one array: where the chunk of an index is, or that none is held.
pub(crate) type Chunks = BTreeMap<Index, Option<Place>>;

/// A chunk of an array, and where its bytes are.
#[derive(Debug, Drop)]
pub struct Placed {
    /// The chunk's index.
    pub index: Index,
    /// Where its bytes are.
    pub place: Place,
}

/// What there was for a chunk before it got another entry, if there was one.
#[derive(Drop)]
struct Before {
    index: Index,
    entry: Option<Option<Place>>,
}

/// Gives the chunk of an index this entry, where it has one.
fn replace(chunks: &mut Chunks, index: &Index, entry: Option<Place>)
    ensures { chunks.new.entries ≡ set_value (is_at (index_cmp index.now)) chunks.old.entries
        entry }
{
    let Some(place) = chunks.get_mut(index) else {
        drop(entry);
        return;
    };
    drop(mem::replace(place, entry));
}

/// Puts back what there was for a chunk. It takes no memory.
fn put_back(chunks: &mut Chunks, before: Before)
    ensures { chunks.new.entries ≡ put_back before.index before.entry chunks.old.entries }
{
    let Before { index, entry } = before;
    match entry {
        Some(entry) => replace(chunks, &index, entry),
        None => drop(chunks.remove(&index)),
    }
}

/// Puts back what there was for chunks, the last one first.
fn put_all_back(chunks: &mut Chunks, mut before: Vec<Before>)
    ensures { chunks.new.entries ≡ all_back before.items chunks.old.entries }
{
    while let Some(last) = before.pop() {
        put_back(chunks, last);
    }
}

/// An entry for a chunk, in place of what there was for it, which is noted. What was noted leads back to the same entries, also
/// where memory runs out.
fn enter_one(
    alloc: Global,
    chunks: &mut Chunks,
    placed: Placed,
    before: &mut Vec<Before>,
) -> Result<(), AllocError>
    ensures ok { OnOk result (chunks.new.entries ≡ insert_entry index_cmp chunks.old.entries
        placed.index (Some placed.place)) }
    ensures back { all_back before.new.items chunks.new.entries ≡ all_back before.old.items
        chunks.old.entries }
{
    before.reserve(1)?;
    let key = placed.index.copy(alloc)?;
    let Placed { index, place } = placed;
    let entry = chunks.insert(key, Some(place))?;
    before.push_reserved(Before { index, entry });
    Ok(())
}

/// Entries for chunks, one after another, up to where memory runs out; what there was for them is noted, and leads back to the
/// same entries.
fn enter_each(
    alloc: Global,
    chunks: &mut Chunks,
    placed: Vec<Placed>,
    before: &mut Vec<Before>,
) -> Result<(), AllocError>
    ensures ok { OnOk result (chunks.new.entries ≡ rows_placed chunks.old.entries placed.items) }
    ensures back { all_back before.new.items chunks.new.entries ≡ all_back before.old.items
        chunks.old.entries }
{
    for item in placed {
        enter_one(alloc, chunks, item, before)?;
    }
    Ok(())
}

/// Entries for chunks, in place of what there is for them: all of them, or none where memory runs out.
pub(crate) fn enter_all(
    alloc: Global,
    chunks: &mut Chunks,
    placed: Vec<Placed>,
) -> Result<(), AllocError>
    ensures ok { OnOk result (chunks.new.entries ≡ rows_placed chunks.old.entries placed.items) }
    ensures err { OnErr result (chunks.new.entries ≡ chunks.old.entries) }
    ensures order { IndicesAscend (keys_of chunks.old.entries) }
{
    // The contract of `len` says that the indices ascend.
    let _ordered = chunks.len();
    let mut before = Vec::new(alloc);
    match enter_each(alloc, chunks, placed, &mut before) {
        Ok(()) => {
            drop(before);
            Ok(())
        }
        Err(refused) => {
            put_all_back(chunks, before);
            Err(refused)
        }
    }
}
