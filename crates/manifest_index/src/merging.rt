//! The chunks of an array after a change.

ghost use Rattle.std.specs.Prelude.{◌≡◌, ◌==◌, ◌&&◌, ◌<◌, ℕ, List, Some, None, if◌then◌else◌, length, bytes_eq, IsTrue, IfOk, IfSome, OnOk, All};
ghost use Rattle.std.specs.Option.{option_or, unwrap_or};
ghost use Rattle.held_manifest.specs.LookUp.{within, place_of, entry_seen, look_up};
ghost use Rattle.manifest_index.specs.Extents.{are_low};
ghost use Rattle.manifest_index.specs.Merging.{changed_at, merged_array, IsMerged};
ghost use Rattle.manifest_index.specs.inside.Chunks.{chunk_at, ranked, IsSized};

use crate::chunks::{Chunks, into_refs, set};
use crate::copies::{own_index, own_place};
use held_manifest::{HeldManifest, RefView, Refs, is_within};
use ice_ids::Id8;
use ice_items::Items;
use manifest_file::{ArrayRefs, Place};
use std::alloc::{AllocError, Global};
use std::collections::BTreeMap;
use zarr_path::Index;

/// Enters a chunk, if it has the rank and its index lies within the extents.
fn enter_ref(
    alloc: Global,
    chunks: &mut Chunks,
    rank: usize,
    extents: &[(u32, u32)],
    chunk: &RefView<'_>,
) -> Result<(), AllocError>
    ensures { OnOk result ((q : List ℕ)
        → chunk_at q chunks.new
        ≡ option_or
        (ranked rank q (if within extents.now q && bytes_eq chunk.now.index q then Some
        chunk.now.place else None)) (chunk_at q chunks.old)) }
{
    let index = own_index(alloc, chunk)?;
    if index.parts().len() != rank {
        return Ok(());
    }
    if !is_within(extents, index.parts()) {
        return Ok(());
    }
    let place = own_place(alloc, chunk.place())?;
    set(chunks, index, Some(place))
}

/// Enters the chunks that have the rank and whose indices lie within the extents, over those that are there.
fn enter_refs(
    alloc: Global,
    chunks: &mut Chunks,
    rank: usize,
    extents: &[(u32, u32)],
    refs: &Refs<'_>,
) -> Result<(), AllocError>
    ensures { OnOk result ((q : List ℕ)
        → chunk_at q chunks.new
        ≡ option_or (ranked rank q (if within extents.now q then place_of q refs.now else None))
        (chunk_at q chunks.old)) }
{
    for k in (0..refs.len()).rev() {
        enter_ref(alloc, chunks, rank, extents, &refs.at(k))?;
    }
    Ok(())
}

/// What the type says of an extent: its numbers have 32 bits. It does nothing.
fn extent_sized(extent: &(u32, u32))
    ensures { IsSized extent.now }
{
    let _end = extent.1;
}

/// What the type says of extents. It does nothing.
fn extents_sized(extents: &[(u32, u32)])
    ensures { All IsSized extents.now }
{
    for extent in extents {
        extent_sized(extent);
    }
}

/// Enters the chunks of a node that a manifest has within its extents, over those that are there.
fn enter_manifest(
    alloc: Global,
    chunks: &mut Chunks,
    rank: usize,
    node: Id8,
    manifest: &(Items<(u32, u32)>, HeldManifest),
) -> Result<(), AllocError>
    ensures entered { OnOk result ((q : List ℕ)
        → chunk_at q chunks.new ≡ option_or (ranked rank q (entry_seen node q manifest.now))
        (chunk_at q chunks.old)) }
    ensures sized { All IsSized manifest.now.0 }
{
    let (extents, held) = manifest;
    let extents = extents.as_slice();
    extents_sized(extents);
    match held.node(node) {
        Some(refs) => enter_refs(alloc, chunks, rank, extents, &refs),
        None => Ok(()),
    }
}

/// The chunks that a node's list of manifests has. The last one is entered first, since the first one counts.
fn old_chunks(
    alloc: Global,
    rank: usize,
    node: Id8,
    manifests: &[(Items<(u32, u32)>, HeldManifest)],
) -> Result<Chunks, AllocError>
    ensures found { IfOk result (λ chunks. (q : List ℕ)
        → chunk_at q chunks ≡ ranked rank q (look_up node q manifests.now)) }
    ensures sized { OnOk result (All (λ m. All IsSized m.0) manifests.now) }
{
    let mut chunks = BTreeMap::new(alloc);
    for k in (0..manifests.len()).rev() {
        enter_manifest(alloc, &mut chunks, rank, node, &manifests[k])?;
    }
    Ok(chunks)
}

/// Enters what a change says of one index, if that has the rank.
fn enter_change(
    chunks: &mut Chunks,
    rank: usize,
    change: (Index, Option<Place>),
) -> Result<(), AllocError>
    ensures { OnOk result ((q : List ℕ)
        → chunk_at q chunks.new
        ≡ (if (length q == rank) && bytes_eq change.0 q then change.1 else chunk_at q
        chunks.old)) }
{
    let (index, place) = change;
    if index.parts().len() != rank {
        return Ok(());
    }
    set(chunks, index, place)
}

/// Enters a change. The first entry of an index counts, so it is entered last.
fn enter_changes(
    chunks: &mut Chunks,
    rank: usize,
    mut change: Vec<(Index, Option<Place>)>,
) -> Result<(), AllocError>
    ensures { OnOk result ((q : List ℕ)
        → chunk_at q chunks.new ≡ (if length q == rank then unwrap_or (changed_at q change.items)
        (chunk_at q chunks.old) else chunk_at q chunks.old)) }
{
    while let Some(last) = change.pop() {
        enter_change(chunks, rank, last)?;
    }
    Ok(())
}

/// The chunks of an array after a change, in the strict order of their indices; `None` exactly where no chunk is left.
///
/// The array's old chunks are those that its list of manifests has, each with its extents there. The change has for an
/// index where its chunk is from now on, or `None` where it has none any more; the first entry of an index counts. Indices
/// of another rank than the array's are left out. It asks that no index of the change has the number 4,294,967,295, and
/// none of the chunks has it then.
///
/// # Errors
///
/// Memory may run out.
pub fn merge(
    alloc: Global,
    rank: usize,
    node: Id8,
    old: &[(Items<(u32, u32)>, HeldManifest)],
    change: Vec<(Index, Option<Place>)>,
) -> Result<Option<ArrayRefs>, AllocError>
    requires { All (λ c. IsTrue (are_low c.0)) change.items }
    ensures is { IfOk result (λ found. found ≡ merged_array rank node old.now change.items) }
    ensures merged { IfOk result (IsMerged rank node old.now change.items) }
    ensures ranks { IfOk result
        (λ merged. IfSome merged (λ array. All (λ r. length r.index ≡ rank) array.refs)) }
    ensures low { IfOk result
        (λ merged. IfSome merged (λ array. All (λ r. IsTrue (are_low r.index)) array.refs)) }
{
    let mut chunks = old_chunks(alloc, rank, node, old)?;
    enter_changes(&mut chunks, rank, change)?;
    let refs = into_refs(alloc, chunks)?;
    if refs.is_empty() {
        return Ok(None);
    }
    Ok(Some(ArrayRefs { node, refs }))
}
