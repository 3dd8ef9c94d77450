//! The manifests that a commit writes for arrays.

ghost use Rattle.std.specs.Prelude.{◌≡◌, ◌<◌, ◌≤◌, None, length, IfOk, IfSome, IsTrue, All};
ghost use Rattle.std.specs.List.{list_all};
ghost use Rattle.flat_tables.specs.Rows.{Ascends};
ghost use Rattle.manifest_file.specs.Manifests.{ref_key, refs_limit};
ghost use Rattle.manifest_index.specs.Merging.{merged_array, IsMerged};
ghost use Rattle.manifest_index.specs.Extents.{are_low};
ghost use Rattle.zarr_changes.specs.Sets.{chunks_of};
ghost use Rattle.commit_path.specs.Committing.{manifest_for};
ghost use Rattle.commit_path.specs.inside.Working.{MakesManifest};

use crate::commit::unwritten;
use crate::committing::Got;
use crate::writer::Writer;
use changed_snapshot::NewManifest;
use flat_tables::Kind;
use ice_base::Bytes;
use ice_ids::Id12;
use ice_items::Items;
use manifest_file::{ArrayRefs, ManifestFile, Place};
use manifest_index::{extents_of, merge};
use std::alloc::{AllocError, Global};
use store_api::Refusal;
use zarr_changes::ChangedArray;
use zarr_path::Index;

/// Whether an index lies in a grid, as far as its numbers tell.
fn is_low(index: &Index) -> bool
    ensures { result ≡ are_low index.now }
{
    index.parts().iter().all(|number| *number < u32::MAX)
}

/// Whether each index of a change does.
fn all_low(change: &[(Index, Option<Place>)]) -> bool
    ensures { result ≡ list_all (λ c. are_low c.0) change.now }
{
    change.iter().all(|entry| is_low(&entry.0))
}

/// The chunks of an array after a session's changes, where these are its manifests.
pub fn merged(
    alloc: Global,
    session: &Writer,
    array: &ChangedArray,
    got: &Got,
) -> Result<Option<ArrayRefs>, AllocError>
    ensures is { IfOk result (λ refs. refs ≡ merged_array array.now.rank array.now.node
        got.now.items (chunks_of session.now.held.chunks array.now.node)) }
    ensures merged { IfOk result (IsMerged array.now.rank array.now.node got.now.items
        (chunks_of session.now.held.chunks array.now.node)) }
    ensures ranks { IfOk result
        (λ refs. IfSome refs (λ a. All (λ r. length r.index ≡ array.now.rank) a.refs)) }
    ensures low { IfOk result
        (λ refs. IfSome refs (λ a. All (λ r. IsTrue (are_low r.index)) a.refs)) }
{
    let change = session.as_session().chunk_changes(array.node)?;
    // A session's entries lie in grids, so this never comes.
    if !all_low(&change) {
        return Err(AllocError);
    }
    merge(alloc, array.rank, array.node, got, change)
}

/// The manifest of an array's chunks.
fn manifest_of(alloc: Global, id: Id12, array: ArrayRefs) -> Result<ManifestFile, AllocError>
    ensures { IfOk result (λ m. m ≡ manifest_for id array) }
{
    let mut arrays = Items::new(alloc);
    arrays.push(array)?;
    Ok(ManifestFile { id, arrays })
}

/// The file of the manifest of an array's chunks, and what a list says of it.
pub fn made(
    alloc: Global,
    id: Id12,
    rank: usize,
    array: ArrayRefs,
) -> Result<(NewManifest, Bytes), Refusal>
    requires filled { 0 < length array.refs }
    requires few { length array.refs ≤ refs_limit }
    requires order { Ascends ref_key None array.refs }
    requires ranks { All (λ r. length r.index ≡ rank) array.refs }
    requires low { All (λ r. IsTrue (are_low r.index)) array.refs }
    ensures { MakesManifest id rank array result }
{
    let Ok(extents) = extents_of(alloc, rank, array.refs.as_slice()) else {
        return Err(Refusal::NoMemory);
    };
    let refs = array.refs.len() as u32;
    let Ok(manifest) = manifest_of(alloc, id, array) else {
        return Err(Refusal::NoMemory);
    };
    let file = match manifest_file::write(alloc, &manifest) {
        Ok(file) => file,
        Err(fault) => return Err(unwritten(Kind::Manifest, fault)),
    };
    let info = NewManifest {
        id,
        extents,
        size: file.len() as u64,
        refs,
    };
    Ok((info, Bytes::from_vec(file)))
}
