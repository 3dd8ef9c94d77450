ghost use Rattle.std.specs.Prelude.{◌≡◌, ◌+◌, ◌^◌, ◌<◌, ◌∷◌, length, IsTrue, IfOk, OnOk, Ok};
ghost use Rattle.std.specs.List.{AllByRecursion};
ghost use Rattle.flat_tables.specs.File.{Writes};
ghost use Rattle.flat_tables.specs.Layout.{payload, table_block};
ghost use Rattle.flat_tables.specs.Trees.{layout, part_of, is_writable, is_writable_slot};
ghost use Rattle.ice_base.specs.Lists.{IsBytes};
ghost use Rattle.ice_ids.specs.Text.{IsId12};
ghost use Rattle.manifest_file.specs.Manifests.{manifest_of};
ghost use Rattle.manifest_file.specs.Layout.{place_parts, ref_block, refs_part, array_block, arrays_part, manifest_block, file_bytes, CanWrite, IsRef, IsArray, IsManifest};

use crate::manifest::{ArrayRefs, ChunkRef, ManifestFile, Place};
use file_fields::{bytes_slot, id8_slot, id12_slot, index_slot, u64_slot};
use flat_tables::{Flat, Kind, Slot, WriteFault, flat_write, header_write};
use ice_base::Bytes;
use ice_ids::Id12;
use ice_items::Items;
use std::alloc::{AllocError, Global};

/// The table of a chunk whose bytes stand in the manifest.
fn inline_table(alloc: Global, index: Slot, bytes: &Bytes) -> Result<Flat, AllocError>
    requires { IsTrue (is_writable_slot index) }
    ensures block { IfOk result
        (λ f. layout f ≡ table_block (part_of index ∷ place_parts (Place.Inline bytes.now))) }
    ensures writable { IfOk result (λ f. IsTrue (is_writable f)) }
    ensures sized { OnOk result (IsBytes bytes.now) }
{
    let slots = [
        index,
        bytes_slot(alloc, bytes.as_slice())?,
        Slot::Absent,
        Slot::Absent,
        Slot::Absent,
        Slot::Absent,
        Slot::Absent,
        Slot::Absent,
    ];
    Ok(Flat {
        slots: Vec::from_array(alloc, slots)?,
    })
}

/// The table of a chunk that is in an object.
fn object_table(
    alloc: Global,
    index: Slot,
    id: &Id12,
    offset: u64,
    length: u64,
) -> Result<Flat, AllocError>
    requires { IsTrue (is_writable_slot index) }
    ensures block { IfOk result
        (λ f. layout f
        ≡ table_block (part_of index ∷ place_parts (Place.Object id.now offset length))) }
    ensures writable { IfOk result (λ f. IsTrue (is_writable f)) }
    ensures sized { OnOk result (IsId12 id.now) }
{
    let slots = [
        index,
        Slot::Absent,
        u64_slot(offset),
        u64_slot(length),
        id12_slot(alloc, id)?,
        Slot::Absent,
        Slot::Absent,
        Slot::Absent,
    ];
    Ok(Flat {
        slots: Vec::from_array(alloc, slots)?,
    })
}

/// The table of a chunk.
fn ref_table(alloc: Global, chunk: &ChunkRef) -> Result<Flat, AllocError>
    ensures block { IfOk result (λ f. layout f ≡ ref_block chunk.now) }
    ensures writable { IfOk result (λ f. IsTrue (is_writable f)) }
    ensures sized { OnOk result (IsRef chunk.now) }
{
    let index = index_slot(alloc, &chunk.index)?;
    match &chunk.place {
        Place::Inline(bytes) => inline_table(alloc, index, bytes),
        Place::Object { id, offset, length } => object_table(alloc, index, id, *offset, *length),
    }
}

/// A list of chunks.
fn refs_slot(alloc: Global, refs: &Items<ChunkRef>) -> Result<Slot, AllocError>
    ensures part { IfOk result (λ s. part_of s ≡ refs_part refs.now) }
    ensures writable { IfOk result (λ s. IsTrue (is_writable_slot s)) }
    ensures sized { OnOk result (AllByRecursion IsRef refs.now) }
{
    let mut tables: Vec<Flat> = Vec::new(alloc);
    for chunk in refs.as_slice() {
        tables.push(ref_table(alloc, chunk)?)?;
    }
    Ok(Slot::Tables(tables))
}

/// The table of an array with its chunks.
fn array_table(alloc: Global, array: &ArrayRefs) -> Result<Flat, AllocError>
    ensures block { IfOk result (λ f. layout f ≡ array_block array.now) }
    ensures writable { IfOk result (λ f. IsTrue (is_writable f)) }
    ensures sized { OnOk result (IsArray array.now) }
{
    let node = id8_slot(alloc, &array.node)?;
    let refs = refs_slot(alloc, &array.refs)?;
    Ok(Flat {
        slots: Vec::from_array(alloc, [node, refs])?,
    })
}

/// A list of arrays.
fn arrays_slot(alloc: Global, arrays: &Items<ArrayRefs>) -> Result<Slot, AllocError>
    ensures part { IfOk result (λ s. part_of s ≡ arrays_part arrays.now) }
    ensures writable { IfOk result (λ s. IsTrue (is_writable_slot s)) }
    ensures sized { OnOk result (AllByRecursion IsArray arrays.now) }
{
    let mut tables: Vec<Flat> = Vec::new(alloc);
    for array in arrays.as_slice() {
        tables.push(array_table(alloc, array)?)?;
    }
    Ok(Slot::Tables(tables))
}

/// The root table of a manifest.
#[tactic(auto, unfolding(crate::specs::Layout::manifest_block))]
fn manifest_table(alloc: Global, manifest: &ManifestFile) -> Result<Flat, AllocError>
    ensures block { IfOk result (λ f. layout f ≡ manifest_block manifest.now) }
    ensures writable { IfOk result (λ f. IsTrue (is_writable f)) }
    ensures sized { OnOk result (IsManifest manifest.now) }
{
    let id = id12_slot(alloc, &manifest.id)?;
    let arrays = arrays_slot(alloc, &manifest.arrays)?;
    Ok(Flat {
        slots: Vec::from_array(alloc, [id, arrays])?,
    })
}

/// The payload of a manifest's file.
fn manifest_payload(alloc: Global, manifest: &ManifestFile) -> Result<Vec<u8>, WriteFault>
    ensures written { let bytes = payload (manifest_block manifest.now) in Writes result bytes
        (39 + length bytes) }
    ensures sized { OnOk result (IsManifest manifest.now) }
{
    let table = manifest_table(alloc, manifest)?;
    flat_write(alloc, &table)
}

/// Writes the one file of a manifest. It asks that arrays strictly ascend by their ids and the chunks of each by their
/// indices, and that there are at most [`REFS_LIMIT`](crate::REFS_LIMIT) chunks in all. What was written is read again
/// as the same manifest. `TooLarge` comes exactly where the file would be longer than
/// [`FILE_LIMIT`](flat_tables::FILE_LIMIT) bytes, and tells its length. (Icechunk specification version 1, "Manifests";
/// the one layout is own.)
pub fn write(alloc: Global, manifest: &ManifestFile) -> Result<Vec<u8>, WriteFault>
    requires { CanWrite manifest.now }
    ensures written { let file = file_bytes manifest.now in Writes result file (length file) }
    ensures again { IfOk result (λ file. manifest_of file.items ≡ Ok manifest.now) }
{
    let payload = manifest_payload(alloc, manifest)?;
    let mut file = Vec::new(alloc);
    file.extend_from_slice(&header_write(Kind::Manifest))?;
    file.extend_from_slice(&payload)?;
    Ok(file)
}
