ghost use Rattle.std.specs.Prelude.{◌≡◌, ◌+◌, ◌<◌, ◌≤◌, nat_lt, length, option_map, option_copied, IfOk};
ghost use Rattle.flat_tables.specs.Rows.{Reads, follows};
ghost use Rattle.manifest_file.specs.Manifests.{refs_limit, ref_key, array_key, place_in, ref_of, ref_at, refs_in, array_of, array_at, arrays_in, payload_of, manifest_of};

use crate::manifest::{ArrayRefs, ChunkRef, ManifestFile, Place, REFS_LIMIT};
use file_fields::{id_follows, id8_of, id12, id12_of, index_follows, index_of, payload_in};
use flat_tables::{FileFault, FlatFault, Kind, Table, Vector};
use ice_base::Bytes;
use ice_items::Items;
use std::alloc::Global;

/// Where a table, which is element `at`, has its chunk.
#[tactic(auto, unfolding(crate::specs::Manifests::place_in))]
fn place_in(alloc: Global, table: &Table, at: usize) -> Result<Place, FileFault>
    ensures { Reads (λ x. x) result (place_in table.now at) }
{
    let inline = table.vector(1, 1)?;
    let offset = table.scalar(2, 8)?.unwrap_or(0);
    let length = table.scalar(3, 8)?.unwrap_or(0);
    let object = table.bytes(4, 12)?;
    if table.text(5)?.is_some() {
        return Err(FileFault::VirtualRef { at });
    }
    match (inline, object) {
        (Some(bytes), None) => Ok(Place::Inline(Bytes::of(alloc, bytes.all())?)),
        (None, Some(bytes)) => Ok(Place::Object {
            id: id12(bytes),
            offset,
            length,
        }),
        _ => Err(FileFault::RefKind { at }),
    }
}

/// The chunk of a table, which is element `at`.
#[tactic(auto, unfolding(crate::specs::Manifests::ref_of))]
fn ref_of(alloc: Global, table: &Table, at: usize) -> Result<ChunkRef, FileFault>
    ensures { Reads (λ x. x) result (ref_of at table.now) }
{
    let index = index_of(alloc, table, 0)?;
    let place = place_in(alloc, table, at)?;
    Ok(ChunkRef { index, place })
}

/// The chunk that element `at` leads to.
#[tactic(auto, unfolding(crate::specs::Manifests::ref_at))]
fn ref_at(alloc: Global, vector: &Vector, at: usize) -> Result<ChunkRef, FileFault>
    requires below { at < vector.now.count }
    requires offsets { vector.now.size ≡ 4 }
    ensures { Reads (λ x. x) result (ref_at vector.now at) }
{
    let table = vector.table_at(at)?;
    ref_of(alloc, &table, at)
}

/// Whether a chunk may stand behind the last one.
pub fn ref_follows(last: Option<&ChunkRef>, chunk: &ChunkRef) -> bool
    ensures { result ≡ follows (option_map ref_key (option_copied last.entry)) (ref_key chunk.now) }
{
    match last {
        None => true,
        Some(last) => index_follows(Some(&last.index), &chunk.index),
    }
}

/// The chunks of a vector, which stand in order.
fn refs_in(alloc: Global, vector: &Vector) -> Result<Items<ChunkRef>, FileFault>
    requires { vector.now.size ≡ 4 }
    ensures read { Reads (λ x. x) result (refs_in vector.now) }
    ensures count { IfOk result (λ refs. length refs ≡ vector.now.count) }
{
    let mut refs: Vec<ChunkRef> = Vec::new(alloc);
    for at in 0..vector.len() {
        let chunk = ref_at(alloc, vector, at)?;
        if !ref_follows(refs.last(), &chunk) {
            return Err(FileFault::Order { slot: 1, at });
        }
        refs.push(chunk)?;
    }
    Ok(Items::from_vec(refs))
}

/// Whether so many more chunks pass the limit.
fn pass_limit(count: usize, before: usize) -> bool
    requires { before ≤ 4194304 }
    ensures { result ≡ nat_lt refs_limit (before + count) }
{
    count > REFS_LIMIT - before
}

/// The array of a table, where so many chunks came before.
#[tactic(auto, unfolding(crate::specs::Manifests::array_of))]
fn array_of(alloc: Global, table: &Table, before: usize) -> Result<ArrayRefs, FileFault>
    requires { before ≤ 4194304 }
    ensures read { Reads (λ x. x) result (array_of before table.now) }
    ensures few { IfOk result (λ array. before + length array.refs ≤ 4194304) }
{
    let node = id8_of(table, 0)?;
    let Some(vector) = table.vector(1, 4)? else {
        return Err(FileFault::Flat(FlatFault::Missing { slot: 1 }));
    };
    if pass_limit(vector.len(), before) {
        return Err(FileFault::Limit);
    }
    let refs = refs_in(alloc, &vector)?;
    Ok(ArrayRefs { node, refs })
}

/// The array that element `at` leads to, where so many chunks came before.
#[tactic(auto, unfolding(crate::specs::Manifests::array_at))]
fn array_at(
    alloc: Global,
    vector: &Vector,
    at: usize,
    before: usize,
) -> Result<ArrayRefs, FileFault>
    requires below { at < vector.now.count }
    requires offsets { vector.now.size ≡ 4 }
    requires few { before ≤ 4194304 }
    ensures read { Reads (λ x. x) result (array_at vector.now at before) }
    ensures few { IfOk result (λ array. before + length array.refs ≤ 4194304) }
{
    let table = vector.table_at(at)?;
    array_of(alloc, &table, before)
}

/// Whether an array may stand behind the last one.
fn array_follows(last: Option<&ArrayRefs>, array: &ArrayRefs) -> bool
    ensures { result ≡ follows (option_map array_key (option_copied last.entry))
        (array_key array.now) }
{
    match last {
        None => true,
        Some(last) => id_follows(Some(&last.node), &array.node),
    }
}

/// The arrays of a vector, which stand in order.
fn arrays_in(alloc: Global, vector: &Vector) -> Result<Items<ArrayRefs>, FileFault>
    requires { vector.now.size ≡ 4 }
    ensures { Reads (λ x. x) result (arrays_in vector.now) }
{
    let mut arrays: Vec<ArrayRefs> = Vec::new(alloc);
    let mut before = 0;
    for at in 0..vector.len() {
        let array = array_at(alloc, vector, at, before)?;
        if !array_follows(arrays.last(), &array) {
            return Err(FileFault::Order { slot: 1, at });
        }
        before += array.refs.as_slice().len();
        arrays.push(array)?;
    }
    Ok(Items::from_vec(arrays))
}

/// What a payload says.
#[tactic(auto, unfolding(crate::specs::Manifests::payload_of))]
fn payload_of(alloc: Global, payload: &[u8]) -> Result<ManifestFile, FileFault>
    ensures { Reads (λ x. x) result (payload_of payload.now) }
{
    let table = Table::root(payload)?;
    let id = id12_of(&table, 0)?;
    let Some(vector) = table.vector(1, 4)? else {
        return Err(FileFault::Flat(FlatFault::Missing { slot: 1 }));
    };
    let arrays = arrays_in(alloc, &vector)?;
    Ok(ManifestFile { id, arrays })
}

/// Reads the file of a manifest: the value that the file stands for, or its first fault. The faults of the file itself
/// come first, in the order of [`payload_in`]. Then come the root table and its slots in order: `Flat` where a part lies
/// outside of the payload or a required slot is absent; `Limit` at the chunks of an array that would make more than
/// [`REFS_LIMIT`] so far; `VirtualRef` where a chunk has a location of another kind; `RefKind` where it hasn't either
/// bytes of its own or an object; `Order` where an index or an array doesn't stand behind the one before. (Icechunk
/// specification version 1, "Manifests"; the order of faults is own.)
#[tactic(auto, using(file_fields::proofs::Payloads::read_is, file_fields::proofs::Payloads::fault_is), unfolding(crate::specs::Manifests::manifest_of))]
pub fn read(alloc: Global, file: &[u8]) -> Result<ManifestFile, FileFault>
    ensures { Reads (λ x. x) result (manifest_of file.now) }
{
    payload_of(alloc, payload_in(Kind::Manifest, file)?)
}
