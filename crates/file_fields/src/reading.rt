ghost use Rattle.std.specs.Prelude.{◌≡◌, Ok, length, map, option_map, option_copied};
ghost use Rattle.std.specs.Int.{w32, from_le_bytes};
ghost use Rattle.flat_tables.specs.Places.{items_of};
ghost use Rattle.flat_tables.specs.Rows.{Reads, follows};
ghost use Rattle.flat_tables.specs.Step.{Gives};
ghost use Rattle.file_fields.specs.Fields.{payload_in, id_key, index_key, id8_of, id12_of, index_of};

use flat_tables::{FILE_LIMIT, FileFault, FlatFault, HEADER, Kind, Table, Vector, header_read};
use ice_ids::{Id8, Id12};
use std::alloc::Global;
use zarr_path::Index;

/// The payload of a file of this kind, or the file's first fault: the file must not be longer than [`FILE_LIMIT`] bytes
/// (`Limit`), and its header must be one (`Header`), of this kind (`Kind`). It takes no memory.
#[tactic(auto, unfolding(flat_tables::specs::File::file_of))]
pub fn payload_in(kind: Kind, file: &[u8]) -> Result<&[u8], FileFault>
    ensures { Gives (λ payload. payload.now) result (payload_in kind file.now) }
{
    if file.len() > FILE_LIMIT {
        return Err(FileFault::Limit);
    }
    let found = header_read(file)?;
    if found != kind {
        return Err(FileFault::Kind(found));
    }
    Ok(&file[HEADER..])
}

/// The node id of these 8 bytes.
pub fn id8(bytes: &[u8]) -> Id8
    requires { length bytes.now ≡ 8 }
    ensures { result.0 ≡ bytes.now }
{
    let mut id = [0; 8];
    id.copy_from_slice(bytes);
    Id8(id)
}

/// The object id of these 12 bytes.
pub fn id12(bytes: &[u8]) -> Id12
    requires { length bytes.now ≡ 12 }
    ensures { result.0 ≡ bytes.now }
{
    let mut id = [0; 12];
    id.copy_from_slice(bytes);
    Id12(id)
}

/// The node id in a slot. `Flat` where the slot is absent, or where it would pass the table's end. It takes no memory.
#[tactic(auto, unfolding(crate::specs::Fields::id8_of))]
pub fn id8_of(table: &Table, slot: u16) -> Result<Id8, FileFault>
    ensures { result ≡ id8_of table.now slot }
{
    match table.bytes(slot, 8)? {
        None => Err(FileFault::Flat(FlatFault::Missing { slot })),
        Some(bytes) => Ok(id8(bytes)),
    }
}

/// The object id in a slot. `Flat` where the slot is absent, or where it would pass the table's end. It takes no
/// memory.
#[tactic(auto, unfolding(crate::specs::Fields::id12_of))]
pub fn id12_of(table: &Table, slot: u16) -> Result<Id12, FileFault>
    ensures { result ≡ id12_of table.now slot }
{
    match table.bytes(slot, 12)? {
        None => Err(FileFault::Flat(FlatFault::Missing { slot })),
        Some(bytes) => Ok(id12(bytes)),
    }
}

/// The number of these 4 bytes, the lowest first.
pub fn u32_of(bytes: &[u8]) -> u32
    requires { length bytes.now ≡ 4 }
    ensures { result ≡ from_le_bytes w32 bytes.now }
{
    u32::from_le_bytes([bytes[0], bytes[1], bytes[2], bytes[3]])
}

/// The numbers of a vector.
fn numbers_in(alloc: Global, vector: &Vector) -> Result<Vec<u32>, FileFault>
    requires { vector.now.size ≡ 4 }
    ensures { Reads (λ x. x.items) result (Ok (map (from_le_bytes w32) (items_of vector.now))) }
{
    let mut numbers: Vec<u32> = Vec::new(alloc);
    for at in 0..vector.len() {
        numbers.push(u32_of(vector.item(at)))?;
    }
    Ok(numbers)
}

/// The index in a slot. `Flat` where the slot is absent, or where its vector doesn't lie in the payload.
#[tactic(auto, unfolding(crate::specs::Fields::index_of))]
pub fn index_of(alloc: Global, table: &Table, slot: u16) -> Result<Index, FileFault>
    ensures { Reads (λ x. x) result (index_of table.now slot) }
{
    match table.vector(slot, 4)? {
        None => Err(FileFault::Flat(FlatFault::Missing { slot })),
        Some(vector) => Ok(Index::from_parts(numbers_in(alloc, &vector)?)),
    }
}

/// Whether an id may stand behind the last one, if there is one.
pub fn id_follows(last: Option<&Id8>, id: &Id8) -> bool
    ensures { result ≡ follows (option_map id_key (option_copied last.entry)) (id_key id.now) }
{
    match last {
        None => true,
        Some(last) => last.cmp(id).is_lt(),
    }
}

/// Whether an index may stand behind the last one, if there is one.
pub fn index_follows(last: Option<&Index>, index: &Index) -> bool
    ensures { result ≡ follows (option_map index_key (option_copied last.entry))
        (index_key index.now) }
{
    match last {
        None => true,
        Some(last) => last.cmp(index).is_lt(),
    }
}
