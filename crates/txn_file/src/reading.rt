ghost use Rattle.std.specs.Prelude.{◌≡◌, ◌<◌, option_map, option_copied};
ghost use Rattle.flat_tables.specs.Rows.{Reads, follows};
ghost use Rattle.txn_file.specs.Logs.{array_key, ids_in, ids_of, index_at, indices_in, array_of, array_at, arrays_in, arrays_of, lists_of, log_of, txn_of};

use crate::log::TxnFile;
use file_fields::{id_follows, id8, id8_of, id12_of, index_follows, index_of, payload_in};
use flat_tables::{FileFault, FlatFault, Kind, Table, Vector};
use ice_ids::Id8;
use ice_items::Items;
use std::alloc::Global;
use zarr_path::Index;
use zarr_tree::{ArrayChunks, Ids, Touched};

/// Whether an array may stand behind the last one.
fn array_follows(last: Option<&ArrayChunks>, array: &ArrayChunks) -> bool
    ensures { result ≡ follows (option_map array_key (option_copied last.entry))
        (array_key array.now) }
{
    match last {
        None => true,
        Some(last) => last.node.cmp(&array.node).is_lt(),
    }
}

/// The ids of a vector, which stand in order.
fn ids_in(alloc: Global, slot: u16, vector: &Vector) -> Result<Ids, FileFault>
    requires { vector.now.size ≡ 8 }
    ensures { Reads (λ x. x) result (ids_in slot vector.now) }
{
    let mut ids: Vec<Id8> = Vec::new(alloc);
    for at in 0..vector.len() {
        let id = id8(vector.item(at));
        if !id_follows(ids.last(), &id) {
            return Err(FileFault::Order { slot, at });
        }
        ids.push(id)?;
    }
    Ok(Ids::from_vec(ids))
}

/// The ids in a slot, none where it is absent.
#[tactic(auto, unfolding(crate::specs::Logs::ids_of))]
fn ids_of(alloc: Global, table: &Table, slot: u16) -> Result<Ids, FileFault>
    ensures { Reads (λ x. x) result (ids_of table.now slot) }
{
    match table.vector(slot, 8)? {
        None => Ok(Ids::from_vec(Vec::new(alloc))),
        Some(vector) => ids_in(alloc, slot, &vector),
    }
}

/// The index that element `at` leads to.
#[tactic(auto, unfolding(crate::specs::Logs::index_at))]
fn index_at(alloc: Global, vector: &Vector, at: usize) -> Result<Index, FileFault>
    requires below { at < vector.now.count }
    requires offsets { vector.now.size ≡ 4 }
    ensures { Reads (λ x. x) result (index_at vector.now at) }
{
    let table = vector.table_at(at)?;
    index_of(alloc, &table, 0)
}

/// The indices of a vector, which stand in order.
fn indices_in(alloc: Global, vector: &Vector) -> Result<Items<Index>, FileFault>
    requires { vector.now.size ≡ 4 }
    ensures { Reads (λ x. x) result (indices_in vector.now) }
{
    let mut indices: Vec<Index> = Vec::new(alloc);
    for at in 0..vector.len() {
        let index = index_at(alloc, vector, at)?;
        if !index_follows(indices.last(), &index) {
            return Err(FileFault::Order { slot: 1, at });
        }
        indices.push(index)?;
    }
    Ok(Items::from_vec(indices))
}

/// The array that a table has, with its chunks.
#[tactic(auto, unfolding(crate::specs::Logs::array_of))]
fn array_of(alloc: Global, table: &Table) -> Result<ArrayChunks, FileFault>
    ensures { Reads (λ x. x) result (array_of table.now) }
{
    let node = id8_of(table, 0)?;
    let Some(vector) = table.vector(1, 4)? else {
        return Err(FileFault::Flat(FlatFault::Missing { slot: 1 }));
    };
    let chunks = indices_in(alloc, &vector)?;
    Ok(ArrayChunks { node, chunks })
}

/// The array that element `at` leads to.
#[tactic(auto, unfolding(crate::specs::Logs::array_at))]
fn array_at(alloc: Global, vector: &Vector, at: usize) -> Result<ArrayChunks, FileFault>
    requires below { at < vector.now.count }
    requires offsets { vector.now.size ≡ 4 }
    ensures { Reads (λ x. x) result (array_at vector.now at) }
{
    let table = vector.table_at(at)?;
    array_of(alloc, &table)
}

/// The arrays of a vector, which stand in order.
fn arrays_in(alloc: Global, vector: &Vector) -> Result<Items<ArrayChunks>, FileFault>
    requires { vector.now.size ≡ 4 }
    ensures { Reads (λ x. x) result (arrays_in vector.now) }
{
    let mut arrays: Vec<ArrayChunks> = Vec::new(alloc);
    for at in 0..vector.len() {
        let array = array_at(alloc, vector, at)?;
        if !array_follows(arrays.last(), &array) {
            return Err(FileFault::Order { slot: 7, at });
        }
        arrays.push(array)?;
    }
    Ok(Items::from_vec(arrays))
}

/// The arrays in slot 7, none where it is absent.
#[tactic(auto, unfolding(crate::specs::Logs::arrays_of))]
fn arrays_of(alloc: Global, table: &Table) -> Result<Items<ArrayChunks>, FileFault>
    ensures { Reads (λ x. x) result (arrays_of table.now) }
{
    match table.vector(7, 4)? {
        None => Ok(Items::from_vec(Vec::new(alloc))),
        Some(vector) => arrays_in(alloc, &vector),
    }
}

/// The lists of a log's table.
#[tactic(auto, unfolding(crate::specs::Logs::lists_of))]
fn lists_of(alloc: Global, table: &Table) -> Result<Touched, FileFault>
    ensures { Reads (λ x. x) result (lists_of table.now) }
{
    let new_groups = ids_of(alloc, table, 1)?;
    let new_arrays = ids_of(alloc, table, 2)?;
    let deleted_groups = ids_of(alloc, table, 3)?;
    let deleted_arrays = ids_of(alloc, table, 4)?;
    let updated_arrays = ids_of(alloc, table, 5)?;
    let updated_groups = ids_of(alloc, table, 6)?;
    let updated_chunks = arrays_of(alloc, table)?;
    Ok(Touched {
        new_groups,
        new_arrays,
        deleted_groups,
        deleted_arrays,
        updated_arrays,
        updated_groups,
        updated_chunks,
    })
}

/// What a payload says.
#[tactic(auto, unfolding(crate::specs::Logs::log_of))]
fn log_of(alloc: Global, payload: &[u8]) -> Result<TxnFile, FileFault>
    ensures { Reads (λ x. x) result (log_of payload.now) }
{
    let table = Table::root(payload)?;
    let id = id12_of(&table, 0)?;
    let lists = lists_of(alloc, &table)?;
    Ok(TxnFile { id, lists })
}

/// Reads the file of a transaction log: the value that the file stands for, or its first fault. The faults of the file
/// itself come first, in the order of [`payload_in`]. Then come the root table and its slots in order: `Flat` where a
/// part lies outside of the payload or a required slot is absent, `Order` where an id, an index or an array doesn't stand
/// behind the one before. (Icechunk specification version 1, "Transaction log"; the order of faults is own.)
#[tactic(auto, using(file_fields::proofs::Payloads::read_is, file_fields::proofs::Payloads::fault_is), unfolding(crate::specs::Logs::txn_of))]
pub fn read(alloc: Global, file: &[u8]) -> Result<TxnFile, FileFault>
    ensures { Reads (λ x. x) result (txn_of file.now) }
{
    log_of(alloc, payload_in(Kind::Log, file)?)
}
