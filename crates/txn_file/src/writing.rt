ghost use Rattle.std.specs.Prelude.{◌≡◌, ◌+◌, length, IsTrue, IfOk, OnOk, Ok};
ghost use Rattle.std.specs.List.{AllByRecursion};
ghost use Rattle.flat_tables.specs.File.{Writes};
ghost use Rattle.flat_tables.specs.Layout.{payload};
ghost use Rattle.flat_tables.specs.Trees.{layout, part_of, is_writable, is_writable_slot};
ghost use Rattle.txn_file.specs.Logs.{txn_of};
ghost use Rattle.file_fields.specs.Fields.{IsIndex};
ghost use Rattle.txn_file.specs.Layout.{ids_part, index_block, indices_part, array_block, arrays_part, log_block, log_file, IsOrdered, AreIds, IsArray, IsLog};

use crate::log::TxnFile;
use file_fields::{id8_bytes, id8_slot, id12_slot, index_slot};
use flat_tables::{Flat, Kind, Slot, WriteFault, flat_write, header_write};
use ice_items::Items;
use std::alloc::{AllocError, Global};
use zarr_path::Index;
use zarr_tree::{ArrayChunks, Ids};

/// A list of ids.
fn ids_slot(alloc: Global, ids: &Ids) -> Result<Slot, AllocError>
    ensures part { IfOk result (λ s. part_of s ≡ ids_part ids.now) }
    ensures writable { IfOk result (λ s. IsTrue (is_writable_slot s)) }
    ensures sized { OnOk result (AreIds ids.now) }
{
    let mut bytes: Vec<u8> = Vec::new(alloc);
    for id in ids.as_slice() {
        bytes.extend_from_slice(&id8_bytes(id))?;
    }
    Ok(Slot::Structs {
        align: 1,
        size: 8,
        bytes,
    })
}

/// The table of an index.
fn index_table(alloc: Global, index: &Index) -> Result<Flat, AllocError>
    ensures block { IfOk result (λ f. layout f ≡ index_block index.now) }
    ensures writable { IfOk result (λ f. IsTrue (is_writable f)) }
    ensures sized { OnOk result (IsIndex index.now) }
{
    let numbers = index_slot(alloc, index)?;
    Ok(Flat {
        slots: Vec::from_array(alloc, [numbers])?,
    })
}

/// A list of indices.
fn indices_slot(alloc: Global, indices: &Items<Index>) -> Result<Slot, AllocError>
    ensures part { IfOk result (λ s. part_of s ≡ indices_part indices.now) }
    ensures writable { IfOk result (λ s. IsTrue (is_writable_slot s)) }
    ensures sized { OnOk result (AllByRecursion IsIndex indices.now) }
{
    let mut tables: Vec<Flat> = Vec::new(alloc);
    for index in indices.as_slice() {
        tables.push(index_table(alloc, index)?)?;
    }
    Ok(Slot::Tables(tables))
}

/// The table of an array with its chunks.
fn array_table(alloc: Global, array: &ArrayChunks) -> Result<Flat, AllocError>
    ensures block { IfOk result (λ f. layout f ≡ array_block array.now) }
    ensures writable { IfOk result (λ f. IsTrue (is_writable f)) }
    ensures sized { OnOk result (IsArray array.now) }
{
    let node = id8_slot(alloc, &array.node)?;
    let chunks = indices_slot(alloc, &array.chunks)?;
    Ok(Flat {
        slots: Vec::from_array(alloc, [node, chunks])?,
    })
}

/// A list of arrays.
fn arrays_slot(alloc: Global, arrays: &Items<ArrayChunks>) -> Result<Slot, AllocError>
    ensures part { IfOk result (λ s. part_of s ≡ arrays_part arrays.now) }
    ensures writable { IfOk result (λ s. IsTrue (is_writable_slot s)) }
    ensures sized { OnOk result (AllByRecursion IsArray arrays.now) }
{
    let mut tables: Vec<Flat> = Vec::new(alloc);
    for array in arrays.as_slice() {
        tables.push(array_table(alloc, array)?)?;
    }
    Ok(Slot::Tables(tables))
}

/// The root table of a log.
#[tactic(auto, unfolding(crate::specs::Layout::log_block))]
fn log_table(alloc: Global, log: &TxnFile) -> Result<Flat, AllocError>
    ensures block { IfOk result (λ f. layout f ≡ log_block log.now) }
    ensures writable { IfOk result (λ f. IsTrue (is_writable f)) }
    ensures sized { OnOk result (IsLog log.now) }
{
    let lists = &log.lists;
    let slots = [
        id12_slot(alloc, &log.id)?,
        ids_slot(alloc, &lists.new_groups)?,
        ids_slot(alloc, &lists.new_arrays)?,
        ids_slot(alloc, &lists.deleted_groups)?,
        ids_slot(alloc, &lists.deleted_arrays)?,
        ids_slot(alloc, &lists.updated_arrays)?,
        ids_slot(alloc, &lists.updated_groups)?,
        arrays_slot(alloc, &lists.updated_chunks)?,
    ];
    Ok(Flat {
        slots: Vec::from_array(alloc, slots)?,
    })
}

/// The payload of a log's file.
fn log_payload(alloc: Global, log: &TxnFile) -> Result<Vec<u8>, WriteFault>
    ensures written { let bytes = payload (log_block log.now) in Writes result bytes
        (39 + length bytes) }
    ensures sized { OnOk result (IsLog log.now) }
{
    let table = log_table(alloc, log)?;
    flat_write(alloc, &table)
}

/// Writes the one file of a transaction log. It asks that each list strictly ascends: ids by their bytes, arrays by their
/// ids, indices by their numbers. What was written is read again as the same log. `TooLarge` comes exactly where the
/// file would be longer than [`FILE_LIMIT`](flat_tables::FILE_LIMIT) bytes, and tells its length. (Icechunk specification
/// version 1, "Transaction log"; the one layout is own.)
pub fn write(alloc: Global, log: &TxnFile) -> Result<Vec<u8>, WriteFault>
    requires { IsOrdered log.now }
    ensures written { let file = log_file log.now in Writes result file (length file) }
    ensures again { IfOk result (λ file. txn_of file.items ≡ Ok log.now) }
{
    let payload = log_payload(alloc, log)?;
    let mut file = Vec::new(alloc);
    file.extend_from_slice(&header_write(Kind::Log))?;
    file.extend_from_slice(&payload)?;
    Ok(file)
}
