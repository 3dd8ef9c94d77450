//! Headers of files, and transaction logs.

use crate::answer_parts::{again, digits, fault_told, push_ids};
use crate::words::NoAnswer;
use flat_tables::{Kind, WriteFault, header_read, header_write};
use std::alloc::{AllocError, Global};
use txn_file::TxnFile;
use zarr_tree::{ArrayChunks, Ids, Touched};

/// The kind that a file's header names, or its first fault.
pub fn tell_header(alloc: Global, file: &[u8]) -> Result<String, NoAnswer> {
    match header_read(file) {
        Ok(kind) => Ok(format!(in alloc; "{kind:?}")?),
        Err(fault) => fault_told(alloc, fault),
    }
}

/// The header of files of a kind.
pub fn tell_header_of(alloc: Global, text: &str) -> Result<String, NoAnswer> {
    let kind = match text {
        "snapshot" => Kind::Snapshot,
        "manifest" => Kind::Manifest,
        "log" => Kind::Log,
        _ => return Err(NoAnswer::Words),
    };
    Ok(digits(alloc, &header_write(kind))?)
}

/// What is told of a file that was read, and then written again.
pub fn written_again(
    alloc: Global,
    file: &[u8],
    written: Result<Vec<u8>, WriteFault>,
) -> Result<String, NoAnswer> {
    match written {
        Ok(bytes) => Ok(again(alloc, file, bytes.as_slice())?),
        Err(fault) => fault_told(alloc, fault),
    }
}

/// Appends a list of ids on a line of its own, if there are any.
fn push_list(told: &mut String, list: &str, ids: &Ids) -> Result<(), AllocError> {
    if ids.is_empty() {
        return Ok(());
    }
    told.push_str("\n  ")?;
    push_ids(told, list, ids.as_slice())
}

/// Appends the chunks of an array.
fn push_array(told: &mut String, array: &ArrayChunks) -> Result<(), AllocError> {
    write!(told, "\n  updated_chunks {}", array.node)?;
    for index in array.chunks.as_slice() {
        write!(told, " {:?}", index.parts())?;
    }
    Ok(())
}

/// Appends the chunks of arrays.
fn push_chunks(told: &mut String, arrays: &[ArrayChunks]) -> Result<(), AllocError> {
    for array in arrays {
        push_array(told, array)?;
    }
    Ok(())
}

/// Appends the lists of net changes that aren't empty.
pub fn push_lists(told: &mut String, lists: &Touched) -> Result<(), AllocError> {
    push_list(told, "new_groups", &lists.new_groups)?;
    push_list(told, "new_arrays", &lists.new_arrays)?;
    push_list(told, "deleted_groups", &lists.deleted_groups)?;
    push_list(told, "deleted_arrays", &lists.deleted_arrays)?;
    push_list(told, "updated_arrays", &lists.updated_arrays)?;
    push_list(told, "updated_groups", &lists.updated_groups)?;
    push_chunks(told, lists.updated_chunks.as_slice())
}

/// What a transaction log says.
fn log_text(alloc: Global, log: &TxnFile) -> Result<String, AllocError> {
    let mut told = format!(in alloc; "log {}", log.id)?;
    push_lists(&mut told, &log.lists)?;
    Ok(told)
}

/// What a transaction log says; it is let go.
pub fn log_told(alloc: Global, log: TxnFile) -> Result<String, NoAnswer> {
    let told = log_text(alloc, &log);
    drop(log);
    Ok(told?)
}

/// What the file of a transaction log says, or its first fault.
pub fn tell_log(alloc: Global, file: &[u8]) -> Result<String, NoAnswer> {
    match txn_file::read(alloc, file) {
        Ok(log) => log_told(alloc, log),
        Err(fault) => fault_told(alloc, fault),
    }
}

/// The file of a transaction log, read and written again, or its first fault.
pub fn tell_log_again(alloc: Global, file: &[u8]) -> Result<String, NoAnswer> {
    txn_file::laws::ordered_law();
    match txn_file::read(alloc, file) {
        Ok(log) => {
            let written = txn_file::write(alloc, &log);
            drop(log);
            written_again(alloc, file, written)
        }
        Err(fault) => fault_told(alloc, fault),
    }
}
