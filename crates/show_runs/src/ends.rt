//! Ends of byte streams that fail by plan, and lists of bytes.

use ice_base::{ByteSink, ByteSource, Bytes, InputFault, read_input, write_whole};
use show_files::{NoAnswer, first_word, number_of, numbers_of, text_of};
use std::alloc::{AllocError, Global};

/// The most bytes that are told one by one.
const MOST_TOLD: usize = 16;

/// Bytes, or how many there are where they are many.
fn bytes_told(alloc: Global, bytes: &[u8]) -> Result<String, NoAnswer> {
    if bytes.len() > MOST_TOLD {
        return Ok(format!(in alloc; "{} bytes", bytes.len())?);
    }
    Ok(String::from_str(alloc, text_of(bytes)?)?)
}

/// What is read, or why nothing is.
fn read_told(alloc: Global, read: Result<Bytes, InputFault>) -> Result<String, NoAnswer> {
    match read {
        Ok(bytes) => bytes_told(alloc, bytes.as_slice()),
        Err(fault) => Ok(format!(in alloc; "{fault:?}")?),
    }
}

/// A read of a source, up to a bound.
fn bounded_told(alloc: Global, source: &mut ByteSource, bound: &str) -> Result<String, NoAnswer> {
    let most = number_of(bound)? as usize;
    read_told(alloc, read_input(alloc, source, most))
}

/// Reads of a source, up to each of some bounds.
fn reads_told(alloc: Global, source: &mut ByteSource, bounds: &str) -> Result<String, NoAnswer> {
    let mut told = String::from_str(alloc, "read")?;
    for bound in bounds.split(',') {
        told.push(' ')?;
        told.push_str(bounded_told(alloc, source, bound)?.as_str())?;
    }
    Ok(told)
}

/// The numbers of the calls that fail, and what stands behind them.
fn planned_of(alloc: Global, text: &str) -> Result<(Vec<u64>, &str), NoAnswer> {
    let (faults, rest) = first_word(text);
    Ok((numbers_of(alloc, faults)?, rest))
}

/// Reads of a source, up to each of some bounds. The calls of the source that fail stand behind the bounds, and then its bytes.
pub fn tell_input(alloc: Global, text: &str) -> Result<String, NoAnswer> {
    let (bounds, rest) = first_word(text);
    let (faults, bytes) = planned_of(alloc, rest)?;
    let mut source = ByteSource::new(bytes.as_bytes().to_vec(alloc)?, faults);
    reads_told(alloc, &mut source, bounds)
}

/// Writes texts with commas between them, and appends what each comes to.
fn push_writes(told: &mut String, sink: &mut ByteSink, texts: &str) -> Result<(), AllocError> {
    for text in texts.split(',') {
        match write_whole(sink, text.as_bytes()) {
            Ok(()) => told.push_str(" done")?,
            Err(_) => told.push_str(" failed")?,
        }
    }
    Ok(())
}

/// Writes to a sink that has room for so many bytes. The calls of the sink that fail stand behind its room, and then the texts.
pub fn tell_output(alloc: Global, text: &str) -> Result<String, NoAnswer> {
    let (room, rest) = first_word(text);
    let (faults, texts) = planned_of(alloc, rest)?;
    let mut sink = ByteSink::new(alloc, number_of(room)? as usize, faults)?;
    let mut told = String::from_str(alloc, "writes")?;
    push_writes(&mut told, &mut sink, texts)?;
    told.push_str(", written ")?;
    told.push_str(bytes_told(alloc, sink.written())?.as_str())?;
    Ok(told)
}

/// A list of bytes: a byte that is pushed, and a text behind it.
fn list_of(alloc: Global, byte: u8, text: &str) -> Result<Bytes, AllocError> {
    let mut bytes = Bytes::new(alloc);
    bytes.push(byte)?;
    bytes.extend(text.as_bytes())?;
    Ok(bytes)
}

/// A list of bytes, whose first one is pushed, in a copy, and through a `Vec`.
pub fn tell_byte_list(alloc: Global, text: &str) -> Result<String, NoAnswer> {
    let (first, rest) = first_word(text);
    let [byte] = first.as_bytes() else {
        return Err(NoAnswer::Words);
    };
    let bytes = list_of(alloc, *byte, rest)?.copy(alloc)?;
    let empty = Bytes::new(alloc).is_empty() && !bytes.is_empty();
    let len = bytes.len();
    let text = bytes_told(alloc, Bytes::from_vec(bytes.into_vec()).as_slice())?;
    Ok(format!(in alloc; "{len} bytes {text} {empty}")?)
}
