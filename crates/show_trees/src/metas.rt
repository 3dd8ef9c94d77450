//! JSON texts, and the metadata of Zarr nodes.

use json_words::read_value;
use serde_json::Value;
use show_files::{NoAnswer, fault_told, first_word, numbers_of, push_names};
use std::alloc::{AllocError, Global};
use zarr_meta::{ArrayView, IntKind, Meta, MetaFault, MetaView};

/// That bytes are a JSON text, or why they are none.
pub fn tell_json(alloc: Global, bytes: &[u8]) -> Result<String, NoAnswer> {
    match read_value(alloc, bytes) {
        Ok(_) => Ok(String::from_str(alloc, "json")?),
        Err(fault) => fault_told(alloc, fault),
    }
}

fn number_told(alloc: Global, value: &Value) -> Result<String, AllocError> {
    let whole = value.as_u64();
    let integer = value.as_number().and_then(|number| number.as_i128());
    format!(in alloc; "whole {whole:?} integer {integer:?}")
}

/// The number of a JSON text, as a whole one and as one with a sign; or why bytes are no such text.
pub fn tell_number(alloc: Global, bytes: &[u8]) -> Result<String, NoAnswer> {
    match read_value(alloc, bytes) {
        Ok(value) => Ok(number_told(alloc, &value)?),
        Err(fault) => fault_told(alloc, fault),
    }
}

fn member_told(alloc: Global, value: &Value) -> Result<String, AllocError> {
    let text = value.get("a").and_then(Value::as_str);
    format!(in alloc; "{text:?}")
}

/// The text of the member `a` of a JSON text, or why bytes are no such text.
pub fn tell_member(alloc: Global, bytes: &[u8]) -> Result<String, NoAnswer> {
    match read_value(alloc, bytes) {
        Ok(value) => Ok(member_told(alloc, &value)?),
        Err(fault) => fault_told(alloc, fault),
    }
}

/// The type, the order of bytes, the shape, the chunks and the fill value of an array.
fn fields_told(alloc: Global, array: &ArrayView) -> Result<String, AllocError> {
    let (kind, fill) = (array.kind.name(), array.fill);
    let (shape, chunks) = (array.shape.as_slice(), array.chunks.as_slice());
    let order = if array.big { "big" } else { "little" };
    format!(in alloc; "array {kind} {order} shape {shape:?} chunks {chunks:?} fill {fill}")
}

/// What the metadata of an array says.
fn array_told(alloc: Global, array: &ArrayView) -> Result<String, AllocError> {
    let mut told = fields_told(alloc, array)?;
    if let Some(names) = &array.names {
        push_names(&mut told, names.as_slice())?;
    }
    Ok(told)
}

/// What metadata says.
fn view_told(alloc: Global, view: &MetaView) -> Result<String, AllocError> {
    match view {
        MetaView::Group => String::from_str(alloc, "group"),
        MetaView::Array(array) => array_told(alloc, array),
    }
}

/// Why a text is no metadata.
pub fn meta_fault_told(alloc: Global, fault: &MetaFault) -> Result<String, AllocError> {
    match fault {
        MetaFault::Extra(name) => format!(in alloc; "fault extra {}", name.as_str()),
        fault => format!(in alloc; "fault {fault}"),
    }
}

/// Why a text is no metadata; the fault is let go.
fn refused(alloc: Global, fault: MetaFault) -> Result<String, NoAnswer> {
    let told = meta_fault_told(alloc, &fault);
    drop(fault);
    Ok(told?)
}

/// A copy of metadata in its place.
fn copy_of(alloc: Global, meta: Meta) -> Result<Meta, AllocError> {
    let copy = meta.copy(alloc);
    drop(meta);
    copy
}

/// What metadata says; it is let go.
fn meta_told(alloc: Global, meta: Meta) -> Result<String, NoAnswer> {
    let told = view_told(alloc, &meta.view);
    drop(meta);
    Ok(told?)
}

/// What the text of a `zarr.json` says, or its first fault.
pub fn tell_meta(alloc: Global, text: &[u8]) -> Result<String, NoAnswer> {
    match Meta::read(alloc, text) {
        Ok(meta) => meta_told(alloc, copy_of(alloc, meta)?),
        Err(fault) => refused(alloc, fault),
    }
}

/// The text of metadata; it is let go.
fn text_told(alloc: Global, meta: Meta) -> Result<String, NoAnswer> {
    let text = str::from_utf8(meta.text.as_slice()).unwrap_or("no text");
    let told = String::from_str(alloc, text);
    drop(meta);
    Ok(told?)
}

/// The text of a `zarr.json`, as it is kept, or its first fault.
pub fn tell_meta_text(alloc: Global, text: &[u8]) -> Result<String, NoAnswer> {
    match Meta::read(alloc, text) {
        Ok(meta) => text_told(alloc, copy_of(alloc, meta)?),
        Err(fault) => refused(alloc, fault),
    }
}

/// A fill value.
fn fill_of(word: &str) -> Result<i128, NoAnswer> {
    match word.parse::<i128>() {
        Ok(fill) => Ok(fill),
        Err(_) => Err(NoAnswer::Words),
    }
}

/// The shortest text of an array of a type, from words for its shape, its chunks and its fill value.
fn plain_told(alloc: Global, kind: IntKind, words: &str) -> Result<String, NoAnswer> {
    let (shape, rest) = first_word(words);
    let (chunks, fill) = first_word(rest);
    let fill = fill_of(fill)?;
    let shape = numbers_of(alloc, shape)?;
    let chunks = numbers_of(alloc, chunks)?;
    match Meta::plain_array(alloc, kind, &shape, &chunks, fill) {
        Ok(meta) => text_told(alloc, meta),
        Err(fault) => refused(alloc, fault),
    }
}

/// The shortest text of a `group`; or of an array, from words for its type, its shape, its chunks and its fill value.
pub fn tell_plain(alloc: Global, text: &str) -> Result<String, NoAnswer> {
    let (kind, rest) = first_word(text);
    if kind == "group" {
        return text_told(alloc, Meta::plain_group(alloc)?);
    }
    plain_told(alloc, IntKind::named(kind).ok_or(NoAnswer::Words)?, rest)
}
