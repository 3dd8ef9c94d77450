//! The answer to a line.

use crate::kept::Kept;
use crate::kinds::tell;
use crate::parts::bytes_of;
use show_files::{NoAnswer, first_word};
use std::alloc::{AllocError, Global};

/// How much of a line is printed again before its answer.
const MOST_SHOWN: usize = 90;

/// The beginning of a line, for a reader to know it by.
fn shown(alloc: Global, line: &str) -> Result<String, AllocError> {
    let mut text = String::new(alloc);
    for c in line.chars().take(MOST_SHOWN) {
        text.push(c)?;
    }
    if text.len() < line.len() {
        text.push_str("..")?;
    }
    Ok(text)
}

/// Keeps bytes under the name that stands before them.
fn keep(alloc: Global, kept: &mut Kept, text: &str) -> Result<String, NoAnswer> {
    let (name, parts) = first_word(text);
    let bytes = bytes_of(alloc, kept, parts)?;
    let count = bytes.len();
    kept.keep(alloc, name, bytes)?;
    Ok(format!(in alloc; "{count} bytes")?)
}

/// What is told of a case.
fn told(alloc: Global, kept: &mut Kept, line: &str) -> Result<String, NoAnswer> {
    let (kind, rest) = first_word(line);
    match kind {
        "keep" => keep(alloc, kept, rest),
        "bytes" => {
            let (kind, parts) = first_word(rest);
            let bytes = bytes_of(alloc, kept, parts)?;
            tell(alloc, kind, bytes.as_slice())
        }
        _ => tell(alloc, kind, rest.as_bytes()),
    }
}

/// A line and its answer. An empty line, and one that begins with `#`, has none.
pub fn answer(alloc: Global, kept: &mut Kept, line: &str) -> Result<Option<String>, AllocError> {
    if line.is_empty() || line.starts_with('#') {
        return Ok(None);
    }
    let mut text = shown(alloc, line)?;
    text.push_str(" => ")?;
    match told(alloc, kept, line) {
        Ok(told) => text.push_str(told.as_str())?,
        Err(NoAnswer::Words) => text.push_str("no case")?,
        Err(NoAnswer::NoMemory) => return Err(AllocError),
    }
    Ok(Some(text))
}
