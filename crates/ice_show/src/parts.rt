//! Bytes written in parts, with a space between them:
//!
//! - `0aff`, bytes in hexadecimal digits;
//! - `'text'`, the bytes of a text without `'`;
//! - `$name`, the bytes that were kept under a name;
//! - any of these with `*3` behind it: that many times;
//! - `@12=0aff`, which writes these bytes over those of the part before, from its place 12 on;
//! - `3#0aff{4+44}`, bytes with numbers that count, as `counted` says;
//! - `<38`, which leaves the first 38 bytes of the part before.

use crate::counted::push_turns;
use crate::kept::Kept;
use show_files::{NoAnswer, first_word};
use std::alloc::{AllocError, Global};

/// The bytes so far, and where the last part of them begins.
#[derive(Drop)]
struct Laid {
    bytes: Vec<u8>,
    last: usize,
}

/// The bytes of some parts.
pub fn bytes_of(alloc: Global, kept: &Kept, text: &str) -> Result<Vec<u8>, NoAnswer> {
    let mut laid = Laid {
        bytes: Vec::new(alloc),
        last: 0,
    };
    let mut rest = text;
    for _ in 0..text.len() {
        if rest.is_empty() {
            break;
        }
        rest = lay(alloc, kept, &mut laid, rest)?;
    }
    Ok(laid.bytes)
}

/// Lays the first part of a text, and gives the others.
fn lay<'a>(
    alloc: Global,
    kept: &Kept,
    laid: &mut Laid,
    text: &'a str,
) -> Result<&'a str, NoAnswer> {
    if let Some(quoted) = text.strip_prefix('\'') {
        let (inside, behind) = quoted.split_once('\'').ok_or(NoAnswer::Words)?;
        let (times, rest) = first_word(behind);
        lay_often(laid, inside.as_bytes(), times)?;
        return Ok(rest);
    }
    let (part, rest) = first_word(text);
    if let Some(change) = part.strip_prefix('@') {
        lay_over(alloc, laid, change)?;
    } else if let Some(len) = part.strip_prefix('<') {
        laid.bytes
            .truncate(laid.last.saturating_add(count_of(len)?));
    } else {
        lay_word(alloc, kept, laid, part)?;
    }
    Ok(rest)
}

/// Lays a part that is one word, as often as it says.
fn lay_word(alloc: Global, kept: &Kept, laid: &mut Laid, part: &str) -> Result<(), NoAnswer> {
    if let Some((turns, template)) = part.split_once('#') {
        laid.last = laid.bytes.len();
        return push_turns(alloc, &mut laid.bytes, turns, template);
    }
    let (word, times) = match part.split_once('*') {
        Some((word, _)) => (word, part.strip_prefix(word).unwrap_or("")),
        None => (part, ""),
    };
    if let Some(name) = word.strip_prefix('$') {
        let bytes = kept.find(name).ok_or(NoAnswer::Words)?;
        return lay_often(laid, bytes, times);
    }
    let bytes = digits_of(alloc, word)?;
    lay_often(laid, bytes.as_slice(), times)
}

/// Lays bytes, as often as a text like `*3` says, and once where there is none.
fn lay_often(laid: &mut Laid, bytes: &[u8], times: &str) -> Result<(), NoAnswer> {
    let times = match times.strip_prefix('*') {
        Some(count) => count_of(count)?,
        None => 1,
    };
    laid.last = laid.bytes.len();
    if let [byte] = bytes {
        return Ok(lay_byte(&mut laid.bytes, *byte, times)?);
    }
    for _ in 0..times {
        laid.bytes.extend_from_slice(bytes)?;
    }
    Ok(())
}

/// How many bytes are laid at once.
const BLOCK: usize = 4096;

/// Appends a byte so many times.
fn lay_byte(bytes: &mut Vec<u8>, byte: u8, times: usize) -> Result<(), AllocError> {
    bytes.reserve(times)?;
    let block = [byte; BLOCK];
    for _ in 0..times / BLOCK {
        bytes.extend_from_slice(&block)?;
    }
    for _ in 0..times % BLOCK {
        bytes.push(byte)?;
    }
    Ok(())
}

/// Writes over the last part what a text like `12=0aff` says.
fn lay_over(alloc: Global, laid: &mut Laid, change: &str) -> Result<(), NoAnswer> {
    let (at, digits) = change.split_once('=').ok_or(NoAnswer::Words)?;
    let first = laid.last.saturating_add(count_of(at)?);
    let bytes = digits_of(alloc, digits)?;
    for (i, byte) in bytes.iter().enumerate() {
        match laid.bytes.get_mut(first.saturating_add(i)) {
            Some(changed) => *changed = *byte,
            None => return Err(NoAnswer::Words),
        }
    }
    Ok(())
}

/// The bytes of hexadecimal digits.
pub fn digits_of(alloc: Global, digits: &str) -> Result<Vec<u8>, NoAnswer> {
    match hex::decode(alloc, digits) {
        Ok(bytes) => Ok(bytes),
        Err(hex::FromHexError::OutOfMemory) => Err(NoAnswer::NoMemory),
        Err(_) => Err(NoAnswer::Words),
    }
}

/// A count.
fn count_of(digits: &str) -> Result<usize, NoAnswer> {
    match digits.parse::<usize>() {
        Ok(count) => Ok(count),
        Err(_) => Err(NoAnswer::Words),
    }
}
