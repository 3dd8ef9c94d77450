//! Words of a case.

use std::alloc::{AllocError, AllocFailed, Global};

/// Why a case has no answer.
#[derive(Clone, Copy, Debug, Drop, PartialEq, Eq)]
pub enum NoAnswer {
    /// Its words aren't those of its kind.
    Words,
    /// Memory ran out.
    NoMemory,
}

impl From<AllocError> for NoAnswer {
    fn from(_error: AllocError) -> NoAnswer {
        NoAnswer::NoMemory
    }
}

impl<T: Drop> From<AllocFailed<T>> for NoAnswer {
    fn from(_error: AllocFailed<T>) -> NoAnswer {
        NoAnswer::NoMemory
    }
}

/// What was read, or that the words aren't those of a case; the fault is let go.
pub fn or_words<T, F: Drop>(read: Result<T, F>) -> Result<T, NoAnswer> {
    match read {
        Ok(value) => Ok(value),
        Err(fault) => {
            drop(fault);
            Err(NoAnswer::Words)
        }
    }
}

/// What was made, or that there was no memory for it; the fault is let go.
pub fn or_no_memory<T, F: Drop>(made: Result<T, F>) -> Result<T, NoAnswer> {
    match made {
        Ok(value) => Ok(value),
        Err(fault) => {
            drop(fault);
            Err(NoAnswer::NoMemory)
        }
    }
}

/// The first word of a text, and what stands behind the space after it.
pub fn first_word(text: &str) -> (&str, &str) {
    match text.split_once(' ') {
        Some((word, rest)) => (word, rest),
        None => (text, ""),
    }
}

/// A text up to a mark, and what stands behind it, if anything does.
pub fn parted<'a>(text: &'a str, mark: &str) -> (&'a str, &'a str) {
    match text.split_once(mark) {
        Some((before, behind)) => (before, behind),
        None => (text, ""),
    }
}

/// Two words.
pub fn two_words(text: &str) -> (&str, &str) {
    let (first, rest) = first_word(text);
    let (second, _) = first_word(rest);
    (first, second)
}

/// The text of some bytes; `Words` where they are no UTF-8.
pub fn text_of(bytes: &[u8]) -> Result<&str, NoAnswer> {
    match str::from_utf8(bytes) {
        Ok(text) => Ok(text),
        Err(_) => Err(NoAnswer::Words),
    }
}

/// The numbers of a word, with commas between them; `-` is none. `Words` where one isn't a number of 64 bits.
pub fn numbers_of(alloc: Global, word: &str) -> Result<Vec<u64>, NoAnswer> {
    let mut numbers = Vec::new(alloc);
    if word == "-" {
        return Ok(numbers);
    }
    for digits in word.split(',') {
        match digits.parse::<u64>() {
            Ok(number) => numbers.push(number)?,
            Err(_) => return Err(NoAnswer::Words),
        }
    }
    Ok(numbers)
}

/// The small numbers of a word.
pub fn indices_of(alloc: Global, word: &str) -> Result<Vec<u32>, NoAnswer> {
    let mut numbers = Vec::new(alloc);
    if word == "-" {
        return Ok(numbers);
    }
    for digits in word.split(',') {
        numbers.push(small_number_of(digits)?)?;
    }
    Ok(numbers)
}

/// The number of 64 bits that a word says; `Words` where it says none.
pub fn number_of(word: &str) -> Result<u64, NoAnswer> {
    match word.parse::<u64>() {
        Ok(number) => Ok(number),
        Err(_) => Err(NoAnswer::Words),
    }
}

/// The number of 32 bits that a word says; `Words` where it says none.
pub fn small_number_of(word: &str) -> Result<u32, NoAnswer> {
    match word.parse::<u32>() {
        Ok(number) => Ok(number),
        Err(_) => Err(NoAnswer::Words),
    }
}

/// The word that tells whether something is so.
pub fn said(holds: bool) -> &'static str {
    if holds { "yes" } else { "no" }
}
