//! The words of the command line.

use std::env;
use std::rt::Env;

/// Which cases are compared: so many from the first one on.
#[derive(Clone, Copy)]
pub struct Range {
    /// The number of the first case.
    pub first: u64,
    /// How many there are.
    pub count: u64,
}

/// The number of a word of digits.
fn number_of(word: &str) -> Option<u64> {
    word.parse::<u64>().ok()
}

/// How many cases a word names; without it there is no end.
fn count_of(word: Option<String>) -> Option<u64> {
    match word {
        Some(word) => number_of(word.as_str()),
        None => Some(u64::MAX),
    }
}

/// The cases that two words name.
fn range_of(first: String, count: Option<String>) -> Option<Range> {
    let from = number_of(first.as_str());
    drop(first);
    let count = count_of(count)?;
    Some(Range {
        first: from?,
        count,
    })
}

/// The cases that the words of the command line name, if they name any.
pub fn read_words<R: Env + AllocGlobal>(rt: &R) -> Option<Range> {
    let mut words = env::args(rt).ok()?;
    let _program = words.next();
    let first = words.next();
    let count = words.next();
    drop(words);
    match first {
        Some(first) => range_of(first, count),
        None => None,
    }
}
