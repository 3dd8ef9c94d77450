//! Heads of cases: the calls of the store that fail.

use std::alloc::{AllocError, Global};

/// A call of the store that fails: its number, and whether the store does it all the same.
pub type Planned = (u64, bool);

/// What the head of a case says.
#[derive(Drop)]
pub struct Head {
    /// Whether the journal is shown.
    pub journal: bool,
    /// The calls that fail, by ascending numbers.
    pub plan: Vec<Planned>,
}

/// The number of a word of digits.
fn number_of(word: &str) -> Option<u64> {
    let first = word.as_bytes().first()?;
    if !first.is_ascii_digit() {
        return None;
    }
    word.parse::<u64>().ok()
}

/// What is said of a call that fails: whether it is done.
fn done_of(word: &str) -> Option<bool> {
    match word {
        "done" => Some(true),
        "not" => Some(false),
        _ => None,
    }
}

/// The call that a word plans.
fn planned_of(word: &str) -> Option<Planned> {
    let (number, done) = word.split_once(':')?;
    Some((number_of(number)?, done_of(done)?))
}

/// The call that a word plans behind the ones before it.
fn next_of(plan: &[Planned], word: &str) -> Option<Planned> {
    let planned = planned_of(word)?;
    match plan.last() {
        Some(last) if planned.0 <= last.0 => None,
        _ => Some(planned),
    }
}

/// The calls that words plan, each behind a space.
fn plan_of(alloc: Global, words: &str) -> Result<Option<Vec<Planned>>, AllocError> {
    let mut plan = Vec::new(alloc);
    for word in words.split(' ').skip(1) {
        let Some(planned) = next_of(plan.as_slice(), word) else {
            return Ok(None);
        };
        plan.push(planned)?;
    }
    Ok(Some(plan))
}

/// Whether the words of a head ask for the journal, and the words behind that one.
fn journal_of(words: &str) -> (bool, &str) {
    match words.strip_prefix(" journal") {
        Some(rest) if rest.is_empty() || rest.starts_with(' ') => (true, rest),
        _ => (false, words),
    }
}

/// The words of a head, each behind a space.
fn words_of(line: &[u8]) -> Option<&str> {
    match str::from_utf8(line) {
        Ok(text) => text.strip_prefix("=="),
        Err(_) => None,
    }
}

/// What a line says as the head of a case.
pub fn read_head(alloc: Global, line: &[u8]) -> Result<Option<Head>, AllocError> {
    let Some(words) = words_of(line) else {
        return Ok(None);
    };
    let (journal, words) = journal_of(words);
    match plan_of(alloc, words)? {
        Some(plan) => Ok(Some(Head { journal, plan })),
        None => Ok(None),
    }
}
