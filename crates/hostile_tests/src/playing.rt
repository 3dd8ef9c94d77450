//! What the run of a script is given, and what it writes.

use command_words::Word;
use ice_base::{ByteSink, ByteSource};
use std::alloc::{AllocError, Global};

/// What a run is given: the words behind the program's name, and its ends.
#[derive(Drop)]
pub(crate) struct Asked {
    pub(crate) words: Vec<Word>,
    pub(crate) input: ByteSource,
    pub(crate) output: ByteSink,
}

/// The word that plays a script.
fn words(alloc: Global) -> Result<Vec<Word>, AllocError> {
    let mut words = Vec::new(alloc);
    words.push(Word::of(alloc, "play")?)?;
    Ok(words)
}

/// An input of this text.
fn input(alloc: Global, text: &str) -> Result<ByteSource, AllocError> {
    Ok(ByteSource::new(text.as_bytes().to_vec(alloc)?, Vec::new(alloc)))
}

/// A run of a script, of which nothing fails.
pub(crate) fn script(alloc: Global, script: &str) -> Option<Asked> {
    let input = input(alloc, script).ok()?;
    let output = ByteSink::new(alloc, 10_000, Vec::new(alloc)).ok()?;
    let words = words(alloc).ok()?;
    Some(Asked {
        words,
        input,
        output,
    })
}

/// What was written.
pub(crate) fn report(alloc: Global, asked: &Asked) -> Option<String> {
    String::from_utf8_lossy(alloc, asked.output.written()).ok()
}
