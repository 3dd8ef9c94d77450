//! Calls on refs, over a store in memory.

use crate::storing::{Memory, call_told, push_asked, push_line};
use ice_base::{RefName, TickClock};
use mem_store::MemStore;
use play_outcome::RefLines;
use refs_admin::{
    LogLine, LogLines, drop_branch, drop_tag, make_branch, make_repository, make_tag, read_log,
    set_branch,
};
use repo_read::At;
use repository::{begin, read_refs};
use show_files::{NoAnswer, first_word, name_of, parted, push_props};
use show_runs::key_of;
use std::alloc::{AllocError, Global};
use store_api::{Key, Refusal};

/// What the words of a key name.
fn at_of(alloc: Global, words: &str) -> Result<At, NoAnswer> {
    match key_of(alloc, words)? {
        Key::Branch(name) => Ok(At::Branch(name)),
        Key::Tag(name) => Ok(At::Tag(name)),
        Key::Snapshot(id) => Ok(At::Snapshot(id)),
        _ => Err(NoAnswer::Words),
    }
}

/// A name, and behind `=` what it is to name.
fn named_of(alloc: Global, words: &str) -> Result<(RefName, At), NoAnswer> {
    let (name, at) = parted(words, "=");
    let at = at_of(alloc, at)?;
    Ok((name_of(alloc, name)?, at))
}

fn refusal_told(alloc: Global, why: Refusal) -> Result<String, AllocError> {
    let told = format!(in alloc; "{why:?}");
    drop(why);
    told
}

fn done_told(alloc: Global, done: Result<(), Refusal>) -> Result<String, NoAnswer> {
    match done {
        Ok(()) => Ok(String::from_str(alloc, "done")?),
        Err(why) => Ok(refusal_told(alloc, why)?),
    }
}

/// Appends a line of a log.
fn push_log_line(told: &mut String, line: &LogLine) -> Result<(), AllocError> {
    let message = line.message.as_str();
    write!(told, " {} at {} '{message}'", line.id, line.flushed_at)?;
    push_props(told, &line.props)
}

/// The lines of a log.
fn lines_told(alloc: Global, lines: LogLines) -> Result<String, AllocError> {
    let mut told = String::from_str(alloc, "log")?;
    for line in lines.as_slice() {
        push_log_line(&mut told, line)?;
    }
    Ok(told)
}

/// The lines of refs.
fn refs_told(alloc: Global, lines: RefLines) -> Result<String, AllocError> {
    let mut told = String::from_str(alloc, "refs")?;
    for line in lines.as_slice() {
        let kind = if line.tag { "tag" } else { "branch" };
        write!(told, " {kind} {} {}", line.name, line.id)?;
    }
    Ok(told)
}

/// The log of what words name.
fn log_told(alloc: Global, store: &mut Memory, words: &str) -> Result<String, NoAnswer> {
    let at = at_of(alloc, words)?;
    match read_log(alloc, at, store) {
        Ok(lines) => Ok(lines_told(alloc, lines)?),
        Err(why) => Ok(refusal_told(alloc, why)?),
    }
}

/// All refs.
fn all_refs_told(alloc: Global, store: &mut Memory) -> Result<String, AllocError> {
    match read_refs(alloc, store) {
        Ok(lines) => refs_told(alloc, lines),
        Err(why) => refusal_told(alloc, why),
    }
}

/// Makes a ref, or sets it.
fn set_told(alloc: Global, store: &mut Memory, word: &str, rest: &str) -> Result<String, NoAnswer> {
    let (name, at) = named_of(alloc, rest)?;
    match word {
        "make_branch" => done_told(alloc, make_branch(alloc, name, at, store)),
        "set_branch" => done_told(alloc, set_branch(alloc, name, at, store)),
        _ => done_told(alloc, make_tag(alloc, name, at, store)),
    }
}

/// Drops a ref.
fn dropped_told(
    alloc: Global,
    store: &mut Memory,
    word: &str,
    name: &str,
) -> Result<String, NoAnswer> {
    let name = name_of(alloc, name)?;
    match word {
        "drop_branch" => done_told(alloc, drop_branch(alloc, name, store)),
        _ => done_told(alloc, drop_tag(alloc, name, store)),
    }
}

/// What a call answers.
fn ref_call_told(alloc: Global, store: &mut Memory, call: &str) -> Result<String, NoAnswer> {
    let (word, rest) = first_word(call);
    match word {
        "begin" => done_told(alloc, begin(alloc, store)),
        "make_repository" => done_told(alloc, make_repository(alloc, store)),
        "make_branch" | "set_branch" | "make_tag" => set_told(alloc, store, word, rest),
        "drop_branch" | "drop_tag" => dropped_told(alloc, store, word, rest),
        "log" => log_told(alloc, store, rest),
        "read_refs" => Ok(all_refs_told(alloc, store)?),
        _ => call_told(alloc, store, call),
    }
}

/// What calls on refs answer, and operations on the store between them; and behind ` ? ` what is asked for.
pub fn tell_refs(alloc: Global, text: &str) -> Result<String, NoAnswer> {
    let (calls, asked) = parted(text, " ? ");
    let mut told = String::from_str(alloc, "answers")?;
    let mut store = MemStore::new(alloc, TickClock::new());
    for call in calls.split(", ") {
        push_line(&mut told, ref_call_told(alloc, &mut store, call)?.as_str())?;
    }
    push_asked(alloc, &mut told, &store, asked)?;
    Ok(told)
}
