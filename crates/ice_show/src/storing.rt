//! Operations on stores in memory, of which planned ones fail. An operation is a word with a key like `branch main`; behind `@`
//! stands a version, and behind `=` the bytes of a put. `, ` stands between operations.

use ice_base::TickClock;
use mem_store::{Failing, FaultStore, MemStore, OpRef};
use show_files::{NoAnswer, first_word, number_of, parted, small_number_of};
use show_runs::key_of;
use std::alloc::{AllocError, Global};
use store_api::{Key, Part, Polite, Reply, StoreFault, Version, Why};

pub type Memory = MemStore<TickClock>;

/// A call to fail: its number, and `+` behind it where it is done first.
fn planned_of(word: &str) -> Result<(u64, bool), NoAnswer> {
    match word.strip_suffix('+') {
        Some(digits) => Ok((number_of(digits)?, true)),
        None => Ok((number_of(word)?, false)),
    }
}

/// The calls to fail, with commas between them; `-` is none.
fn plan_of(alloc: Global, word: &str) -> Result<Vec<(u64, bool)>, NoAnswer> {
    let mut plan = Vec::new(alloc);
    if word.is_empty() || word == "-" {
        return Ok(plan);
    }
    for call in word.split(',') {
        plan.push(planned_of(call)?)?;
    }
    Ok(plan)
}

/// The part of the store of this name.
fn part_of(word: &str) -> Result<Part, NoAnswer> {
    match word {
        "branches" => Ok(Part::Branches),
        "tags" => Ok(Part::Tags),
        "leases" => Ok(Part::Leases),
        _ => Err(NoAnswer::Words),
    }
}

fn reply_told(alloc: Global, reply: &Result<Reply, StoreFault>) -> Result<String, AllocError> {
    format!(in alloc; "{reply:?}")
}

/// What an operation answers.
fn made<S: Failing<Polite>>(
    alloc: Global,
    store: &mut S,
    op: &OpRef<'_>,
) -> Result<String, AllocError> {
    let reply = store.make(op);
    let told = reply_told(alloc, &reply);
    drop(reply);
    told
}

/// What an operation answers that names a version.
fn made_at<S: Failing<Polite>>(
    alloc: Global,
    store: &mut S,
    word: &str,
    key: &Key,
    old: Version,
    bytes: &[u8],
) -> Result<String, NoAnswer> {
    let why = Why::Set;
    let op = match word {
        "over" => OpRef::PutOver {
            key,
            bytes,
            old,
            why,
        },
        "remove_at" => OpRef::RemoveAt { key, old, why },
        _ => return Err(NoAnswer::Words),
    };
    Ok(made(alloc, store, &op)?)
}

/// What an operation at a key answers.
fn made_on<S: Failing<Polite>>(
    alloc: Global,
    store: &mut S,
    word: &str,
    key: &Key,
    version: &str,
    bytes: &[u8],
) -> Result<String, NoAnswer> {
    let why = Why::Set;
    let op = match word {
        "get" => OpRef::Get { key },
        "new" => OpRef::PutNew { key, bytes, why },
        "remove" => OpRef::Remove { key, why },
        _ => return made_at(alloc, store, word, key, Version(number_of(version)?), bytes),
    };
    Ok(made(alloc, store, &op)?)
}

/// What the operation of a word answers, with the key, the version and the bytes behind it.
fn answered<S: Failing<Polite>>(
    alloc: Global,
    store: &mut S,
    word: &str,
    rest: &str,
) -> Result<String, NoAnswer> {
    let (place, bytes) = parted(rest, "=");
    let (key, version) = parted(place, "@");
    let key = key_of(alloc, key)?;
    let told = made_on(alloc, store, word, &key, version, bytes.as_bytes());
    drop(key);
    told
}

/// What a call answers. `client` makes the next operations those of another client.
pub fn call_told<S: Failing<Polite>>(
    alloc: Global,
    store: &mut S,
    call: &str,
) -> Result<String, NoAnswer> {
    let (word, rest) = first_word(call);
    match word {
        "client" => {
            store.serve(small_number_of(rest)?);
            Ok(String::from_str(alloc, "served")?)
        }
        "list" => {
            let part = part_of(rest)?;
            Ok(made(alloc, store, &OpRef::List { part })?)
        }
        _ => answered(alloc, store, word, rest),
    }
}

/// Appends an answer on a line of its own.
pub fn push_line(told: &mut String, answer: &str) -> Result<(), AllocError> {
    told.push_str("\n  ")?;
    told.push_str(answer)
}

/// The store over this one of which the planned calls fail, after these operations, whose answers are appended. The plan stands
/// first.
fn played<S: Failing<Polite> + Drop>(
    alloc: Global,
    told: &mut String,
    store: S,
    text: &str,
) -> Result<FaultStore<S>, NoAnswer> {
    let (plan, calls) = first_word(text);
    let mut store = FaultStore::new(store, plan_of(alloc, plan)?);
    push_calls(alloc, told, &mut store, calls)?;
    Ok(store)
}

/// Makes operations, and appends what they answer.
fn push_calls<S: Failing<Polite>>(
    alloc: Global,
    told: &mut String,
    store: &mut S,
    calls: &str,
) -> Result<(), NoAnswer> {
    if calls.is_empty() {
        return Ok(());
    }
    for call in calls.split(", ") {
        push_line(told, call_told(alloc, store, call)?.as_str())?;
    }
    Ok(())
}

/// Whose the event at a place is, when it was, and what it answered.
fn event_told(alloc: Global, store: &Memory, place: u32) -> Result<String, AllocError> {
    let Some(event) = store.event(place as usize) else {
        return String::from_str(alloc, "no event");
    };
    let (client, time) = (event.client, event.time);
    format!(in alloc; "client {client} time {time} {:?}", event.reply)
}

/// The version at which an object stands.
fn standing_told(alloc: Global, store: &Memory, key: &Key) -> Result<String, AllocError> {
    let standing = store.standing(key);
    format!(in alloc; "{standing:?}")
}

/// How many `events` there were, the event at a place, or what stands at a key.
fn asked_told(alloc: Global, store: &Memory, asked: &str) -> Result<String, NoAnswer> {
    if asked == "events" {
        return Ok(format!(in alloc; "{} events", store.number_of_events())?);
    }
    if let Ok(place) = small_number_of(asked) {
        return Ok(event_told(alloc, store, place)?);
    }
    let key = key_of(alloc, asked)?;
    Ok(standing_told(alloc, store, &key)?)
}

/// Appends what is asked for.
pub fn push_asked(
    alloc: Global,
    told: &mut String,
    store: &Memory,
    asked: &str,
) -> Result<(), NoAnswer> {
    if asked.is_empty() {
        return Ok(());
    }
    for asked in asked.split(", ") {
        push_line(told, asked_told(alloc, store, asked)?.as_str())?;
    }
    Ok(())
}

/// What operations on a store in memory answer of which planned ones fail, and behind ` ? ` what is asked for. ` | ` stands before
/// a plan over that one, with its operations.
pub fn tell_store(alloc: Global, text: &str) -> Result<String, NoAnswer> {
    let (calls, asked) = parted(text, " ? ");
    let (below, above) = parted(calls, " | ");
    let mut told = String::from_str(alloc, "answers")?;
    let store = MemStore::new(alloc, TickClock::new());
    let store = played(alloc, &mut told, store, below)?;
    let store = played(alloc, &mut told, store, above)?;
    push_asked(alloc, &mut told, store.inner().inner(), asked)?;
    Ok(told)
}
