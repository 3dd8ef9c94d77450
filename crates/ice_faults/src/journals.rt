//! The journal of a store, an event a line.

use crate::pages::Page;
use ice_base::TickClock;
use mem_store::{EventRef, MemStore, ReplyRef};
use std::alloc::{AllocError, Global};
use store_api::{Gone, GoneAt, Key, New, Op, Over, Part, Version, Why};

/// The name of a part.
fn part_name(part: Part) -> &'static str {
    match part {
        Part::Snapshots => "snapshots",
        Part::Manifests => "manifests",
        Part::Txns => "transactions",
        Part::Chunks => "chunks",
        Part::Branches => "branches",
        Part::Tags => "tags",
        Part::Leases => "leases",
    }
}

/// What a write is for.
fn why_name(why: Why) -> &'static str {
    match why {
        Why::Init => ", for init",
        Why::Set => ", for set",
        Why::Commit => ", for commit",
        Why::Create => ", for create",
        Why::Reset => ", for reset",
        Why::Drop => ", for drop",
        Why::Tag => ", for tag",
        Why::Collect => ", for collect",
        Why::Expire => ", for expire",
        Why::Lease => ", for lease",
    }
}

/// Appends an operation's word and its key.
fn add_key(page: &mut Page, alloc: Global, word: &str, key: &Key) -> Result<(), AllocError> {
    page.add(word)?;
    let name = format!(in alloc; "{key}")?;
    page.add(name.as_str())
}

/// Appends how many bytes are put, and what for.
fn add_put(page: &mut Page, alloc: Global, bytes: usize, why: Why) -> Result<(), AllocError> {
    page.add_counted(alloc, ", bytes ", bytes as u64)?;
    page.add(why_name(why))
}

/// Appends the version that an operation asks for.
fn add_asked(page: &mut Page, alloc: Global, version: Version) -> Result<(), AllocError> {
    page.add_counted(alloc, " at version ", version.0)
}

/// Appends an operation.
fn add_op(page: &mut Page, alloc: Global, op: &Op) -> Result<(), AllocError> {
    match op {
        Op::Get { key } => add_key(page, alloc, " get ", key),
        Op::PutNew { key, bytes, why } => {
            add_key(page, alloc, " put ", key)?;
            add_put(page, alloc, bytes.len(), *why)
        }
        Op::PutOver {
            key,
            bytes,
            old,
            why,
        } => {
            add_key(page, alloc, " put ", key)?;
            add_asked(page, alloc, *old)?;
            add_put(page, alloc, bytes.len(), *why)
        }
        Op::Remove { key, why } => {
            add_key(page, alloc, " remove ", key)?;
            page.add(why_name(*why))
        }
        Op::RemoveAt { key, old, why } => {
            add_key(page, alloc, " remove ", key)?;
            add_asked(page, alloc, *old)?;
            page.add(why_name(*why))
        }
        Op::List { part } => {
            page.add(" list ")?;
            page.add(part_name(*part))
        }
    }
}

/// Appends the version that was found, if there was one.
fn add_found(page: &mut Page, alloc: Global, found: Option<Version>) -> Result<(), AllocError> {
    match found {
        Some(version) => page.add_counted(alloc, "found version ", version.0),
        None => page.add("found nothing"),
    }
}

/// Appends what a put answered.
fn add_new(page: &mut Page, alloc: Global, new: New) -> Result<(), AllocError> {
    match new {
        New::Done { version, .. } => page.add_counted(alloc, "done, version ", version.0),
        New::Present { version, .. } => add_found(page, alloc, Some(version)),
    }
}

/// Appends what a put over a version answered.
fn add_over(page: &mut Page, alloc: Global, over: Over) -> Result<(), AllocError> {
    match over {
        Over::Done { version, .. } => page.add_counted(alloc, "done, version ", version.0),
        Over::Moved { found, .. } => add_found(page, alloc, found),
    }
}

/// Appends what a removal answered.
fn add_gone(page: &mut Page, alloc: Global, gone: Gone) -> Result<(), AllocError> {
    match gone {
        Gone::Done { .. } => page.add("done"),
        Gone::Absent { .. } => add_found(page, alloc, None),
    }
}

/// Appends what a removal of a version answered.
fn add_gone_at(page: &mut Page, alloc: Global, gone: GoneAt) -> Result<(), AllocError> {
    match gone {
        GoneAt::Done { .. } => page.add("done"),
        GoneAt::Moved { found, .. } => add_found(page, alloc, found),
    }
}

/// Appends an answer.
fn add_reply(page: &mut Page, alloc: Global, reply: ReplyRef<'_>) -> Result<(), AllocError> {
    match reply {
        ReplyRef::Found { bytes, version, .. } => {
            page.add_counted(alloc, "found version ", version.0)?;
            page.add_counted(alloc, ", bytes ", bytes.len() as u64)
        }
        ReplyRef::Absent { .. } => add_found(page, alloc, None),
        ReplyRef::New(new) => add_new(page, alloc, new),
        ReplyRef::Over(over) => add_over(page, alloc, over),
        ReplyRef::Gone(gone) => add_gone(page, alloc, gone),
        ReplyRef::GoneAt(gone) => add_gone_at(page, alloc, gone),
        ReplyRef::Listed { entries, .. } => {
            page.add_counted(alloc, "found entries ", entries.len() as u64)
        }
        ReplyRef::Failed { done: true } => page.add("failed, but done"),
        ReplyRef::Failed { done: false } => page.add("failed, not done"),
    }
}

/// Appends the line of an event.
fn add_event(
    page: &mut Page,
    alloc: Global,
    place: usize,
    event: &EventRef<'_>,
) -> Result<(), AllocError> {
    page.add_counted(alloc, "event ", place as u64)?;
    page.add_counted(alloc, ": client ", event.client as u64)?;
    add_op(page, alloc, event.op)?;
    page.add(" => ")?;
    add_reply(page, alloc, event.reply)?;
    page.add_counted(alloc, ", time ", event.time)?;
    page.add("\n")
}

/// Appends a line for each event.
pub fn add_journal(
    page: &mut Page,
    alloc: Global,
    memory: &MemStore<TickClock>,
) -> Result<(), AllocError> {
    for place in 0..memory.number_of_events() {
        if let Some(event) = memory.event(place) {
            add_event(page, alloc, place, &event)?;
        }
    }
    Ok(())
}
