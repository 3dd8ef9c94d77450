//! Operations on stores over folders, and what they answer.

use dir_store::{FolderStore, version_for};
use folder::Folder;
use ice_base::{RefName, TickClock};
use std::alloc::{AllocError, Global};
use store_api::{CountingStore, Key, Listed, ObjectStore, Part, Polite, Reply, StoreFault, Why};

/// An operation on a key, or on a part.
#[derive(Clone, Copy)]
pub(crate) enum Call<'a> {
    Get,
    /// A put of these bytes, where the key is free.
    New(&'a [u8]),
    /// A put of these bytes over those.
    Over(&'a [u8], &'a [u8]),
    Remove,
    /// A removal of these bytes.
    RemoveAt(&'a [u8]),
    List(Part),
}

/// The key of the branch of this name.
pub(crate) fn branch(alloc: Global, name: &str) -> Option<Key> {
    match RefName::read(alloc, name) {
        Ok(name) => Some(Key::Branch(name)),
        Err(_) => None,
    }
}

/// A store that answers operations.
pub(crate) trait Answering {
    /// Makes an operation.
    fn reply(&mut self, key: &Key, call: &Call<'_>) -> Result<Reply, StoreFault>;
}

/// What a store counts: the operations that were made, and those that failed.
#[derive(Clone, Copy)]
pub(crate) struct Counts {
    pub(crate) operations: u64,
    pub(crate) faults: u64,
}

impl Counts {
    /// What a new store counts.
    pub(crate) const NONE: Counts = Counts {
        operations: 0,
        faults: 0,
    };
}

/// Makes an operation on a store, and tells what it counts then.
pub(crate) fn made_on<F: Folder>(
    store: &mut FolderStore<F, TickClock>,
    counts: &mut Counts,
    key: &Key,
    call: &Call<'_>,
) -> Result<Reply, StoreFault> {
    let reply = reply_on(store, key, call);
    counts.faults = store.faults();
    counts.operations = CountingStore::operations(&*store);
    reply
}

/// Makes an operation on a store over a folder.
pub(crate) fn reply_on<F: Folder>(
    store: &mut FolderStore<F, TickClock>,
    key: &Key,
    call: &Call<'_>,
) -> Result<Reply, StoreFault> {
    match call {
        Call::Get => ObjectStore::<Polite>::get(store, key).map(Reply::Got),
        Call::New(bytes) => {
            ObjectStore::<Polite>::put_new(store, key, bytes, Why::Create).map(Reply::New)
        }
        Call::Over(bytes, old) => {
            let old = version_for(key, old);
            ObjectStore::<Polite>::put_over(store, key, bytes, old, Why::Commit).map(Reply::Over)
        }
        Call::Remove => ObjectStore::<Polite>::remove(store, key, Why::Drop).map(Reply::Gone),
        Call::RemoveAt(old) => {
            let old = version_for(key, old);
            ObjectStore::<Polite>::remove_at(store, key, old, Why::Drop).map(Reply::GoneAt)
        }
        Call::List(part) => ObjectStore::<Polite>::list(store, *part).map(Reply::Listed),
    }
}

/// Whether an operation failed.
pub(crate) fn fails<S: Answering>(store: &mut S, key: &Key, call: &Call<'_>) -> bool {
    let reply = store.reply(key, call);
    let failed = matches!(&reply, Err(StoreFault::Failed));
    drop(reply);
    failed
}

/// Whether an operation is answered.
pub(crate) fn answers<S: Answering>(store: &mut S, key: &Key, call: &Call<'_>) -> bool {
    let reply = store.reply(key, call);
    let answers = reply.is_ok();
    drop(reply);
    answers
}

/// Adds the keys and the sizes of the entries of a listing, and a line behind them.
fn add_listed(lines: &mut String, listed: &Listed) -> Result<(), AllocError> {
    for entry in listed.entries.as_slice() {
        write!(lines, "{} {}\n", entry.key, entry.size)?;
    }
    lines.push_str("--\n")
}

fn add_reply(lines: &mut String, reply: &Result<Reply, StoreFault>) -> Result<(), AllocError> {
    match reply {
        Ok(Reply::Listed(listed)) => add_listed(lines, listed),
        reply => write!(lines, "{reply:?}\n"),
    }
}

/// Makes an operation, and adds what it answers.
fn add_call<S: Answering>(
    lines: &mut String,
    store: &mut S,
    key: &Key,
    call: &Call<'_>,
) -> Result<(), AllocError> {
    let reply = store.reply(key, call);
    let added = add_reply(lines, &reply);
    drop(reply);
    added
}

/// Makes operations on a key, and adds what they answer.
pub(crate) fn add_calls<S: Answering>(
    lines: &mut String,
    store: &mut S,
    key: &Key,
    calls: &[Call<'_>],
) -> Result<(), AllocError> {
    for call in calls {
        add_call(lines, store, key, call)?;
    }
    Ok(())
}

/// What the operations on a key answer, a line each; of a listing a line for each entry.
pub(crate) fn told<S: Answering>(
    alloc: Global,
    store: &mut S,
    key: &Key,
    calls: &[Call<'_>],
) -> Option<String> {
    let mut lines = String::new(alloc);
    match add_calls(&mut lines, store, key, calls) {
        Ok(()) => Some(lines),
        Err(_) => None,
    }
}
