//! Objects of many sizes, through all six operations: in a directory, with a reopening between, and over a folder in memory.

use crate::calls::{Answering, Call, add_calls, told};
use crate::folders::{made, removed};
use crate::stores::{HostStore, MemoryStore};
use dir_store::content_version;
use folder::MemoryFolder;
use ice_base::{Clock, TickClock};
use ice_ids::Id12;
use std::alloc::{AllocError, Global};
use std::test::Fail;
use store_api::{Got, Key, Part, Reply, Version};
use test_ends::none;

/// Nothing, a byte, one less than is read at once, as much, one more, and some pieces.
const SIZES: [usize; 6] = [0, 1, 4095, 4096, 4097, 9000];

/// Many pieces.
const LARGE: usize = 20_000_000;

/// The object's id.
const ID: Id12 = Id12([7; 12]);

/// This many bytes, which begin anew after 251.
fn bytes_of(alloc: Global, size: usize, first: usize) -> Option<Vec<u8>> {
    let mut bytes = Vec::with_capacity(alloc, size).ok()?;
    for place in 0..size {
        bytes.push(((place % 251 + first % 251) % 251) as u8).ok()?;
    }
    Some(bytes)
}

fn is_found(got: &Got, bytes: &[u8]) -> bool {
    match got {
        Got::Found {
            bytes: found,
            version,
            ..
        } => found.as_slice() == bytes && *version == content_version(bytes),
        Got::Absent { .. } => false,
    }
}

/// Whether these bytes stand at the key.
fn has<S: Answering>(store: &mut S, key: &Key, bytes: &[u8]) -> bool {
    let reply = store.reply(key, &Call::Get);
    let has = match &reply {
        Ok(Reply::Got(got)) => is_found(got, bytes),
        _ => false,
    };
    drop(reply);
    has
}

/// The bytes that are put first, and those that are put over them, with the versions of both.
#[derive(Clone, Copy)]
struct Two<'a> {
    first: &'a [u8],
    second: &'a [u8],
    old: Version,
    new: Version,
}

/// What is answered where the first bytes are put once, and the second ones over them, at their version alone. Before those are,
/// the first ones are to stand.
fn begun<S: Answering>(alloc: Global, store: &mut S, key: &Key, two: Two<'_>) -> Option<String> {
    let calls = [
        Call::New(two.first),
        Call::New(two.second),
        Call::Over(two.second, two.second),
    ];
    let mut told = told(alloc, store, key, &calls)?;
    let same = has(store, key, two.first);
    let over = add_calls(&mut told, store, key, &[Call::Over(two.second, two.first)]);
    (same && over.is_ok()).then_some(told)
}

/// What is to be answered then.
fn begun_text(alloc: Global, two: Two<'_>) -> Result<String, AllocError> {
    let (old, new) = (two.old, two.new);
    format!(in alloc;
        "Ok(New(Done {{ version: {old:?}, now: 0 }}))\n\
        Ok(New(Present {{ version: {old:?}, now: 1 }}))\n\
        Ok(Over(Moved {{ found: Some({old:?}), now: 2 }}))\n\
        Ok(Over(Done {{ version: {new:?}, now: 4 }}))\n"
    )
}

/// What is answered where what stands there, the second bytes, is listed, removed at its version alone, put again, and removed.
/// Before that, those are to stand.
fn ended<S: Answering>(alloc: Global, store: &mut S, key: &Key, two: Two<'_>) -> Option<String> {
    let calls = [
        Call::List(Part::Snapshots),
        Call::RemoveAt(two.first),
        Call::RemoveAt(two.second),
        Call::New(two.first),
        Call::Remove,
        Call::Remove,
    ];
    if has(store, key, two.second) {
        told(alloc, store, key, &calls)
    } else {
        None
    }
}

/// What is to be answered then.
fn ended_text(alloc: Global, key: &Key, two: Two<'_>) -> Result<String, AllocError> {
    let (old, new) = (two.old, two.new);
    let size = two.second.len();
    format!(in alloc;
        "{key} {size}\n--\n\
        Ok(GoneAt(Moved {{ found: Some({new:?}), now: 7 }}))\n\
        Ok(GoneAt(Done {{ now: 8 }}))\n\
        Ok(New(Done {{ version: {old:?}, now: 9 }}))\n\
        Ok(Gone(Done {{ now: 10 }}))\n\
        Ok(Gone(Absent {{ now: 11 }}))\n"
    )
}

/// Whether this was told.
fn is(told: Option<String>, want: Result<String, AllocError>) -> bool {
    match (&told, &want) {
        (Some(told), Ok(want)) => told.as_str() == want.as_str(),
        _ => false,
    }
}

/// Whether all goes well until the second bytes stand at the key.
fn begins<S: Answering>(alloc: Global, store: &mut S, key: &Key, two: Two<'_>) -> bool {
    is(begun(alloc, store, key, two), begun_text(alloc, two))
}

/// Whether all goes well from then on.
fn ends<S: Answering>(alloc: Global, store: &mut S, key: &Key, two: Two<'_>) -> bool {
    is(ended(alloc, store, key, two), ended_text(alloc, key, two))
}

/// A clock that goes on where the one of the first operations has ended.
fn late_clock() -> TickClock {
    let mut clock = TickClock::new();
    for _ in 0..5 {
        clock.now();
    }
    clock
}

/// Whether all goes well in the directory at this path until the second bytes stand at the key.
fn begins_in(rt: HostRuntime, path: &str, key: &Key, two: Two<'_>) -> bool {
    let Ok(mut store) = HostStore::at(rt, path, TickClock::new()) else {
        return false;
    };
    let begins = begins(rt.alloc(), &mut store, key, two);
    drop(store);
    begins
}

/// Whether all goes well from then on in the directory at this path, which is opened again.
fn ends_in(rt: HostRuntime, path: &str, key: &Key, two: Two<'_>) -> bool {
    let Ok(mut store) = HostStore::at(rt, path, late_clock()) else {
        return false;
    };
    let ends = ends(rt.alloc(), &mut store, key, two);
    drop(store);
    ends
}

/// Whether all goes well in an empty directory at this path.
fn goes_in(rt: HostRuntime, path: &str, key: &Key, two: Two<'_>) -> bool {
    made(rt, path) && begins_in(rt, path, key, two) && ends_in(rt, path, key, two)
}

/// Whether all goes well over a folder in memory.
fn goes_in_memory(alloc: Global, key: &Key, two: Two<'_>) -> bool {
    let Ok(mut store) = MemoryStore::over(alloc, MemoryFolder::new(alloc)) else {
        return false;
    };
    let goes = begins(alloc, &mut store, key, two) && ends(alloc, &mut store, key, two);
    drop(store);
    goes
}

/// Whether all goes well with objects of this size: in an empty directory, if one is named, or in memory.
fn goes(rt: HostRuntime, path: Option<&str>, two: Two<'_>) -> bool {
    let key = Key::Snapshot(ID);
    let goes = match path {
        Some(path) => goes_in(rt, path, &key, two),
        None => goes_in_memory(rt.alloc(), &key, two),
    };
    drop(key);
    goes
}

/// Whether all goes well with objects of this size.
fn goes_at(rt: HostRuntime, path: Option<&str>, size: usize) -> Option<bool> {
    let first = bytes_of(rt.alloc(), size, 0)?;
    let second = bytes_of(rt.alloc(), size.saturating_add(1), 1)?;
    let two = Two {
        first: first.as_slice(),
        second: second.as_slice(),
        old: content_version(first.as_slice()),
        new: content_version(second.as_slice()),
    };
    Some(goes(rt, path, two))
}

/// The first size of some with which not all goes well, if there is one.
fn first_wrong(rt: HostRuntime, path: Option<&str>, sizes: &[usize]) -> Option<u64> {
    for size in sizes {
        if goes_at(rt, path, *size) != Some(true) {
            return Some(*size as u64);
        }
    }
    None
}

#[test]
fn objects_of_each_size_in_a_directory(rt: HostRuntime) -> Result<(), Fail> {
    none(first_wrong(rt, Some("sizes"), &SIZES))?;
    removed(rt, "sizes")
}

#[test]
fn a_large_object_in_a_directory(rt: HostRuntime) -> Result<(), Fail> {
    none(first_wrong(rt, Some("large"), &[LARGE]))?;
    removed(rt, "large")
}

#[test]
fn objects_of_each_size_in_memory(rt: HostRuntime) -> Result<(), Fail> {
    none(first_wrong(rt, None, &SIZES))
}

#[test]
fn a_large_object_in_memory(rt: HostRuntime) -> Result<(), Fail> {
    none(first_wrong(rt, None, &[LARGE]))
}
