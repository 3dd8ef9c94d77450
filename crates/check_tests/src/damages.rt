//! Each object of a repository is damaged in turn, and exactly its key is told.

use crate::playing::{Anything, Damaged, made};
use crate::telling::{is_sound, tells_alone};
use check_reports::Checked;
use dir_store::DirStore;
use ice_base::{Bytes, RefName, TickClock};
use mem_store::MemStore;
use std::alloc::Global;
use std::fs;
use std::test::Fail;
use store_api::{Got, Key, ObjectStore, Part, Why};

/// What a check finds in the repository.
const WHOLE: Checked = Checked {
    snapshots: 3,
    chunks: 2,
};

/// What becomes of an object.
#[derive(Clone, Copy)]
enum Damage {
    /// It is gone.
    Gone,
    /// Its last byte is gone.
    Short,
    /// Another object of its kind stands in its place.
    Swapped,
    /// A reference stands in its place.
    OtherKind,
}

/// All of them.
const DAMAGES: [Damage; 4] = [
    Damage::Gone,
    Damage::Short,
    Damage::Swapped,
    Damage::OtherKind,
];

/// The bytes at a key.
fn bytes_at<S: Damaged>(store: &mut S, key: &Key) -> Option<Bytes> {
    match ObjectStore::<Anything>::get(store, key) {
        Ok(Got::Found { bytes, .. }) => Some(bytes),
        _ => None,
    }
}

/// Lets these bytes stand at a key in the place of what is there, or nothing.
fn lay<S: Damaged>(store: &mut S, key: &Key, bytes: Option<&[u8]>) {
    let _ = ObjectStore::<Anything>::remove(store, key, Why::Collect);
    if let Some(bytes) = bytes {
        let _ = ObjectStore::<Anything>::put_new(store, key, bytes, Why::Set);
    }
}

/// An object's own bytes, another one's of its kind, and those of a reference.
#[derive(Clone, Copy)]
struct Texts<'a> {
    own: &'a [u8],
    other: &'a [u8],
    reference: &'a [u8],
}

/// What stands at the key of a damaged object.
fn damaged<'a>(texts: Texts<'a>, damage: Damage) -> Option<&'a [u8]> {
    match damage {
        Damage::Gone => None,
        Damage::Short => texts.own.get(..texts.own.len().saturating_sub(1)),
        Damage::Swapped => Some(texts.other),
        Damage::OtherKind => Some(texts.reference),
    }
}

/// Whether a check can find these bytes in the place of an object's own: those of a chunk it doesn't know.
fn is_found(key: &Key, own: &[u8], bytes: &[u8]) -> bool {
    match key {
        Key::Chunk(_) => bytes.len() < own.len(),
        _ => true,
    }
}

/// Whether a check tells what it should of an object in whose place this stands.
fn tells<S: Damaged>(
    alloc: Global,
    store: &mut S,
    key: &Key,
    own: &[u8],
    bytes: Option<&[u8]>,
) -> bool {
    match bytes {
        None => tells_alone(alloc, store, key, true),
        Some(bytes) => {
            if is_found(key, own, bytes) {
                tells_alone(alloc, store, key, false)
            } else {
                is_sound(alloc, store, WHOLE)
            }
        }
    }
}

/// Damages an object in each way, checks, and mends it.
fn damages_told<S: Damaged>(alloc: Global, store: &mut S, key: &Key, texts: Texts<'_>) -> bool {
    let mut told = true;
    for damage in DAMAGES {
        let bytes = damaged(texts, damage);
        lay(store, key, bytes);
        told = tells(alloc, store, key, texts.own, bytes) && told;
    }
    lay(store, key, Some(texts.own));
    told
}

/// Whether the damages of the object at a key are told, where another one of its kind is at the other key.
fn is_told<S: Damaged>(
    alloc: Global,
    store: &mut S,
    key: &Key,
    other: &Key,
    reference: &[u8],
) -> bool {
    let (Some(own), Some(other)) = (bytes_at(store, key), bytes_at(store, other)) else {
        return false;
    };
    let texts = Texts {
        own: own.as_slice(),
        other: other.as_slice(),
        reference,
    };
    damages_told(alloc, store, key, texts)
}

/// How many objects of a part there are where the damages of each are told.
fn told_of<S: Damaged>(
    alloc: Global,
    store: &mut S,
    part: Part,
    reference: &[u8],
) -> Option<usize> {
    let Ok(listed) = ObjectStore::<Anything>::list(store, part) else {
        return None;
    };
    let entries = listed.entries.as_slice();
    let mut other = entries.last()?;
    for entry in entries {
        if !is_told(alloc, store, &entry.key, &other.key, reference) {
            return None;
        }
        other = entry;
    }
    Some(entries.len())
}

/// How many objects of each part are told: snapshots, logs, manifests and objects with chunks.
fn all_told<S: Damaged>(alloc: Global, store: &mut S) -> Option<[usize; 4]> {
    let main = Key::Branch(RefName::main(alloc).ok()?);
    let reference = bytes_at(store, &main)?;
    let reference = reference.as_slice();
    Some([
        told_of(alloc, store, Part::Snapshots, reference)?,
        told_of(alloc, store, Part::Txns, reference)?,
        told_of(alloc, store, Part::Manifests, reference)?,
        told_of(alloc, store, Part::Chunks, reference)?,
    ])
}

/// Whether all damages of all objects are told, and the repository is sound before and behind them.
fn are_told<S: Damaged>(alloc: Global, store: &mut S) -> bool {
    let made = made(alloc, store);
    let sound = is_sound(alloc, store, WHOLE);
    let told = all_told(alloc, store) == Some([3, 2, 3, 2]);
    let still = is_sound(alloc, store, WHOLE);
    made && sound && told && still
}

/// Fails where this doesn't hold.
fn holds(is: bool, what: &str) -> Result<(), Fail> {
    if is { Ok(()) } else { Err(Fail::new(what)) }
}

#[test]
fn nothing_is_sound(rt: HostRuntime) -> Result<(), Fail> {
    let mut store = MemStore::new(rt.alloc(), TickClock::new());
    let none = Checked {
        snapshots: 0,
        chunks: 0,
    };
    let sound = is_sound(rt.alloc(), &mut store, none);
    drop(store);
    holds(sound, "an empty store")
}

#[test]
fn damages_in_memory(rt: HostRuntime) -> Result<(), Fail> {
    let mut store = MemStore::new(rt.alloc(), TickClock::new());
    let told = are_told(rt.alloc(), &mut store);
    drop(store);
    holds(told, "each object, and no other")
}

/// Whether they are told in the directory at this path.
fn told_in(rt: HostRuntime, path: &str) -> bool {
    let Ok(mut store) = DirStore::at(rt, path, TickClock::new()) else {
        return false;
    };
    let told = are_told(rt.alloc(), &mut store);
    drop(store);
    told
}

#[test]
fn damages_in_a_directory(rt: HostRuntime) -> Result<(), Fail> {
    let _ = fs::remove_dir_all(&rt, "damaged");
    let made = fs::create_dir_all(&rt, "damaged").is_ok();
    let told = told_in(rt, "damaged");
    let removed = fs::remove_dir_all(&rt, "damaged").is_ok();
    holds(made && told && removed, "each object, and no other")
}
