//! The keys of objects in a store.

use ice_base::RefName;
use ice_ids::Id12;
use show_files::{NoAnswer, first_word, name_of, said};
use std::alloc::{AllocError, Global};
use store_api::Key;

/// The id of an object.
pub fn id_of(text: &str) -> Result<Id12, NoAnswer> {
    match Id12::read(text.as_bytes()) {
        Ok(id) => Ok(id),
        Err(_) => Err(NoAnswer::Words),
    }
}

/// The key of this kind with an id.
fn id_key_of(kind: &str, id: Id12) -> Result<Key, NoAnswer> {
    match kind {
        "snapshot" => Ok(Key::Snapshot(id)),
        "manifest" => Ok(Key::Manifest(id)),
        "log" => Ok(Key::Txn(id)),
        "chunk" => Ok(Key::Chunk(id)),
        "lease" => Ok(Key::Lease(id)),
        _ => Err(NoAnswer::Words),
    }
}

/// The key of this kind with a name.
fn name_key_of(kind: &str, name: RefName) -> Key {
    match kind {
        "branch" => Key::Branch(name),
        "tag" => Key::Tag(name),
        _ => Key::Tombstone(name),
    }
}

/// The key that words like `snapshot ID` or `tag NAME` say.
pub fn key_of(alloc: Global, text: &str) -> Result<Key, NoAnswer> {
    let (kind, rest) = first_word(text);
    match kind {
        "branch" | "tag" | "tombstone" => Ok(name_key_of(kind, name_of(alloc, rest)?)),
        _ => id_key_of(kind, id_of(rest)?),
    }
}

/// A copy of the key of words.
fn copied_key(alloc: Global, text: &str) -> Result<Key, NoAnswer> {
    let key = key_of(alloc, text)?;
    let copy = key.copy(alloc);
    drop(key);
    Ok(copy?)
}

/// What an object is called, and the part of the store that it belongs to; its key is let go.
fn key_told(alloc: Global, key: Key) -> Result<String, AllocError> {
    let part = key.part();
    let told = format!(in alloc; "{key} in {part:?}");
    drop(key);
    told
}

/// What an object is called, and the part of the store that it belongs to.
pub fn tell_object(alloc: Global, text: &str) -> Result<String, NoAnswer> {
    Ok(key_told(alloc, copied_key(alloc, text)?)?)
}

/// Whether a key is that of words.
fn is_same(alloc: Global, first: &Key, second: &str) -> Result<bool, NoAnswer> {
    let second = copied_key(alloc, second)?;
    let is_same = first.same(&second);
    drop(second);
    Ok(is_same)
}

/// Whether two keys are the same; a comma stands between them.
pub fn tell_same(alloc: Global, text: &str) -> Result<String, NoAnswer> {
    let (first, second) = text.split_once(", ").ok_or(NoAnswer::Words)?;
    let first = key_of(alloc, first)?;
    let is_same = is_same(alloc, &first, second);
    drop(first);
    Ok(String::from_str(alloc, said(is_same?))?)
}
