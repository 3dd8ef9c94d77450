//! Ids, names, paths, keys and references.

use crate::answer_parts::{digits, fault_told};
use crate::words::{NoAnswer, first_word, indices_of, said, small_number_of, two_words};
use ice_base::RefName;
use ice_ids::{CountIds, Draw, Id8, Id12, Ids, StreamIds};
use std::alloc::{AllocError, Global};
use std::cmp::Ordering;
use std::fmt::Display;
use zarr_path::{Index, KeyFault, Path, ZarrKey, chunk_key, meta_key, read_key};

/// The bytes of an object's id, or why a text is none.
pub fn tell_id(alloc: Global, text: &[u8]) -> Result<String, NoAnswer> {
    match Id12::read(text) {
        Ok(id) => Ok(digits(alloc, &id.0)?),
        Err(fault) => fault_told(alloc, fault),
    }
}

/// The bytes of a node's id, or why a text is none.
pub fn tell_node_id(alloc: Global, text: &[u8]) -> Result<String, NoAnswer> {
    match Id8::read(text) {
        Ok(id) => Ok(digits(alloc, &id.0)?),
        Err(fault) => fault_told(alloc, fault),
    }
}

/// The node's id of so many hexadecimal digits.
fn node_of(digits: &str) -> Option<Id8> {
    let mut bytes = [0; 8];
    match hex::decode_to_slice(digits, &mut bytes) {
        Ok(()) => Some(Id8(bytes)),
        Err(_) => None,
    }
}

/// The object's id of so many hexadecimal digits.
fn object_of(digits: &str) -> Result<Id12, NoAnswer> {
    let mut bytes = [0; 12];
    match hex::decode_to_slice(digits, &mut bytes) {
        Ok(()) => Ok(Id12(bytes)),
        Err(_) => Err(NoAnswer::Words),
    }
}

/// An object's id, and how the initial snapshot's compares with it.
fn compared(alloc: Global, id: Id12) -> Result<String, AllocError> {
    let order = Id12::INITIAL.cmp(&id);
    format!(in alloc; "{id}, the initial one is {order:?}")
}

/// The text of an id of 12 or 8 bytes, and how the initial snapshot's compares with one of 12.
pub fn tell_id_of(alloc: Global, text: &str) -> Result<String, NoAnswer> {
    if let Some(node) = node_of(text) {
        return Ok(node.to_string(alloc)?);
    }
    Ok(compared(alloc, object_of(text)?)?)
}

/// An id that was drawn, if one was left.
fn id_told<I: Display + Drop>(alloc: Global, id: Option<I>) -> Result<String, AllocError> {
    match id {
        Some(id) => format!(in alloc; " {id}"),
        None => String::from_str(alloc, " none"),
    }
}

/// The next id: a node's for `node`, else an object's.
fn next_told<I: Ids>(alloc: Global, ids: &mut I, word: &str) -> Result<String, AllocError> {
    if word == "node" {
        id_told(alloc, ids.next8())
    } else {
        id_told(alloc, ids.next12())
    }
}

/// The ids that are drawn, one for each word.
fn drawn<I: Ids + Drop>(alloc: Global, ids: I, words: &str) -> Result<String, AllocError> {
    let mut ids = ids;
    let mut told = String::from_str(alloc, "drawn")?;
    for word in words.split(' ') {
        told.push_str(next_told(alloc, &mut ids, word)?.as_str())?;
    }
    Ok(told)
}

/// The first ids of a client.
pub fn tell_draw(alloc: Global, text: &str) -> Result<String, NoAnswer> {
    let (client, words) = first_word(text);
    let ids = Draw::Count.ids(small_number_of(client)?);
    Ok(drawn(alloc, ids, words)?)
}

/// The ids of a client from one of its numbers on.
pub fn tell_draw_at(alloc: Global, text: &str) -> Result<String, NoAnswer> {
    let (client, rest) = first_word(text);
    let (counter, words) = first_word(rest);
    let ids = CountIds::at(small_number_of(client)?, small_number_of(counter)?);
    Ok(drawn(alloc, ids, words)?)
}

/// The seed of so many hexadecimal digits.
fn seed_of(digits: &str) -> Result<[u8; 32], NoAnswer> {
    let mut bytes = [0; 32];
    match hex::decode_to_slice(digits, &mut bytes) {
        Ok(()) => Ok(bytes),
        Err(_) => Err(NoAnswer::Words),
    }
}

/// The ids of a client at random, of this seed of 32 bytes, from one of its numbers on.
pub fn tell_draw_stream(alloc: Global, text: &str) -> Result<String, NoAnswer> {
    let (seed, rest) = first_word(text);
    let (client, rest) = first_word(rest);
    let (counter, words) = first_word(rest);
    let ids = StreamIds {
        seed: seed_of(seed)?,
        client: small_number_of(client)?,
        counter: small_number_of(counter)?,
    };
    Ok(drawn(alloc, ids, words)?)
}

/// The name of a ref, or why a text is none.
pub fn tell_name(alloc: Global, text: &str) -> Result<String, NoAnswer> {
    match RefName::read(alloc, text) {
        Ok(name) => Ok(name.to_string(alloc)?),
        Err(fault) => fault_told(alloc, fault),
    }
}

/// A name that a word has to be; else `Words`.
pub fn name_of(alloc: Global, word: &str) -> Result<RefName, NoAnswer> {
    match RefName::read(alloc, word) {
        Ok(name) => Ok(name),
        Err(_) => Err(NoAnswer::Words),
    }
}

fn order_told(alloc: Global, order: Ordering) -> Result<String, NoAnswer> {
    Ok(format!(in alloc; "{order:?}")?)
}

/// How two names of refs compare; a comma stands between them.
pub fn tell_names(alloc: Global, text: &str) -> Result<String, NoAnswer> {
    let (first, second) = text.split_once(',').ok_or(NoAnswer::Words)?;
    let first = name_of(alloc, first)?.copy(alloc)?;
    let order = first.cmp(&name_of(alloc, second)?);
    order_told(alloc, order)
}

fn path_told(alloc: Global, path: &Path) -> Result<String, AllocError> {
    match path.parent(alloc)? {
        Some(parent) => format!(in alloc; "{path} in {parent}"),
        None => format!(in alloc; "{path} in nothing"),
    }
}

/// A path and its parent, or why a text is no path.
pub fn tell_path(alloc: Global, text: &str) -> Result<String, NoAnswer> {
    match Path::read(alloc, text) {
        Ok(path) => Ok(path_told(alloc, &path)?),
        Err(fault) => fault_told(alloc, fault),
    }
}

/// A path that a word has to be; else `Words`.
pub fn path_of(alloc: Global, word: &str) -> Result<Path, NoAnswer> {
    match Path::read(alloc, word) {
        Ok(path) => Ok(path),
        Err(_) => Err(NoAnswer::Words),
    }
}

fn paths_told(alloc: Global, first: &Path, second: &Path) -> Result<String, AllocError> {
    let order = first.cmp(second);
    let within = said(first.is_within(second));
    let beneath = said(first.is_beneath(second));
    format!(in alloc; "{order:?} within {within} beneath {beneath}")
}

/// How two paths lie to one another.
pub fn tell_paths(alloc: Global, text: &str) -> Result<String, NoAnswer> {
    let (first, second) = two_words(text);
    let first = path_of(alloc, first)?.copy(alloc)?;
    let second = path_of(alloc, second)?;
    Ok(paths_told(alloc, &first, &second)?)
}

fn key_told(alloc: Global, key: &ZarrKey) -> Result<String, AllocError> {
    match key {
        ZarrKey::Meta(path) => format!(in alloc; "meta {path}"),
        ZarrKey::Chunk(path, index) => format!(in alloc; "chunk {path} {:?}", index.parts()),
    }
}

/// Whose key a text is, or that it is none.
pub fn tell_key(alloc: Global, text: &str) -> Result<String, NoAnswer> {
    match read_key(alloc, text) {
        Ok(key) => Ok(key_told(alloc, &key)?),
        Err(KeyFault::NotAKey) => Ok(String::from_str(alloc, "NotAKey")?),
        Err(KeyFault::NoMemory) => Err(NoAnswer::NoMemory),
    }
}

/// An index that a word has to be; else `Words`.
pub fn index_of(alloc: Global, word: &str) -> Result<Index, NoAnswer> {
    Ok(Index::from_parts(indices_of(alloc, word)?))
}

fn keys_told(alloc: Global, path: &Path, index: &Index) -> Result<String, AllocError> {
    let mut told = meta_key(alloc, path)?;
    told.push(' ')?;
    told.push_str(chunk_key(alloc, path, index)?.as_str())?;
    Ok(told)
}

/// The keys of a path's metadata and of its chunk at an index.
pub fn tell_keys(alloc: Global, text: &str) -> Result<String, NoAnswer> {
    let (path, index) = two_words(text);
    let path = path_of(alloc, path)?;
    let index = index_of(alloc, index)?;
    Ok(keys_told(alloc, &path, &index)?)
}

/// How two indices compare.
pub fn tell_indices(alloc: Global, text: &str) -> Result<String, NoAnswer> {
    let (first, second) = two_words(text);
    let first = index_of(alloc, first)?.copy(alloc)?;
    let order = first.cmp(&index_of(alloc, second)?);
    order_told(alloc, order)
}

/// The snapshot to which a file refers, or its first fault.
pub fn tell_ref(alloc: Global, file: &[u8]) -> Result<String, NoAnswer> {
    match ref_file::ref_read(alloc, file) {
        Ok(id) => Ok(id.to_string(alloc)?),
        Err(fault) => fault_told(alloc, fault),
    }
}

/// The file that refers to a snapshot.
fn ref_told(alloc: Global, id: Id12) -> Result<String, AllocError> {
    let file = ref_file::ref_write(id);
    String::from_str(alloc, str::from_utf8(&file).unwrap_or("no text"))
}

/// The file that refers to a snapshot.
pub fn tell_ref_of(alloc: Global, text: &str) -> Result<String, NoAnswer> {
    match Id12::read(text.as_bytes()) {
        Ok(id) => Ok(ref_told(alloc, id)?),
        Err(_) => Err(NoAnswer::Words),
    }
}
