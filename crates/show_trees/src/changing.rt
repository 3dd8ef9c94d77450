//! Changes of a snapshot. `/a=7` adds a group whose id is of this number, and `/x=8:array` an array of 4 numbers; `~/a` gives
//! the metadata of a group, and `~/x:array` that of an array of 6; `-/a` drops; `+/x@1` sets a chunk of one byte, and `!/x@1`
//! unsets it. ` ? ` stands before a path that is looked at.

use crate::loads::node_told;
use ice_base::Bytes;
use ice_ids::{Id8, Id12};
use manifest_file::Place;
use repo_objects::Loaded;
use show_files::{
    NoAnswer, fault_told, index_of, or_no_memory, or_words, parted, path_of, push_lists,
    small_number_of,
};
use snapshot_file::INITIAL_FILE;
use std::alloc::{AllocError, Global};
use zarr_changes::{ChangeSet, Overlay};
use zarr_meta::{IntKind, Meta, SharedMeta};
use zarr_path::{Index, Path};
use zarr_tree::EditFault;

/// The text of a group that has an attribute.
const NOTED: &[u8] = br#"{"zarr_format":3,"node_type":"group","attributes":{"x":1}}"#;

/// The id of this number.
fn id_of(number: u32) -> Id8 {
    let [a, b, c, d] = number.to_be_bytes();
    Id8([0, 0, 0, 0, a, b, c, d])
}

/// The metadata of an array of so many numbers, in chunks of this length.
fn array_of(alloc: Global, len: u64, chunk: u64) -> Result<Meta, NoAnswer> {
    or_words(Meta::plain_array(alloc, IntKind::Uint8, &[len], &[chunk], 0))
}

/// The metadata of a group with an attribute.
fn noted(alloc: Global) -> Result<Meta, NoAnswer> {
    or_no_memory(Meta::read(alloc, NOTED))
}

/// The metadata of a group, with an attribute or without, or of an array of so many numbers.
fn meta_of(alloc: Global, kind: &str, len: u64) -> Result<Meta, NoAnswer> {
    match kind {
        "" => or_no_memory(Meta::plain_group(alloc)),
        "noted" => noted(alloc),
        "array" => array_of(alloc, len, 2),
        "line" => array_of(alloc, len, 1),
        _ => Err(NoAnswer::Words),
    }
}

/// The path of an array, and the index of a chunk, of a word like `/x@1`.
fn place_of(alloc: Global, word: &str) -> Result<(Path, Index), NoAnswer> {
    let (path, index) = parted(word, "@");
    let index = index_of(alloc, index)?;
    Ok((path_of(alloc, path)?, index))
}

/// What `meta_of` gives, to be shared.
fn shared_of(alloc: Global, kind: &str, len: u64) -> Result<SharedMeta, NoAnswer> {
    Ok(SharedMeta::new(alloc, meta_of(alloc, kind, len)?)?)
}

/// What becomes of a change.
type Edited = Result<Result<(), EditFault>, NoAnswer>;

/// Adds the node of words like `/x` and `8:array`.
fn add(alloc: Global, base: &Loaded, set: &mut ChangeSet, path: &str, node: &str) -> Edited {
    let (number, kind) = parted(node, ":");
    let id = id_of(small_number_of(number)?);
    let path = path_of(alloc, path)?;
    let meta = shared_of(alloc, kind, 4)?;
    let added = set.add(alloc, base, &path, id, meta);
    drop(path);
    Ok(added)
}

/// What the call says of a path that only asks whether a node may be added.
fn may_add(alloc: Global, base: &Loaded, set: &ChangeSet, path: &str) -> Edited {
    let path = path_of(alloc, path)?;
    Ok(set.may_add(base, &path))
}

/// Gives the node of a word like `/x:array` other metadata.
fn set_meta(alloc: Global, base: &Loaded, set: &mut ChangeSet, word: &str) -> Edited {
    let (path, kind) = parted(word, ":");
    let path = path_of(alloc, path)?;
    let meta = shared_of(alloc, kind, 6)?;
    let given = set.set_meta(alloc, base, &path, meta);
    drop(path);
    Ok(given)
}

/// Drops the node at a path.
fn drop_node(alloc: Global, base: &Loaded, set: &mut ChangeSet, path: &str) -> Edited {
    let path = path_of(alloc, path)?;
    Ok(set.drop_node(alloc, base, &path))
}

/// Sets the chunk of a word to one byte.
fn set_chunk(alloc: Global, base: &Loaded, set: &mut ChangeSet, word: &str) -> Edited {
    let place = Place::Inline(Bytes::of(alloc, &[7])?);
    let (path, index) = place_of(alloc, word)?;
    Ok(set.set_chunk(alloc, base, &path, &index, place))
}

/// Unsets the chunk of a word.
fn unset_chunk(alloc: Global, base: &Loaded, set: &mut ChangeSet, word: &str) -> Edited {
    let (path, index) = place_of(alloc, word)?;
    Ok(set.unset_chunk(alloc, base, &path, &index))
}

/// Sets the chunk of a word like `+/x@1`, or unsets that of one like `!/x@1`.
fn change_chunk(alloc: Global, base: &Loaded, set: &mut ChangeSet, word: &str) -> Edited {
    if let Some(rest) = word.strip_prefix('+') {
        return set_chunk(alloc, base, set, rest);
    }
    let rest = word.strip_prefix('!').ok_or(NoAnswer::Words)?;
    unset_chunk(alloc, base, set, rest)
}

/// Makes the change of a word that adds no node.
fn change(alloc: Global, base: &Loaded, set: &mut ChangeSet, word: &str) -> Edited {
    if let Some(rest) = word.strip_prefix('~') {
        return set_meta(alloc, base, set, rest);
    }
    if let Some(rest) = word.strip_prefix('-') {
        return drop_node(alloc, base, set, rest);
    }
    change_chunk(alloc, base, set, word)
}

/// What is told of an addition that was refused, with what the call said that only asks.
fn refused_add(
    alloc: Global,
    word: &str,
    fault: EditFault,
    may: Result<(), EditFault>,
) -> Result<String, NoAnswer> {
    let fault = fault_told(alloc, fault)?;
    let may = fault_told(alloc, may)?;
    Ok(format!(in alloc; "{word} {fault}, before that {may}, ")?)
}

/// Adds the node of a word, and tells a refusal, with that of the call that only asks.
fn add_told(
    alloc: Global,
    base: &Loaded,
    set: &mut ChangeSet,
    word: &str,
) -> Result<String, NoAnswer> {
    let (path, node) = parted(word, "=");
    let may = may_add(alloc, base, set, path)?;
    match add(alloc, base, set, path, node)? {
        Ok(()) => Ok(String::new(alloc)),
        Err(fault) => refused_add(alloc, word, fault, may),
    }
}

/// What is told of a change that was refused.
fn refused_change(alloc: Global, word: &str, fault: EditFault) -> Result<String, NoAnswer> {
    let fault = fault_told(alloc, fault)?;
    Ok(format!(in alloc; "{word} {fault}, ")?)
}

/// Makes the change of a word that adds no node, and tells a refusal.
fn change_told(
    alloc: Global,
    base: &Loaded,
    set: &mut ChangeSet,
    word: &str,
) -> Result<String, NoAnswer> {
    match change(alloc, base, set, word)? {
        Ok(()) => Ok(String::new(alloc)),
        Err(fault) => refused_change(alloc, word, fault),
    }
}

/// Makes the change of a word, and tells a refusal.
fn word_told(
    alloc: Global,
    base: &Loaded,
    set: &mut ChangeSet,
    word: &str,
) -> Result<String, NoAnswer> {
    if word.starts_with('/') {
        add_told(alloc, base, set, word)
    } else {
        change_told(alloc, base, set, word)
    }
}

/// Makes the changes of words, and tells each refusal.
fn refused(
    alloc: Global,
    base: &Loaded,
    set: &mut ChangeSet,
    words: &str,
) -> Result<String, NoAnswer> {
    let mut told = String::new(alloc);
    for word in words.split(' ') {
        told.push_str(word_told(alloc, base, set, word)?.as_str())?;
    }
    Ok(told)
}

/// The changes of words, none of which may be refused.
pub fn changes_of(alloc: Global, base: &Loaded, words: &str) -> Result<ChangeSet, NoAnswer> {
    let mut set = ChangeSet::new(alloc);
    let told = refused(alloc, base, &mut set, words)?;
    if told.is_empty() {
        Ok(set)
    } else {
        Err(NoAnswer::Words)
    }
}

/// Appends the net changes.
fn push_net(
    alloc: Global,
    told: &mut String,
    base: &Loaded,
    set: &ChangeSet,
) -> Result<(), AllocError> {
    let net = set.net(alloc, base)?;
    let pushed = push_lists(told, &net);
    drop(net);
    pushed
}

/// Appends the nodes that there are now, in a copy of the changes.
fn push_rows(
    alloc: Global,
    told: &mut String,
    base: &Loaded,
    set: &ChangeSet,
) -> Result<(), AllocError> {
    let copy = set.copy(alloc)?;
    let pushed = push_rows_of(alloc, told, copy.over(base));
    drop(copy);
    pushed
}

/// Appends the net changes, and the nodes that there are now.
fn push_all(
    alloc: Global,
    told: &mut String,
    base: &Loaded,
    set: &ChangeSet,
) -> Result<(), AllocError> {
    if set.is_empty(base) {
        return told.push_str("no changes");
    }
    told.push_str("changes")?;
    push_net(alloc, told, base, set)?;
    push_rows(alloc, told, base, set)
}

/// Appends the node at a path.
fn push_node(
    alloc: Global,
    told: &mut String,
    base: &Loaded,
    set: &ChangeSet,
    path: &str,
) -> Result<(), AllocError> {
    match set.lookup(base, path) {
        Some(found) => told.push_str(node_told(alloc, found)?.as_str()),
        None => told.push_str("no node"),
    }
}

/// Appends the paths beneath one.
fn push_beneath(
    alloc: Global,
    told: &mut String,
    base: &Loaded,
    set: &ChangeSet,
    path: &Path,
) -> Result<(), AllocError> {
    for (inner, is_array) in set.beneath(alloc, base, path)? {
        let kind = if is_array { "array" } else { "group" };
        write!(told, "\n  {inner} {kind}")?;
    }
    Ok(())
}

/// Appends the node at a path, and the paths beneath it.
fn push_found(
    alloc: Global,
    told: &mut String,
    base: &Loaded,
    set: &ChangeSet,
    text: &str,
) -> Result<(), NoAnswer> {
    let path = path_of(alloc, text)?;
    push_node(alloc, told, base, set, text)?;
    Ok(push_beneath(alloc, told, base, set, &path)?)
}

/// Makes the changes of words; what is told are the refusals, and what is found at a path, or all.
fn changes_told(
    alloc: Global,
    base: &Loaded,
    set: &mut ChangeSet,
    text: &str,
) -> Result<String, NoAnswer> {
    let (words, path) = parted(text, " ? ");
    let mut told = refused(alloc, base, set, words)?;
    if path.is_empty() {
        push_all(alloc, &mut told, base, set)?;
    } else {
        push_found(alloc, &mut told, base, set, path)?;
    }
    Ok(told)
}

/// The initial snapshot.
pub fn initial(alloc: Global) -> Result<Loaded, NoAnswer> {
    match Loaded::read(alloc, Id12::INITIAL, Bytes::of(alloc, &INITIAL_FILE)?) {
        Ok(base) => Ok(base),
        Err(_) => Err(NoAnswer::NoMemory),
    }
}

/// Appends the nodes of a walk.
fn push_rows_of(
    alloc: Global,
    told: &mut String,
    rows: Overlay<'_, Loaded>,
) -> Result<(), AllocError> {
    let mut rows = rows;
    while let Some((path, found)) = rows.next() {
        let node = node_told(alloc, found)?;
        write!(told, "\n  {path} {node}")?;
    }
    Ok(())
}

/// Changes of the initial snapshot, which has no nodes: the refusals, the net changes and the nodes; or what is found at a path.
pub fn tell_changes(alloc: Global, text: &str) -> Result<String, NoAnswer> {
    let base = initial(alloc)?;
    let mut set = ChangeSet::new(alloc);
    let told = changes_told(alloc, &base, &mut set, text);
    drop(set);
    drop(base);
    told
}
