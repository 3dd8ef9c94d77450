//! Files that are read under the id of the initial snapshot, as the objects that they stand for.

use crate::metas::meta_fault_told;
use ice_base::Bytes;
use ice_ids::{Id8, Id12};
use repo_objects::{Bad, Loaded, Unread, log_hold, ref_read};
use show_files::{NoAnswer, push_props, tell_log};
use std::alloc::{AllocError, Global};
use zarr_meta::{MetaFault, MetaView};
use zarr_tree::{Found, TreeLike};

/// What is told of a node that was found.
pub fn node_told(alloc: Global, found: Found<'_>) -> Result<String, AllocError> {
    match &found.meta.view {
        MetaView::Group => format!(in alloc; "{} group", found.id),
        MetaView::Array(array) => {
            let shape = array.shape.as_slice();
            format!(in alloc; "{} array {shape:?}", found.id)
        }
    }
}

/// Why a node's text isn't its metadata.
fn bad_node_told(alloc: Global, at: usize, fault: &MetaFault) -> Result<String, AllocError> {
    let fault = meta_fault_told(alloc, fault)?;
    format!(in alloc; "node {at} {fault}")
}

/// Why bytes aren't what their key asks for.
fn bad_told(alloc: Global, bad: &Bad) -> Result<String, AllocError> {
    match bad {
        Bad::WrongId(id) => format!(in alloc; "another id, {id}"),
        Bad::Node { at, fault } => bad_node_told(alloc, *at, fault),
        bad => format!(in alloc; "{bad:?}"),
    }
}

/// Why an object isn't read.
fn unread_text(alloc: Global, unread: &Unread) -> Result<String, NoAnswer> {
    match unread {
        Unread::Bad(bad) => Ok(bad_told(alloc, bad)?),
        Unread::NoMemory => Err(NoAnswer::NoMemory),
    }
}

/// Why an object isn't read; the cause is let go.
fn unread_told(alloc: Global, unread: Unread) -> Result<String, NoAnswer> {
    let told = unread_text(alloc, &unread);
    drop(unread);
    told
}

/// Whether the node that is found at a path has this id.
fn has(loaded: &Loaded, path: &str, id: Id8) -> bool {
    match loaded.find(path) {
        Some(there) => there.id == id,
        None => false,
    }
}

/// Appends a node of a snapshot, and whether it is found at its path.
fn push_row(
    alloc: Global,
    told: &mut String,
    loaded: &Loaded,
    path: &str,
    found: Found<'_>,
) -> Result<(), AllocError> {
    let node = node_told(alloc, found)?;
    write!(told, "{path} {node}")?;
    if has(loaded, path, found.id) {
        return Ok(());
    }
    told.push_str(" not found")
}

/// The nodes of a snapshot, and whether each is found at its path, and its properties.
fn loaded_text(alloc: Global, loaded: &Loaded) -> Result<String, AllocError> {
    let mut told = format!(in alloc; "{} nodes", loaded.len())?;
    for at in 0..loaded.len() {
        let (path, found) = loaded.row(at);
        write!(told, "\n  {at} ")?;
        push_row(alloc, &mut told, loaded, path, found)?;
    }
    let props = loaded.file().props().copy(alloc)?;
    push_props(&mut told, &props)?;
    drop(props);
    Ok(told)
}

/// The nodes and the properties of a snapshot; it is let go.
fn loaded_told(alloc: Global, loaded: Loaded) -> Result<String, NoAnswer> {
    let told = loaded_text(alloc, &loaded);
    drop(loaded);
    Ok(told?)
}

/// The nodes and the properties of the snapshot for which a file stands, or why it isn't read.
pub fn tell_loaded(alloc: Global, file: &[u8]) -> Result<String, NoAnswer> {
    match Loaded::read(alloc, Id12::INITIAL, Bytes::of(alloc, file)?) {
        Ok(loaded) => loaded_told(alloc, loaded),
        Err(unread) => unread_told(alloc, unread),
    }
}

/// The transaction log for which a file stands, if it is held; what it says is told by a reading, which copies its lists out.
pub fn tell_known_log(alloc: Global, file: &[u8]) -> Result<String, NoAnswer> {
    match log_hold(Id12::INITIAL, Bytes::of(alloc, file)?) {
        Ok(_) => tell_log(alloc, file),
        Err(bad) => Ok(bad_told(alloc, &bad)?),
    }
}

/// The snapshot to which a file refers, or why it isn't read.
pub fn tell_known_ref(alloc: Global, file: &[u8]) -> Result<String, NoAnswer> {
    match ref_read(alloc, file) {
        Ok(id) => Ok(id.to_string(alloc)?),
        Err(unread) => unread_told(alloc, unread),
    }
}
