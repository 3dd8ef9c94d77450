//! Snapshots.

use crate::answer_parts::{digits, fault_told, push_names};
use crate::files::written_again;
use crate::props::push_props;
use crate::words::NoAnswer;
use ice_ids::Id12;
use snapshot_file::{
    INITIAL_FILE, ManifestInfo, ManifestRef, Names, NodeKind, NodeRow, SnapshotFile,
};
use std::alloc::{AllocError, Global};

/// Appends the manifests of an array.
fn push_manifests(told: &mut String, manifests: &[ManifestRef]) -> Result<(), AllocError> {
    for manifest in manifests {
        let extents = manifest.extents.as_slice();
        write!(told, "\n    manifest {} extents {extents:?}", manifest.id)?;
    }
    Ok(())
}

/// Appends the names of dimensions, if an array has them.
fn push_some_names(told: &mut String, names: &Option<Names>) -> Result<(), AllocError> {
    match names {
        Some(names) => push_names(told, names.as_slice()),
        None => Ok(()),
    }
}

/// Appends what a node is.
fn push_kind(told: &mut String, kind: &NodeKind) -> Result<(), AllocError> {
    match kind {
        NodeKind::Group => told.push_str(" group"),
        NodeKind::Array {
            shape,
            names,
            manifests,
        } => {
            write!(told, " array shape {:?}", shape.as_slice())?;
            push_some_names(told, names)?;
            push_manifests(told, manifests.as_slice())
        }
    }
}

/// Appends the id of a node, its path and its text.
fn push_node(alloc: Global, told: &mut String, node: &NodeRow) -> Result<(), AllocError> {
    let text = digits(alloc, node.user_data.as_slice())?;
    write!(told, "\n  node {} {} text '{text}'", node.id, node.path)
}

/// Appends nodes.
fn push_nodes(alloc: Global, told: &mut String, nodes: &[NodeRow]) -> Result<(), AllocError> {
    for node in nodes {
        push_node(alloc, told, node)?;
        push_kind(told, &node.kind)?;
    }
    Ok(())
}

/// Appends the manifests of a snapshot.
fn push_files(told: &mut String, files: &[ManifestInfo]) -> Result<(), AllocError> {
    for file in files {
        let (size, refs) = (file.size, file.refs);
        write!(told, "\n  file {} size {size} refs {refs}", file.id)?;
    }
    Ok(())
}

/// Appends the snapshot that one followed.
fn push_parent(told: &mut String, parent: Option<Id12>) -> Result<(), AllocError> {
    match parent {
        Some(parent) => write!(told, " parent {parent}"),
        None => told.push_str(" no parent"),
    }
}

/// What a snapshot says.
fn snapshot_text(alloc: Global, snapshot: &SnapshotFile) -> Result<String, AllocError> {
    let mut told = format!(in alloc; "snapshot {}", snapshot.id)?;
    push_parent(&mut told, snapshot.parent)?;
    let (flushed_at, message) = (snapshot.flushed_at, snapshot.message.as_str());
    write!(told, " flushed {flushed_at} message '{message}'")?;
    push_nodes(alloc, &mut told, snapshot.nodes.as_slice())?;
    push_props(&mut told, &snapshot.props)?;
    push_files(&mut told, snapshot.manifest_files.as_slice())?;
    Ok(told)
}

/// What a snapshot says; it is let go.
fn snapshot_told(alloc: Global, snapshot: SnapshotFile) -> Result<String, NoAnswer> {
    let told = snapshot_text(alloc, &snapshot);
    drop(snapshot);
    Ok(told?)
}

/// What the file of a snapshot says, or its first fault.
pub fn tell_snapshot(alloc: Global, file: &[u8]) -> Result<String, NoAnswer> {
    match snapshot_file::read(alloc, file) {
        Ok(snapshot) => snapshot_told(alloc, snapshot),
        Err(fault) => fault_told(alloc, fault),
    }
}

/// The file of a snapshot, read and written again, or its first fault.
pub fn tell_snapshot_again(alloc: Global, file: &[u8]) -> Result<String, NoAnswer> {
    match snapshot_file::read(alloc, file) {
        Ok(snapshot) => {
            let written = snapshot_file::write(alloc, &snapshot);
            drop(snapshot);
            written_again(alloc, file, written)
        }
        Err(fault) => fault_told(alloc, fault),
    }
}

/// The initial snapshot, and its file.
pub fn tell_initial(alloc: Global) -> Result<String, NoAnswer> {
    let mut told = snapshot_told(alloc, snapshot_file::initial(alloc)?)?;
    told.push_str("\n  ")?;
    told.push_str(digits(alloc, &INITIAL_FILE)?.as_str())?;
    Ok(told)
}
