//! Manifests.

use crate::answer_parts::{digits, fault_told};
use crate::files::written_again;
use crate::words::NoAnswer;
use held_manifest::{HeldManifest, hold};
use ice_base::Bytes;
use ice_ids::ObjectIds;
use manifest_file::{ChunkRef, ManifestFile, Place};
use std::alloc::{AllocError, Global};

/// Bytes of a chunk that stand in its manifest.
fn inline_told(alloc: Global, bytes: &[u8]) -> Result<String, AllocError> {
    let bytes = digits(alloc, bytes)?;
    format!(in alloc; "inline {bytes}")
}

/// Where the bytes of a chunk are.
fn place_told(alloc: Global, place: &Place) -> Result<String, AllocError> {
    match place {
        Place::Inline(bytes) => inline_told(alloc, bytes.as_slice()),
        Place::Object { id, offset, length } => {
            format!(in alloc; "object {id} offset {offset} length {length}")
        }
    }
}

/// Appends chunks.
fn push_refs(alloc: Global, told: &mut String, refs: &[ChunkRef]) -> Result<(), AllocError> {
    for chunk in refs {
        let place = place_told(alloc, &chunk.place)?;
        write!(told, "\n    {:?} {place}", chunk.index.parts())?;
    }
    Ok(())
}

/// What a manifest says.
fn manifest_text(alloc: Global, manifest: &ManifestFile) -> Result<String, AllocError> {
    let mut told = format!(in alloc; "manifest {}", manifest.id)?;
    for array in manifest.arrays.as_slice() {
        write!(told, "\n  array {}", array.node)?;
        push_refs(alloc, &mut told, array.refs.as_slice())?;
    }
    Ok(told)
}

/// What a manifest says; it is let go.
fn manifest_told(alloc: Global, manifest: ManifestFile) -> Result<String, NoAnswer> {
    let told = manifest_text(alloc, &manifest);
    drop(manifest);
    Ok(told?)
}

/// What the file of a manifest says, or its first fault.
pub fn tell_manifest(alloc: Global, file: &[u8]) -> Result<String, NoAnswer> {
    match manifest_file::read(alloc, file) {
        Ok(manifest) => manifest_told(alloc, manifest),
        Err(fault) => fault_told(alloc, fault),
    }
}

/// The file of a manifest, read and written again, or its first fault.
pub fn tell_manifest_again(alloc: Global, file: &[u8]) -> Result<String, NoAnswer> {
    manifest_file::laws::ordered_law();
    match manifest_file::read(alloc, file) {
        Ok(manifest) => {
            let written = manifest_file::write(alloc, &manifest);
            drop(manifest);
            written_again(alloc, file, written)
        }
        Err(fault) => fault_told(alloc, fault),
    }
}

/// Appends the objects that a manifest names, entry by entry, and how many they are.
fn push_objects(alloc: Global, told: &mut String, held: &HeldManifest) -> Result<(), AllocError> {
    let mut known = ObjectIds::new(alloc);
    for id in held.objects() {
        let word = if known.insert(id)? { "" } else { " again" };
        write!(told, "\n  object {id}{word}")?;
    }
    write!(told, "\n  in all {}", known.len())
}

/// How many chunks the arrays of a manifest have, and which objects it names.
fn held_text(alloc: Global, held: &HeldManifest) -> Result<String, AllocError> {
    let mut told = format!(in alloc; "manifest {}", held.id())?;
    let arrays = held.arrays();
    for i in 0..arrays.len() {
        let array = arrays.at(i);
        write!(told, "\n  array {} has {}", array.id(), array.len())?;
    }
    push_objects(alloc, &mut told, held)?;
    Ok(told)
}

/// What a manifest that is read in place names; it is let go.
fn held_told(alloc: Global, held: HeldManifest) -> Result<String, NoAnswer> {
    let told = held_text(alloc, &held);
    drop(held);
    Ok(told?)
}

/// What the file of a manifest names, where it is read in place, or its first fault.
pub fn tell_held(alloc: Global, file: &[u8]) -> Result<String, NoAnswer> {
    match hold(Bytes::of(alloc, file)?) {
        Ok(held) => held_told(alloc, held),
        Err((_file, fault)) => fault_told(alloc, fault),
    }
}
