//! What gets tell.

ghost use Rattle.std.specs.Prelude.{◌≡◌, IfOk};
ghost use Rattle.intact.specs.Rows.{first_unwell};
ghost use Rattle.intact.specs.Told.{unless_unwell, found_ref, found_snapshot, found_log, found_manifest, found_part};

use crate::parts::short_chunk;
use crate::rows::first_unwell;
use crate::visits::{FileVisit, PartVisit};
use check_reports::FaultKind;
use held_manifest::HeldManifest;
use ice_ids::Id12;
use object_store::Got;
use repo_objects::{Loaded, Unread, chunk_read, log_hold, manifest_hold, ref_read};
use std::alloc::{AllocError, Global};

/// The snapshot that a ref names, if the ref is still there, or what is wrong with it.
pub fn ref_seen(alloc: Global, got: &Got) -> Result<Result<Option<Id12>, FaultKind>, AllocError>
    ensures { IfOk result (λ seen. seen ≡ found_ref got.now) }
{
    let Got::Found {
        bytes,
        version: _,
        now: _,
    } = got
    else {
        return Ok(Ok(None));
    };
    match ref_read(alloc, bytes.as_slice()) {
        Ok(id) => Ok(Ok(Some(id))),
        Err(Unread::NoMemory) => Err(AllocError),
        Err(Unread::Bad(bad)) => Ok(Err(FaultKind::Bad(bad))),
    }
}

/// The snapshot, if its rows are a tree's, or what is wrong with it.
pub fn snapshot_seen(
    alloc: Global,
    id: Id12,
    got: Got,
) -> Result<Result<Loaded, FaultKind>, AllocError>
    ensures { IfOk result (λ seen. seen ≡ found_snapshot id got) }
{
    let Got::Found {
        bytes,
        version: _,
        now: _,
    } = got
    else {
        return Ok(Err(FaultKind::Absent));
    };
    match Loaded::read(alloc, id, bytes) {
        Ok(loaded) => unless_unwell(alloc, loaded),
        Err(Unread::NoMemory) => Err(AllocError),
        Err(Unread::Bad(bad)) => Ok(Err(FaultKind::Bad(bad))),
    }
}

/// A snapshot, unless its rows aren't a tree's.
fn unless_unwell(alloc: Global, loaded: Loaded) -> Result<Result<Loaded, FaultKind>, AllocError>
    ensures { IfOk result (λ seen. seen ≡ unless_unwell (first_unwell loaded.nodes) loaded) }
{
    match first_unwell(alloc, &loaded.file().nodes())? {
        None => Ok(Ok(loaded)),
        Some(at) => Ok(Err(FaultKind::NotWell { at })),
    }
}

/// What is wrong with a log, if anything is. It takes no memory.
pub fn log_seen(id: Id12, got: Got) -> Result<(), FaultKind>
    ensures { result ≡ found_log id got }
{
    let Got::Found {
        bytes,
        version: _,
        now: _,
    } = got
    else {
        return Err(FaultKind::Absent);
    };
    match log_hold(id, bytes) {
        Ok(_) => Ok(()),
        Err(bad) => Err(FaultKind::Bad(bad)),
    }
}

/// The manifest, if the node's chunks that are in it are as long as a chunk, or what is wrong with it. It takes no memory.
pub fn manifest_seen(visit: &FileVisit, got: Got) -> Result<HeldManifest, FaultKind>
    ensures { result ≡ found_manifest visit.now got }
{
    let Got::Found {
        bytes,
        version: _,
        now: _,
    } = got
    else {
        return Err(FaultKind::Absent);
    };
    let held = match manifest_hold(visit.manifest, bytes) {
        Ok(held) => held,
        Err(bad) => return Err(FaultKind::Bad(bad)),
    };
    match short_chunk(&held, visit) {
        None => Ok(held),
        Some(bad) => Err(FaultKind::Bad(bad)),
    }
}

/// What is wrong with a part of an object, if anything is. It takes no memory.
pub fn part_seen(visit: &PartVisit, got: Got) -> Result<(), FaultKind>
    ensures { result ≡ found_part visit.now got }
{
    let Got::Found {
        bytes,
        version: _,
        now: _,
    } = got
    else {
        return Err(FaultKind::Absent);
    };
    match chunk_read(visit.want, visit.offset, visit.size, bytes) {
        Ok(_) => Ok(()),
        Err(bad) => Err(FaultKind::Bad(bad)),
    }
}
