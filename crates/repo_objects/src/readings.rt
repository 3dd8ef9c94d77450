//! Logs, manifests and references, read under the ids of their keys.

ghost use Rattle.std.specs.Prelude.{◌≡◌, MatchResult, Ok, Err};
ghost use Rattle.repo_objects.specs.Readings.{read_manifest, read_log, read_ref};
ghost use Rattle.repo_objects.specs.Loading.{Loads};
ghost use Rattle.repo_objects.specs.inside.Metas.{unread_ref_of};

use crate::bad_objects::{Bad, Unread};
use held_log::HeldLog;
use held_manifest::{HeldManifest, hold};
use ice_base::Bytes;
use ice_ids::Id12;
use ref_file::RefFault;
use std::alloc::Global;

/// Holds the file of a manifest, to be read in place, under the id of its key. It takes no memory. (Icechunk specification
/// version 1, "Manifests".)
pub fn manifest_hold(id: Id12, file: Bytes) -> Result<HeldManifest, Bad>
    ensures { result ≡ read_manifest id file }
{
    let _bytes = file.as_slice();
    match hold(file) {
        Err((_, fault)) => Err(Bad::File(fault)),
        Ok(held) => {
            if held.id() == id {
                Ok(held)
            } else {
                Err(Bad::WrongId(held.id()))
            }
        }
    }
}

/// Holds the file of a transaction log, to be read in place, under the id of its key, which is that of its snapshot. It takes no
/// memory. (Icechunk specification version 1, "Transaction log".)
pub fn log_hold(id: Id12, file: Bytes) -> Result<HeldLog, Bad>
    ensures { result ≡ read_log id file }
{
    match held_log::hold(file) {
        Err((_, fault)) => Err(Bad::File(fault)),
        Ok(log) => {
            if log.id() == id {
                Ok(log)
            } else {
                Err(Bad::WrongId(log.id()))
            }
        }
    }
}

/// Why a reference isn't read.
fn unread_ref(fault: RefFault) -> Unread
    ensures { result ≡ unread_ref_of fault }
{
    match fault {
        RefFault::NoMemory => Unread::NoMemory,
        fault => Unread::Bad(Bad::Ref(fault)),
    }
}

/// Reads a reference: the id of the snapshot to which it refers. (Icechunk specification version 1, "Reference Files".)
pub fn ref_read(alloc: Global, file: &[u8]) -> Result<Id12, Unread>
    ensures { Loads (read_ref file.now) result }
{
    match ref_file::ref_read(alloc, file) {
        Ok(id) => Ok(id),
        Err(fault) => Err(unread_ref(fault)),
    }
}
