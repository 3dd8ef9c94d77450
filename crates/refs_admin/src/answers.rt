//! What replies to the puts and removals of refs tell, and to the get of the snapshot that a ref is to name.

ghost use Rattle.std.specs.Prelude.{◌≡◌, IfErr, IfOk};
ghost use Rattle.ref_file.specs.Refs.{ref_bytes};
ghost use Rattle.repo_read.specs.Answers.{Answers, AnswersOutright};
ghost use Rattle.store_api.specs.Driving.{payload_bytes};
ghost use Rattle.refs_admin.specs.Targets.{no_snapshot, target_told};
ghost use Rattle.refs_admin.specs.Branches.{created, moved, dropped};
ghost use Rattle.refs_admin.specs.Tags.{taken, buried};
ghost use Rattle.refs_admin.specs.inside.Working.{MayRefuseTarget};

use ice_base::Bytes;
use ice_ids::Id12;
use ref_file::ref_write;
use repo_objects::Loaded;
use repo_read::snapshot_told;
use std::alloc::{AllocError, Global};
use store_api::{GoneAt, Got, New, Over, Payload, Refusal, Reply, Version};

/// The bytes of a reference, to be put.
pub(crate) fn reference(alloc: Global, id: Id12) -> Result<Payload<'static>, AllocError>
    ensures { IfOk result (λ payload. payload_bytes payload ≡ ref_bytes id) }
{
    Ok(Payload::Made(Bytes::of(alloc, &ref_write(id))?))
}

/// What a reply to the get of the snapshot tells that a ref is to name: nothing more, where it is there and readable. Refusals:
/// `NoSnapshot` where it was absent, `BadFile` where its bytes are no snapshot of this id, `StoreFault` where the get failed,
/// or, where there are bytes, `NoMemory`.
pub(crate) fn target_told(alloc: Global, id: Id12, reply: Reply) -> Result<Loaded, Refusal>
    ensures told { Answers (target_told id reply) result }
    ensures outright { AnswersOutright reply (target_told id reply) result }
    ensures listed { IfErr result MayRefuseTarget }
{
    match snapshot_told(alloc, id, reply) {
        Ok(loaded) => Ok(loaded),
        Err(refusal) => Err(no_snapshot(refusal)),
    }
}

/// Why a ref isn't set to a snapshot that can't be read: where it is absent, there is no such snapshot.
fn no_snapshot(refusal: Refusal) -> Refusal
    ensures { result ≡ no_snapshot refusal }
{
    match refusal {
        Refusal::Missing(_) => Refusal::NoSnapshot,
        refusal => refusal,
    }
}

/// What a reply to the put of a new branch tells: `RefExists` with the version of the one that was there, or `StoreFault`.
pub(crate) fn created(reply: Reply) -> Result<(), Refusal>
    ensures { result ≡ created reply }
{
    match reply {
        Reply::New(New::Done { .. }) => Ok(()),
        Reply::New(New::Present { version, .. }) => Err(Refusal::RefExists(version)),
        _ => Err(Refusal::StoreFault),
    }
}

/// What a reply to the put over of a branch tells: `Moved` with the version that was found, or `StoreFault`.
pub(crate) fn moved(reply: Reply) -> Result<(), Refusal>
    ensures { result ≡ moved reply }
{
    match reply {
        Reply::Over(Over::Done { .. }) => Ok(()),
        Reply::Over(Over::Moved { found, .. }) => Err(Refusal::Moved { found }),
        _ => Err(Refusal::StoreFault),
    }
}

/// What a reply to the removal of a branch tells: `Moved` with the version that was found, or `StoreFault`.
pub(crate) fn dropped(reply: Reply) -> Result<(), Refusal>
    ensures { result ≡ dropped reply }
{
    match reply {
        Reply::GoneAt(GoneAt::Done { .. }) => Ok(()),
        Reply::GoneAt(GoneAt::Moved { found, .. }) => Err(Refusal::Moved { found }),
        _ => Err(Refusal::StoreFault),
    }
}

/// Why a tag that is there at this version isn't made, by the reply to the get of its tombstone.
pub(crate) fn taken(version: Version, reply: Reply) -> Refusal
    ensures { result ≡ taken version reply }
{
    match reply {
        Reply::Got(Got::Found { .. }) => Refusal::TagDropped,
        Reply::Got(Got::Absent { .. }) => Refusal::RefExists(version),
        _ => Refusal::StoreFault,
    }
}

/// What a reply to the put of a tombstone tells: `NoRef` where it was there, or `StoreFault`.
pub(crate) fn buried(reply: Reply) -> Result<(), Refusal>
    ensures { result ≡ buried reply }
{
    match reply {
        Reply::New(New::Done { .. }) => Ok(()),
        Reply::New(New::Present { .. }) => Err(Refusal::NoRef),
        _ => Err(Refusal::StoreFault),
    }
}
