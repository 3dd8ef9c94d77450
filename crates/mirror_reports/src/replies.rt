//! What replies to the operations of a mirror tell.

ghost use Rattle.std.specs.Prelude.{◌≡◌, IfErr};
ghost use Rattle.repo_read.specs.Answers.{Answers, AnswersOutright};
ghost use Rattle.mirror_reports.specs.Told.{key_of, fault_of, listed_told, bytes_told, ref_told, buried_told, put_told, made_told, moved_told};

use crate::outcome::RefId;
use ice_base::Bytes;
use repo_objects::{Unread, ref_read};
use repo_read::Resolved;
use std::alloc::Global;
use store_api::{Got, Key, Listed, New, Over, Refusal, Reply};
use two_stores::Side;

/// The failure of a side's store.
fn fault_of(side: Side) -> Refusal
    ensures { result ≡ fault_of side }
{
    match side {
        Side::From => Refusal::StoreFault,
        Side::To => Refusal::TargetFault,
    }
}

/// A listing of the source, or `StoreFault`.
pub fn listed_told(reply: Reply) -> Result<Listed, Refusal>
    ensures { result ≡ listed_told reply }
{
    match reply {
        Reply::Listed(listed) => Ok(listed),
        _ => Err(Refusal::StoreFault),
    }
}

/// The bytes of an object, or `Missing`, or the failure of the side's store.
pub fn bytes_told(side: Side, key: Key, reply: Reply) -> Result<Bytes, Refusal>
    ensures { result ≡ bytes_told side key reply }
{
    match reply {
        Reply::Got(
            Got::Found {
                bytes,
                version: _,
                now: _,
            },
        ) => Ok(bytes),
        Reply::Got(Got::Absent { now: _ }) => Err(Refusal::Missing(key)),
        _ => Err(fault_of(side)),
    }
}

/// The snapshot that a ref names and the version at which it does, if the ref is there. Refusals: `BadFile`, the failure of the side's
/// store, or, where there are bytes, `NoMemory`.
pub fn ref_told(
    alloc: Global,
    side: Side,
    id: &RefId,
    reply: Reply,
) -> Result<Option<Resolved>, Refusal>
    ensures told { Answers (ref_told side (key_of id.now) reply) result }
    ensures outright { AnswersOutright reply (ref_told side (key_of id.now) reply) result }
{
    let Reply::Got(got) = reply else {
        return Err(fault_of(side));
    };
    let Got::Found {
        bytes,
        version,
        now: _,
    } = got
    else {
        return Ok(None);
    };
    match ref_read(alloc, bytes.as_slice()) {
        Ok(id) => Ok(Some(Resolved { id, version })),
        Err(Unread::NoMemory) => Err(Refusal::NoMemory),
        Err(Unread::Bad(bad)) => match id.key(alloc) {
            Ok(key) => Err(Refusal::BadFile(key, bad)),
            Err(_) => Err(Refusal::NoMemory),
        },
    }
}

/// Whether a tag of the target has a tombstone, or `TargetFault`.
pub fn buried_told(reply: Reply) -> Result<bool, Refusal>
    ensures { result ≡ buried_told reply }
{
    match reply {
        Reply::Got(Got::Found { .. }) => Ok(true),
        Reply::Got(Got::Absent { now: _ }) => Ok(false),
        _ => Err(Refusal::TargetFault),
    }
}

/// Whether an object was put, or one was there; or `TargetFault`.
pub fn put_told(reply: Reply) -> Result<bool, Refusal>
    ensures { result ≡ put_told reply }
{
    match reply {
        Reply::New(New::Done { .. }) => Ok(true),
        Reply::New(New::Present { .. }) => Ok(false),
        _ => Err(Refusal::TargetFault),
    }
}

/// A ref was put that was absent, or `RefExists`, or `TargetFault`. It takes no memory.
pub fn made_told(reply: Reply) -> Result<(), Refusal>
    ensures { result ≡ made_told reply }
{
    match reply {
        Reply::New(New::Done { .. }) => Ok(()),
        Reply::New(New::Present { version, .. }) => Err(Refusal::RefExists(version)),
        _ => Err(Refusal::TargetFault),
    }
}

/// A ref was put over, or `Moved`, or `TargetFault`. It takes no memory.
pub fn moved_told(reply: Reply) -> Result<(), Refusal>
    ensures { result ≡ moved_told reply }
{
    match reply {
        Reply::Over(Over::Done { .. }) => Ok(()),
        Reply::Over(Over::Moved { found, .. }) => Err(Refusal::Moved { found }),
        _ => Err(Refusal::TargetFault),
    }
}
