//! What replies to the gets of refs, snapshots, logs, manifests and objects with chunks tell.

ghost use Rattle.std.specs.Prelude.{◌≡◌, IfErr};
ghost use Rattle.repo_read.specs.Answers.{ref_told, snapshot_told, manifest_told, log_told, object_told, Answers, AnswersOutright};
ghost use Rattle.repo_read.specs.Programs.{MayRefuseRef, MayRefuseObject};

use held_log::HeldLog;
use held_manifest::HeldManifest;
use ice_base::{Bytes, RefName};
use ice_ids::Id12;
use repo_objects::{Loaded, Unread, chunk_read, log_hold, manifest_hold, ref_read};
use std::alloc::Global;
use store_api::{Got, Key, Refusal, Reply, Version};

/// What a branch names: a snapshot, from this version on.
#[derive(Clone, Copy, Debug, PartialEq, Eq)]
pub struct Resolved {
    /// The snapshot.
    pub id: Id12,
    /// The version at which the branch stands.
    pub version: Version,
}

/// What a reply to the get of a branch tells. Refusals: `NoRef` where it was absent, `BadFile` where its bytes are no
/// reference, `StoreFault` where the get failed, or, where there are bytes, `NoMemory`.
pub fn ref_told(alloc: Global, branch: &RefName, reply: Reply) -> Result<Resolved, Refusal>
    ensures told { Answers (ref_told branch.now reply) result }
    ensures outright { AnswersOutright reply (ref_told branch.now reply) result }
    ensures listed { IfErr result MayRefuseRef }
{
    let Reply::Got(got) = reply else {
        return Err(Refusal::StoreFault);
    };
    let Got::Found {
        bytes,
        version,
        now: _,
    } = got
    else {
        return Err(Refusal::NoRef);
    };
    match ref_read(alloc, bytes.as_slice()) {
        Ok(id) => Ok(Resolved { id, version }),
        Err(Unread::NoMemory) => Err(Refusal::NoMemory),
        Err(Unread::Bad(bad)) => match branch.copy(alloc) {
            Ok(branch) => Err(Refusal::BadFile(Key::Branch(branch), bad)),
            Err(_) => Err(Refusal::NoMemory),
        },
    }
}

/// What a reply to the get of a snapshot tells, which holds its file. Refusals: `Missing` where it was absent, `BadFile` where its bytes are no
/// snapshot of this id, `StoreFault` where the get failed, or, where there are bytes, `NoMemory`.
pub fn snapshot_told(alloc: Global, id: Id12, reply: Reply) -> Result<Loaded, Refusal>
    ensures told { Answers (snapshot_told id reply) result }
    ensures outright { AnswersOutright reply (snapshot_told id reply) result }
    ensures listed { IfErr result MayRefuseObject }
{
    let Reply::Got(got) = reply else {
        return Err(Refusal::StoreFault);
    };
    let Got::Found {
        bytes,
        version: _,
        now: _,
    } = got
    else {
        return Err(Refusal::Missing(Key::Snapshot(id)));
    };
    match Loaded::read(alloc, id, bytes) {
        Ok(loaded) => Ok(loaded),
        Err(Unread::NoMemory) => Err(Refusal::NoMemory),
        Err(Unread::Bad(bad)) => Err(Refusal::BadFile(Key::Snapshot(id), bad)),
    }
}

/// What a reply to the get of a manifest tells. It takes no memory. Refusals: `Missing` where it was absent, `BadFile` where
/// its bytes are no manifest of this id, or `StoreFault` where the get failed.
pub fn manifest_told(id: Id12, reply: Reply) -> Result<HeldManifest, Refusal>
    ensures told { result ≡ manifest_told id reply }
    ensures listed { IfErr result MayRefuseObject }
{
    let Reply::Got(got) = reply else {
        return Err(Refusal::StoreFault);
    };
    let Got::Found {
        bytes,
        version: _,
        now: _,
    } = got
    else {
        return Err(Refusal::Missing(Key::Manifest(id)));
    };
    match manifest_hold(id, bytes) {
        Ok(held) => Ok(held),
        Err(bad) => Err(Refusal::BadFile(Key::Manifest(id), bad)),
    }
}

/// What a reply to the get of a transaction log tells. It takes no memory. Refusals: `Missing` where it was absent, `BadFile`
/// where its bytes are no log of this id, or `StoreFault` where the get failed.
pub fn log_told(id: Id12, reply: Reply) -> Result<HeldLog, Refusal>
    ensures told { result ≡ log_told id reply }
    ensures listed { IfErr result MayRefuseObject }
{
    let Reply::Got(got) = reply else {
        return Err(Refusal::StoreFault);
    };
    let Got::Found {
        bytes,
        version: _,
        now: _,
    } = got
    else {
        return Err(Refusal::Missing(Key::Txn(id)));
    };
    match log_hold(id, bytes) {
        Ok(log) => Ok(log),
        Err(bad) => Err(Refusal::BadFile(Key::Txn(id), bad)),
    }
}

/// What a reply to the get of an object with chunks tells of a chunk of `want` bytes that is in this part of it. It takes no
/// memory. Refusals: `Missing` where the object was absent, `BadFile` where the part doesn't lie in it or hasn't as many
/// bytes as the chunk, or `StoreFault` where the get failed.
pub fn object_told(
    want: u64,
    id: Id12,
    offset: u64,
    size: u64,
    reply: Reply,
) -> Result<Bytes, Refusal>
    ensures told { result ≡ object_told want id offset size reply }
    ensures listed { IfErr result MayRefuseObject }
{
    let Reply::Got(got) = reply else {
        return Err(Refusal::StoreFault);
    };
    let Got::Found {
        bytes,
        version: _,
        now: _,
    } = got
    else {
        return Err(Refusal::Missing(Key::Chunk(id)));
    };
    match chunk_read(want, offset, size, bytes) {
        Ok(bytes) => Ok(bytes),
        Err(bad) => Err(Refusal::BadFile(Key::Chunk(id), bad)),
    }
}
