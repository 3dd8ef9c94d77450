//! What replies to the operations of a collection tell.

ghost use Rattle.std.specs.Prelude.{◌≡◌, ◌&&◌, IfOk, IfErr};
ghost use Rattle.live_refs.specs.Live.{live};
ghost use Rattle.repo_read.specs.Answers.{Answers, AnswersOutright};
ghost use Rattle.chunk_gc.specs.Told.{first_told, listed_told, ref_got, is_absent, snapshot_got, manifest_got};
ghost use Rattle.chunk_gc.specs.Programs.{MayRefuseMark};

use crate::queue::Keys;
use held_manifest::HeldManifest;
use ice_ids::Id12;
use live_refs::is_gone;
use object_store::{Entry, Got, Key, Listed, Reply};
use repo_objects::{Loaded, Unread, ref_read};
use repo_read::{manifest_told, snapshot_told};
use std::alloc::{AllocError, Global};
use store_api::Refusal;

/// A listing, or `StoreFault`.
pub(crate) fn listed_told(reply: Reply) -> Result<Listed, Refusal>
    ensures told { result ≡ listed_told reply }
    ensures listed { IfErr result MayRefuseMark }
{
    match reply {
        Reply::Listed(listed) => Ok(listed),
        _ => Err(Refusal::StoreFault),
    }
}

/// The first listing, or `CutoffAhead` where it tells that the cutoff is later than the store's time, or `StoreFault`.
pub(crate) fn first_told(cutoff: u64, reply: Reply) -> Result<Listed, Refusal>
    ensures told { result ≡ first_told cutoff reply }
    ensures listed { IfErr result MayRefuseMark }
{
    let Reply::Listed(listed) = reply else {
        return Err(Refusal::StoreFault);
    };
    if listed.now < cutoff {
        return Err(Refusal::CutoffAhead { now: listed.now });
    }
    Ok(listed)
}

/// The snapshot that a ref or a lease names, if it is still there. Refusals: `BadFile`, `StoreFault`, or, where there are bytes,
/// `NoMemory`.
pub(crate) fn ref_got(alloc: Global, key: &Key, reply: Reply) -> Result<Option<Id12>, Refusal>
    ensures told { Answers (ref_got key.now reply) result }
    ensures outright { AnswersOutright reply (ref_got key.now reply) result }
    ensures listed { IfErr result MayRefuseMark }
{
    let Reply::Got(got) = reply else {
        return Err(Refusal::StoreFault);
    };
    let Got::Found {
        bytes,
        version: _,
        now: _,
    } = got
    else {
        return Ok(None);
    };
    match ref_read(alloc, bytes.as_slice()) {
        Ok(id) => Ok(Some(id)),
        Err(Unread::NoMemory) => Err(Refusal::NoMemory),
        Err(Unread::Bad(bad)) => match key.copy(alloc) {
            Ok(key) => Err(Refusal::BadFile(key, bad)),
            Err(_) => Err(Refusal::NoMemory),
        },
    }
}

/// Whether a get found nothing.
fn is_absent(reply: &Reply) -> bool
    ensures { result ≡ is_absent reply.now }
{
    match reply {
        Reply::Got(Got::Absent { now: _ }) => true,
        _ => false,
    }
}

/// Whether what was got is passed over.
fn is_passed(passes: bool, reply: &Reply) -> bool
    ensures { result ≡ (is_absent reply.now && passes) }
{
    is_absent(reply) && passes
}

/// A snapshot; where absent ones are passed over, none for such a one. Refusals: `Missing`, `BadFile`, `StoreFault`, or, where
/// there are bytes, `NoMemory`.
pub(crate) fn snapshot_got(
    alloc: Global,
    passes: bool,
    id: Id12,
    reply: Reply,
) -> Result<Option<Loaded>, Refusal>
    ensures told { Answers (snapshot_got passes id reply) result }
    ensures outright { AnswersOutright reply (snapshot_got passes id reply) result }
    ensures listed { IfErr result MayRefuseMark }
{
    if is_passed(passes, &reply) {
        return Ok(None);
    }
    match snapshot_told(alloc, id, reply) {
        Ok(loaded) => Ok(Some(loaded)),
        Err(why) => Err(why),
    }
}

/// A manifest; where absent ones are passed over, none for such a one. It takes no memory. Refusals: `Missing`, `BadFile`,
/// `StoreFault`.
pub(crate) fn manifest_got(
    passes: bool,
    id: Id12,
    reply: Reply,
) -> Result<Option<HeldManifest>, Refusal>
    ensures told { result ≡ manifest_got passes id reply }
    ensures listed { IfErr result MayRefuseMark }
{
    if is_passed(passes, &reply) {
        return Ok(None);
    }
    match manifest_told(id, reply) {
        Ok(held) => Ok(Some(held)),
        Err(why) => Err(why),
    }
}

/// The keys of a listing whose refs stand.
pub(crate) fn live_keys(alloc: Global, entries: &[Entry]) -> Result<Keys, AllocError>
    ensures { IfOk result (λ keys. keys ≡ live entries.now) }
{
    let mut keys = Keys::new(alloc);
    for place in 0..entries.len() {
        if !is_gone(&entries[place].key, &entries[place + 1..]) {
            keys.push(entries[place].key.copy(alloc)?)?;
        }
    }
    Ok(keys)
}
