//! What replies to the operations of an expiry tell.

ghost use Rattle.std.specs.Prelude.{◌≡◌, IfErr};
ghost use Rattle.repo_read.specs.Answers.{Answers, AnswersOutright};
ghost use Rattle.expiry.specs.Looks.{ref_seen, snapshot_seen, MayRefuseLook};
ghost use Rattle.expiry.specs.Plays.{drop_told, cut_told};
ghost use Rattle.expiry.specs.inside.Looking.{version_in};
ghost use Rattle.expiry.specs.inside.Expiring.{fault_told, heard, listed_told};

use crate::look::Seen;
use cleanup_reports::What;
use ice_ids::Id12;
use repo_objects::{Unread, ref_read};
use repo_read::{Resolved, snapshot_told};
use std::alloc::Global;
use store_api::{GoneAt, Got, Key, Listed, New, Over, Refusal, Reply, StoreFault, Version};

/// The snapshot that a ref names and the version at which it does, if the ref is there. Refusals: `BadFile`, `StoreFault`, or,
/// where there are bytes, `NoMemory`.
pub(crate) fn ref_seen(alloc: Global, key: &Key, reply: Reply) -> Result<Option<Resolved>, Refusal>
    ensures told { Answers (ref_seen key.now reply) result }
    ensures outright { AnswersOutright reply (ref_seen key.now reply) result }
    ensures listed { IfErr result MayRefuseLook }
{
    let Reply::Got(got) = reply else {
        return Err(Refusal::StoreFault);
    };
    let Got::Found {
        bytes,
        version,
        now: _,
    } = got
    else {
        return Ok(None);
    };
    match ref_read(alloc, bytes.as_slice()) {
        Ok(id) => Ok(Some(Resolved { id, version })),
        Err(Unread::NoMemory) => Err(Refusal::NoMemory),
        Err(Unread::Bad(bad)) => match key.copy(alloc) {
            Ok(key) => Err(Refusal::BadFile(key, bad)),
            Err(_) => Err(Refusal::NoMemory),
        },
    }
}

/// The version of what was found.
fn version_in(reply: &Reply) -> Version
    ensures { result ≡ version_in reply.now }
{
    match reply {
        Reply::Got(Got::Found { version, .. }) => *version,
        _ => Version(0),
    }
}

/// A snapshot and the version at which it was read. Refusals: `Missing`, `BadFile`, `StoreFault`, or, where there are bytes,
/// `NoMemory`.
pub(crate) fn snapshot_seen(alloc: Global, id: Id12, reply: Reply) -> Result<Seen, Refusal>
    ensures told { Answers (snapshot_seen id reply) result }
    ensures outright { AnswersOutright reply (snapshot_seen id reply) result }
    ensures listed { IfErr result MayRefuseLook }
{
    let version = version_in(&reply);
    match snapshot_told(alloc, id, reply) {
        Ok(file) => Ok(Seen { file, version }),
        Err(why) => Err(why),
    }
}

/// What the reply to a listing tells.
fn listed_told(reply: Reply) -> Result<Listed, Refusal>
    ensures { result ≡ listed_told reply }
{
    match reply {
        Reply::Listed(listed) => Ok(listed),
        _ => Err(Refusal::StoreFault),
    }
}

/// What the reply to the drop of a ref tells.
fn drop_told(reply: Reply) -> Result<What, Refusal>
    ensures { result ≡ drop_told reply }
{
    match reply {
        Reply::GoneAt(GoneAt::Done { .. }) | Reply::New(New::Done { .. }) => Ok(What::Dropped),
        Reply::GoneAt(GoneAt::Moved { .. }) | Reply::New(New::Present { .. }) => Ok(What::Moved),
        _ => Err(Refusal::StoreFault),
    }
}

/// What the reply to the cut of this snapshot tells.
fn cut_told(id: Id12, reply: Reply) -> Result<What, Refusal>
    ensures { result ≡ cut_told id reply }
{
    match reply {
        Reply::Over(Over::Done { .. }) => Ok(What::Cut(id)),
        Reply::Over(Over::Moved { .. }) => Ok(What::Moved),
        _ => Err(Refusal::StoreFault),
    }
}

fn fault_told(fault: StoreFault) -> Refusal
    ensures { result ≡ fault_told fault }
{
    match fault {
        StoreFault::Failed => Refusal::StoreFault,
        StoreFault::NoMemory => Refusal::NoMemory,
    }
}

/// A listing, or `StoreFault`, or `NoMemory`.
pub(crate) fn listed_heard(answer: Result<Reply, StoreFault>) -> Result<Listed, Refusal>
    ensures { result ≡ heard listed_told answer }
{
    match answer {
        Ok(reply) => listed_told(reply),
        Err(fault) => Err(fault_told(fault)),
    }
}

/// What became of a ref that was to be dropped, or `StoreFault`, or `NoMemory`.
pub(crate) fn drop_heard(answer: Result<Reply, StoreFault>) -> Result<What, Refusal>
    ensures { result ≡ heard drop_told answer }
{
    match answer {
        Ok(reply) => drop_told(reply),
        Err(fault) => Err(fault_told(fault)),
    }
}

/// What became of a ref whose history was to be cut at this snapshot, or `StoreFault`, or `NoMemory`.
pub(crate) fn cut_heard(id: Id12, answer: Result<Reply, StoreFault>) -> Result<What, Refusal>
    ensures { result ≡ heard (cut_told id) answer }
{
    match answer {
        Ok(reply) => cut_told(id, reply),
        Err(fault) => Err(fault_told(fault)),
    }
}
