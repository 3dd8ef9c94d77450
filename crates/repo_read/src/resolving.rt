//! The snapshot that a branch, a tag or an id names, and the machine that reads it.

ghost use Rattle.std.specs.Prelude.{◌≡◌, ◌<◌, ◌≤◌, IfErr, IfOk};
ghost use Rattle.repo_read.specs.Answers.{Answers, AnswersOutright};
ghost use Rattle.repo_read.specs.Programs.{MayRefuseRef};
ghost use Rattle.store_api.specs.Program.{IsAsk, Steps};
ghost use Rattle.store_api.specs.Driving.{op_of};
ghost use Rattle.object_store.specs.declared.events.Op.TheVariants as Op;
ghost use Rattle.repo_read.specs.Resolving.{base_told, resolve_at_program, tag_told, tombstone_told, MayRefuseBase};
ghost use Rattle.repo_read.specs.Seeking.{key_got, told_next, resolution_at, resolving_left, resolve_rest, resolve_left, known_in};

use crate::answers::{ref_told, snapshot_told};
use ice_base::RefName;
use ice_ids::Id12;
use repo_objects::{Loaded, Unread, ref_read};
use std::alloc::{AllocError, Global};
use store_api::{Got, Key, Machine, Next, Refusal, Reply, Request, Store, Version, drive};

/// What names a snapshot.
#[derive(Debug, Drop)]
pub enum At {
    /// A branch.
    Branch(RefName),
    /// A tag.
    Tag(RefName),
    /// The snapshot's own id.
    Snapshot(Id12),
}

/// What is named: a snapshot, and the version at which a branch stands there.
#[derive(Clone, Copy, Debug)]
pub struct Named {
    /// The snapshot.
    pub id: Id12,
    /// The version, of a branch alone.
    pub version: Option<Version>,
}

/// The get that comes next where a name is resolved.
#[derive(Drop)]
pub enum Resolving {
    /// The branch is got.
    Branch(RefName),
    /// The tag is got.
    Tag(RefName),
    /// The tombstone of a tag is got that names this snapshot.
    Tombstone(RefName, Id12),
}

/// Where a name is resolved, or what comes next.
#[derive(Drop)]
pub enum Resolution {
    /// It names this.
    Known(Named),
    /// There is something to be got.
    Asks(Resolving),
}

/// What a reply to the get of a tag tells: the snapshot that it names. Refusals: `NoRef` where it was absent, `BadFile` where
/// its bytes are no reference, `StoreFault` where the get failed, or, where there are bytes, `NoMemory`.
pub fn tag_told(alloc: Global, tag: &RefName, reply: Reply) -> Result<Id12, Refusal>
    ensures told { Answers (tag_told tag.now reply) result }
    ensures outright { AnswersOutright reply (tag_told tag.now reply) result }
    ensures listed { IfErr result MayRefuseRef }
{
    let Reply::Got(got) = reply else {
        return Err(Refusal::StoreFault);
    };
    let Got::Found {
        bytes,
        version: _,
        now: _,
    } = got
    else {
        return Err(Refusal::NoRef);
    };
    match ref_read(alloc, bytes.as_slice()) {
        Ok(id) => Ok(id),
        Err(Unread::NoMemory) => Err(Refusal::NoMemory),
        Err(Unread::Bad(bad)) => match tag.copy(alloc) {
            Ok(tag) => Err(Refusal::BadFile(Key::Tag(tag), bad)),
            Err(_) => Err(Refusal::NoMemory),
        },
    }
}

/// What a reply to the get of a tag's tombstone tells: `NoRef` where it is there, whatever it holds, or `StoreFault` where the
/// get failed.
fn tombstone_told(id: Id12, reply: Reply) -> Result<Id12, Refusal>
    ensures told { result ≡ tombstone_told id reply }
    ensures listed { IfErr result MayRefuseRef }
{
    match reply {
        Reply::Got(Got::Absent { now: _ }) => Ok(id),
        Reply::Got(_) => Err(Refusal::NoRef),
        _ => Err(Refusal::StoreFault),
    }
}

/// What a reply to the get of the snapshot tells that was named so: as [`snapshot_told`] says, but of one that its own id names
/// absence is that of a ref, `NoRef`.
pub fn base_told(alloc: Global, at: &At, id: Id12, reply: Reply) -> Result<Loaded, Refusal>
    ensures told { Answers (base_told at.now id reply) result }
    ensures outright { AnswersOutright reply (base_told at.now id reply) result }
    ensures listed { IfErr result MayRefuseBase }
{
    match (at, snapshot_told(alloc, id, reply)) {
        (At::Snapshot(_), Err(Refusal::Missing(_))) => Err(Refusal::NoRef),
        (_, told) => told,
    }
}

impl At {
    /// A copy.
    pub fn copy(&self, alloc: Global) -> Result<At, AllocError>
        ensures { IfOk result (λ at. at ≡ self.now) }
    {
        Ok(match self {
            At::Branch(name) => At::Branch(name.copy(alloc)?),
            At::Tag(name) => At::Tag(name.copy(alloc)?),
            At::Snapshot(id) => At::Snapshot(*id),
        })
    }
}

impl Resolution {
    /// How the resolution begins: an id is known at once.
    pub fn begin(at: At) -> Resolution
        ensures { result ≡ resolution_at at }
    {
        match at {
            At::Branch(name) => Resolution::Asks(Resolving::Branch(name)),
            At::Tag(name) => Resolution::Asks(Resolving::Tag(name)),
            At::Snapshot(id) => Resolution::Known(Named { id, version: None }),
        }
    }
}

impl Resolving {
    /// The get that comes next.
    pub fn request(&self, alloc: Global) -> Result<Request<'_>, AllocError>
        ensures { IfOk result (λ request. op_of request ≡ Op.Get (key_got self.now)) }
    {
        let key = match self {
            Resolving::Branch(name) => Key::Branch(name.copy(alloc)?),
            Resolving::Tag(name) => Key::Tag(name.copy(alloc)?),
            Resolving::Tombstone(name, _) => Key::Tombstone(name.copy(alloc)?),
        };
        Ok(Request::Get { key })
    }

    /// What the reply to it tells.
    pub fn on_reply(self, alloc: Global, reply: Reply) -> Result<Resolution, Refusal>
        ensures told { Answers (told_next self reply) result }
        ensures outright { AnswersOutright reply (told_next self reply) result }
        ensures listed { IfErr result MayRefuseRef }
    {
        match self {
            Resolving::Branch(name) => {
                let read = ref_told(alloc, &name, reply)?;
                Ok(Resolution::Known(Named {
                    id: read.id,
                    version: Some(read.version),
                }))
            }
            Resolving::Tag(name) => {
                let id = tag_told(alloc, &name, reply)?;
                Ok(Resolution::Asks(Resolving::Tombstone(name, id)))
            }
            Resolving::Tombstone(_, id) => {
                let id = tombstone_told(id, reply)?;
                Ok(Resolution::Known(Named { id, version: None }))
            }
        }
    }
}

/// A machine that resolves what names a snapshot: a branch by its get, a tag by its get and that of its tombstone. A tag with a
/// tombstone counts as absent, and an id is known at once. It may answer `NoRef`, `BadFile`, `StoreFault` or `NoMemory`
/// instead.
#[derive(Drop)]
pub struct Resolve {
    alloc: Global,
    state: Option<Resolution>,
}

impl Machine for Resolve {
    type Answer = Named;

    ghost rest = { resolve_rest };

    ghost left = { resolve_left };

    ghost keeps = { λ result old new. Unit {0} };

    ghost may_refuse = { MayRefuseRef };

    fn request(&self) -> Result<Request<'_>, AllocError> {
        match &self.state {
            Some(Resolution::Asks(resolving)) => resolving.request(self.alloc),
            _ => unreachable!(),
        }
    }

    fn answer(&mut self, reply: Reply) -> Result<Next<Named>, Refusal> {
        let Some(Resolution::Asks(resolving)) = self.state.take() else {
            unreachable!()
        };
        match resolving.on_reply(self.alloc, reply)? {
            Resolution::Known(named) => Ok(Next::Ready(named)),
            next => {
                self.state = Some(next);
                Ok(Next::Again)
            }
        }
    }

    fn stop(&mut self) {
        self.state = None;
    }

    ghost may_starve = { tt };
}

impl Resolve {
    /// Before its first operation. An id is known then.
    pub fn new(alloc: Global, at: At) -> Resolve
        ensures program { resolve_rest result ≡ resolve_at_program at }
        ensures few { resolve_left result ≤ 2 }
    {
        Resolve {
            alloc,
            state: Some(Resolution::begin(at)),
        }
    }

    /// The snapshot, where no operation is needed to know it.
    pub fn known(&self) -> Option<Id12>
        ensures { result ≡ known_in (resolve_rest self.now) }
    {
        match &self.state {
            Some(Resolution::Known(named)) => Some(named.id),
            _ => None,
        }
    }

    /// One operation of the store.
    pub fn step<S: Store>(&mut self, store: &mut S) -> Result<Next<Named>, Refusal>
        requires { IsAsk (resolve_rest self.old) }
        ensures step { Steps (S.view store.old) (S.view store.new) (resolve_rest self.old)
            (resolve_rest self.new) result }
        ensures falls { resolve_left self.new < resolve_left self.old }
        ensures listed { IfErr result MayRefuseRef }
    {
        drive(self, store)
    }
}
