//! The machine that makes a tag.

ghost use Rattle.std.specs.Prelude.{◌≡◌, ◌<◌, ◌≤◌, ◌+◌, IfErr, IsTrue};
ghost use Rattle.store_api.specs.Program.{IsAsk, NextIsPolite, Steps};
ghost use Rattle.store_api.specs.Driving.{Awaits, Took};
ghost use Rattle.refs_admin.specs.Tags.{tag_new_program, tag_target_program, MayRefuseTag};
ghost use Rattle.repo_read.specs.Seeking.{resolving_left};
ghost use Rattle.refs_admin.specs.inside.Working.{tagging_rest, tag_new_rest, tag_new_left};

use crate::answers::{reference, taken, target_told};
use ice_base::RefName;
use ice_ids::Id12;
use repo_read::{At, Resolution, Resolving};
use std::alloc::{AllocError, Global};
use std::mem;
use store_api::{Key, Machine, New, Next, Refusal, Reply, Request, Store, Version, Why, drive};

/// The operation that comes next.
#[derive(Drop)]
pub enum Tagging {
    /// What names the snapshot is resolved.
    Resolving(Resolving),
    /// The snapshot is got.
    Target(Id12),
    /// The tag is put.
    Tag(Id12),
    /// The tombstone is got of the tag that was there at this version.
    Tombstone(Version),
    /// The machine has ended.
    Ended,
}

/// A machine that makes a tag: it resolves what names the snapshot, gets the snapshot, and puts the tag where it is absent.
/// Where it was there, its tombstone is got, which tells whether the tag stands or was dropped. It may answer `NoRef`,
/// `NoSnapshot`, `TagDropped`, `RefExists`, `BadFile`, `StoreFault` or `NoMemory`.
#[derive(Drop)]
pub struct TagNew {
    alloc: Global,
    name: RefName,
    state: Tagging,
}

impl Machine for TagNew {
    type Answer = ();

    ghost rest = { tag_new_rest };

    ghost left = { tag_new_left };

    ghost keeps = { λ result old new. Unit {0} };

    ghost may_refuse = { MayRefuseTag };

    fn request(&self) -> Result<Request<'_>, AllocError> {
        match &self.state {
            Tagging::Resolving(resolving) => resolving.request(self.alloc),
            Tagging::Target(id) => Ok(Request::Get {
                key: Key::Snapshot(*id),
            }),
            Tagging::Tag(id) => Ok(Request::PutNew {
                key: Key::Tag(self.name.copy(self.alloc)?),
                bytes: reference(self.alloc, *id)?,
                why: Why::Tag,
            }),
            Tagging::Tombstone(_) => Ok(Request::Get {
                key: Key::Tombstone(self.name.copy(self.alloc)?),
            }),
            Tagging::Ended => unreachable!(),
        }
    }

    fn answer(&mut self, reply: Reply) -> Result<Next<()>, Refusal> {
        let state = mem::replace(&mut self.state, Tagging::Ended);
        match state {
            Tagging::Resolving(resolving) => self.on_resolving(resolving, reply),
            Tagging::Target(id) => self.on_target(id, reply),
            Tagging::Tag(_) => match reply {
                Reply::New(New::Done { .. }) => Ok(Next::Ready(())),
                Reply::New(New::Present { version, .. }) => {
                    put_back(&mut self.state, Tagging::Tombstone(version));
                    Ok(Next::Again)
                }
                _ => Err(Refusal::StoreFault),
            },
            Tagging::Tombstone(version) => Err(taken(version, reply)),
            Tagging::Ended => unreachable!(),
        }
    }

    fn stop(&mut self) {
        self.state = Tagging::Ended;
    }

    ghost may_starve = { tt };
}

impl TagNew {
    /// Before its first operation.
    pub fn new(alloc: Global, name: RefName, at: At) -> TagNew
        ensures program { tag_new_rest result ≡ tag_new_program name at }
        ensures few { tag_new_left result ≤ 5 }
    {
        let state = match Resolution::begin(at) {
            Resolution::Known(named) => Tagging::Target(named.id),
            Resolution::Asks(resolving) => Tagging::Resolving(resolving),
        };
        TagNew { alloc, name, state }
    }

    /// One operation of the store.
    pub fn step<S: Store>(&mut self, store: &mut S) -> Result<Next<()>, Refusal>
        requires live { IsAsk (tag_new_rest self.old) }
        requires polite { IsTrue (S.view store.old).caller.tells
            → NextIsPolite (tag_new_rest self.old) (S.view store.old).seen }
        ensures step { Steps (S.view store.old) (S.view store.new) (tag_new_rest self.old)
            (tag_new_rest self.new) result }
        ensures falls { tag_new_left self.new < tag_new_left self.old }
        ensures listed { IfErr result MayRefuseTag }
    {
        drive(self, store)
    }

    fn on_resolving(&mut self, resolving: Resolving, reply: Reply) -> Result<Next<()>, Refusal>
        requires ended { self.old.state ≡ Tagging.Ended }
        requires awaited { Awaits (tagging_rest self.old.name (Tagging.Resolving resolving)) reply }
        ensures took { Took (tagging_rest self.old.name (Tagging.Resolving resolving)) reply
            (tag_new_rest self.new) result }
        ensures falls { tag_new_left self.new < resolving_left resolving + 3 }
        ensures listed { IfErr result MayRefuseTag }
    {
        let next = match resolving.on_reply(self.alloc, reply)? {
            Resolution::Known(named) => Tagging::Target(named.id),
            Resolution::Asks(resolving) => Tagging::Resolving(resolving),
        };
        put_back(&mut self.state, next);
        Ok(Next::Again)
    }

    fn on_target(&mut self, id: Id12, reply: Reply) -> Result<Next<()>, Refusal>
        requires ended { self.old.state ≡ Tagging.Ended }
        requires awaited { Awaits (tag_target_program self.old.name id) reply }
        ensures took { Took (tag_target_program self.old.name id) reply (tag_new_rest self.new)
            result }
        ensures falls { tag_new_left self.new < 3 }
        ensures listed { IfErr result MayRefuseTag }
    {
        drop(target_told(self.alloc, id, reply)?);
        put_back(&mut self.state, Tagging::Tag(id));
        Ok(Next::Again)
    }
}

/// Puts the next state where the machine has ended.
fn put_back(state: &mut Tagging, next: Tagging)
    requires { state.old ≡ Tagging.Ended }
    ensures { state.new ≡ next }
{
    match mem::replace(state, next) {
        Tagging::Ended => {}
        _ => unreachable!(),
    }
}
