//! The machine that drops a tag.

ghost use Rattle.std.specs.Prelude.{◌≡◌, ◌<◌, ◌≤◌, IfErr, IsTrue};
ghost use Rattle.repo_read.specs.Programs.{MayRefuseRef};
ghost use Rattle.store_api.specs.Program.{IsAsk, NextIsPolite, Steps};
ghost use Rattle.store_api.specs.Driving.{Awaits, Took};
ghost use Rattle.refs_admin.specs.Tags.{tag_drop_program};
ghost use Rattle.refs_admin.specs.inside.Working.{tag_drop_rest, tag_drop_left};

use crate::answers::buried;
use ice_base::RefName;
use repo_read::tag_told;
use std::alloc::{AllocError, Global};
use store_api::{Key, Machine, Next, Payload, Refusal, Reply, Request, Store, Why, drive};

/// The operation that comes next.
#[derive(Clone, Copy)]
pub enum Burying {
    /// The tag is got.
    Tag,
    /// The tombstone is put.
    Tombstone,
    /// The machine has ended.
    Ended,
}

/// A machine that drops a tag: it gets the tag, and puts the tombstone, which has no bytes, where it is absent. The tag's own
/// object stays. It may answer `NoRef`, also where the tombstone was there, `BadFile`, `StoreFault` or `NoMemory`.
#[derive(Drop)]
pub struct TagDrop {
    alloc: Global,
    name: RefName,
    state: Burying,
}

impl Machine for TagDrop {
    type Answer = ();

    ghost rest = { tag_drop_rest };

    ghost left = { tag_drop_left };

    ghost keeps = { λ result old new. Unit {0} };

    ghost may_refuse = { MayRefuseRef };

    fn request(&self) -> Result<Request<'_>, AllocError> {
        let name = self.name.copy(self.alloc)?;
        match self.state {
            Burying::Tag => Ok(Request::Get {
                key: Key::Tag(name),
            }),
            Burying::Tombstone => Ok(Request::PutNew {
                key: Key::Tombstone(name),
                bytes: Payload::Lent(&[]),
                why: Why::Drop,
            }),
            Burying::Ended => unreachable!(),
        }
    }

    fn answer(&mut self, reply: Reply) -> Result<Next<()>, Refusal> {
        let state = self.state;
        self.state = Burying::Ended;
        match state {
            Burying::Tag => self.on_tag(reply),
            Burying::Tombstone => Ok(Next::Ready(buried(reply)?)),
            Burying::Ended => unreachable!(),
        }
    }

    fn stop(&mut self) {
        self.state = Burying::Ended;
    }

    ghost may_starve = { tt };
}

impl TagDrop {
    /// Before its first operation.
    pub fn new(alloc: Global, name: RefName) -> TagDrop
        ensures program { tag_drop_rest result ≡ tag_drop_program name }
        ensures few { tag_drop_left result ≤ 2 }
    {
        TagDrop {
            alloc,
            name,
            state: Burying::Tag,
        }
    }

    /// One operation of the store.
    pub fn step<S: Store>(&mut self, store: &mut S) -> Result<Next<()>, Refusal>
        requires live { IsAsk (tag_drop_rest self.old) }
        requires polite { IsTrue (S.view store.old).caller.tells
            → NextIsPolite (tag_drop_rest self.old) (S.view store.old).seen }
        ensures step { Steps (S.view store.old) (S.view store.new) (tag_drop_rest self.old)
            (tag_drop_rest self.new) result }
        ensures falls { tag_drop_left self.new < tag_drop_left self.old }
        ensures listed { IfErr result MayRefuseRef }
    {
        drive(self, store)
    }

    fn on_tag(&mut self, reply: Reply) -> Result<Next<()>, Refusal>
        requires ended { self.old.state ≡ Burying.Ended }
        requires awaited { Awaits (tag_drop_program self.old.name) reply }
        ensures took { Took (tag_drop_program self.old.name) reply (tag_drop_rest self.new) result }
        ensures falls { tag_drop_left self.new < 2 }
        ensures listed { IfErr result MayRefuseRef }
    {
        let _id = tag_told(self.alloc, &self.name, reply)?;
        self.state = Burying::Tombstone;
        Ok(Next::Again)
    }
}
