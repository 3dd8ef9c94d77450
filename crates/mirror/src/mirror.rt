//! The machine that copies a repository into a second store.

ghost use Rattle.std.specs.Prelude.{◌≡◌, ◌<◌, ◌∷◌, List, false, Err, IsTrue};
ghost use Rattle.object_store.specs.declared.events.Op.TheVariants as Op;
ghost use Rattle.store_api.specs.Driving.{op_of};
ghost use Rattle.two_stores.specs.Sides.{pair_of};
ghost use Rattle.two_stores.specs.Pairs.{Done, IsAsk, IsDone, MayAsk, PairSteps};
ghost use Rattle.mirror.specs.Programs.{mirror_program};
ghost use Rattle.mirror.specs.inside.Working.{object_key, mirror_rest, HasFirst, mirror_left};

use crate::lines::{Link, Links};
use crate::register::Register;
use crate::target::NO_PUTS;
use ice_base::Bytes;
use ice_ids::{Id12, ObjectIds};
use mirror_reports::{MirrorEnd, MirrorRef, Mirrored, RefId};
use repo_objects::Queue;
use repo_read::MOST_SNAPSHOTS;
use std::alloc::{AllocError, Global};
use std::mem;
use store_api::{Key, Refusal, Reply, Request, Store, Version};
use two_stores::{Asked, PairMachine, Side, drive_pair};

/// An object of a snapshot's tree. The log and the snapshot are those of the snapshot in work.
#[derive(Clone, Copy, Debug, PartialEq, Eq)]
pub enum Object {
    Chunk(Id12),
    Manifest(Id12),
    Log,
    Snapshot,
}

/// The operation that comes next.
#[derive(Clone, Copy, Debug, PartialEq, Eq)]
pub enum Stage {
    /// A part of the source is listed.
    List,
    /// A ref of the source is got.
    Ref,
    /// A snapshot of the source is got, on the way down.
    Down(Id12),
    /// An object of the source is got.
    Take(Object),
    /// It is put in the target.
    Put(Object),
    /// What stands in the target is got.
    Same(Object),
    /// The target's ref is got.
    Target,
    /// The tombstone of the target's tag, which names this snapshot.
    Tombstone(Id12),
    /// The target's ref is put where it was absent.
    NewRef,
    /// It is put over this version.
    OverRef(Version),
    /// The machine has ended.
    Ended,
    /// Memory was wanting.
    Starved,
}

/// A machine that copies a repository: all that the source's branches reach, and then what its tags reach, each put in the target before
/// what names it, and the ref last. A walk ends at a snapshot that this run has copied. On the way down it holds ids and parents alone.
///
/// Refusals: `Missing` and `BadFile` of either store, `TooDeep` and `TooLarge` of the source; `Differs` where another object stands in
/// the target under a key of the source, or a tag there can't follow; `RefExists` and `Moved` where another client wrote or removed the
/// target's ref meanwhile; `StoreFault` where the source fails, `TargetFault` where the target does; `NoMemory`.
#[derive(Drop)]
pub struct Mirror {
    pub(crate) alloc: Global,
    pub(crate) stage: Stage,
    pub(crate) register: Register,
    pub(crate) target: Id12,
    pub(crate) left: u32,
    pub(crate) line: Links,
    pub(crate) link: Link,
    pub(crate) snapshot: Bytes,
    pub(crate) files: Queue,
    pub(crate) file: Id12,
    pub(crate) manifest: Bytes,
    pub(crate) chunks: Queue,
    pub(crate) object: Bytes,
    pub(crate) copied: ObjectIds,
    pub(crate) counts: Mirrored,
    pub(crate) result: Result<Mirrored, Refusal>,
}

/// A get on a side.
fn get(side: Side, key: Key) -> Asked<'static>
    ensures side { result.side ≡ side }
    ensures request { op_of result.request ≡ Op.Get key }
{
    Asked {
        side,
        request: Request::Get { key },
    }
}

impl PairMachine for Mirror {
    type Outcome = MirrorEnd;

    ghost rest = { mirror_rest };

    ghost left = { mirror_left };

    fn request(&self) -> Result<Asked<'_>, AllocError> {
        match self.stage {
            Stage::List => Ok(Asked {
                side: Side::From,
                request: Request::List {
                    part: self.register.part(),
                },
            }),
            Stage::Ref => Ok(get(Side::From, self.first().key(self.alloc)?)),
            Stage::Down(id) => Ok(get(Side::From, Key::Snapshot(id))),
            Stage::Take(object) => Ok(get(Side::From, self.key_of(object))),
            Stage::Put(object) => Ok(self.put_of(object)),
            Stage::Same(object) => Ok(get(Side::To, self.key_of(object))),
            Stage::Target => Ok(get(Side::To, self.first().key(self.alloc)?)),
            Stage::Tombstone(_) => Ok(get(Side::To, self.first().tombstone(self.alloc)?)),
            Stage::NewRef => self.make_ref(),
            Stage::OverRef(old) => self.move_ref(old),
            Stage::Ended | Stage::Starved => unreachable!(),
        }
    }

    fn answer(&mut self, reply: Reply) {
        let stage = self.stage;
        self.stage = Stage::Starved;
        match stage {
            Stage::List => self.on_list(reply),
            Stage::Ref => self.on_ref(reply),
            Stage::Down(id) => self.on_down(id, reply),
            Stage::Take(object) => self.on_take(object, reply),
            Stage::Put(object) => self.on_put(object, reply),
            Stage::Same(object) => self.on_same(object, reply),
            Stage::Target => self.on_target(reply),
            Stage::Tombstone(there) => self.on_tombstone(there, reply),
            Stage::NewRef => self.on_new_ref(reply),
            Stage::OverRef(_) => self.on_over_ref(reply),
            Stage::Ended | Stage::Starved => unreachable!(),
        }
    }

    fn stop(&mut self) {
        self.stage = Stage::Starved;
    }
}

impl Mirror {
    /// Before its first operation. It takes no memory.
    pub fn new(alloc: Global) -> Mirror
        ensures { mirror_rest result ≡ mirror_program }
    {
        Mirror {
            alloc,
            stage: Stage::List,
            register: Register::new(alloc),
            target: Id12::INITIAL,
            left: MOST_SNAPSHOTS,
            line: Links::new(alloc),
            link: Link {
                id: Id12::INITIAL,
                parent: None,
            },
            snapshot: Bytes::new(alloc),
            files: Queue::new(alloc),
            file: Id12::INITIAL,
            manifest: Bytes::new(alloc),
            chunks: Queue::new(alloc),
            object: Bytes::new(alloc),
            copied: ObjectIds::new(alloc),
            counts: NO_PUTS,
            result: Err(Refusal::NoMemory),
        }
    }

    /// Whether it has ended.
    pub fn has_ended(&self) -> bool
        ensures ended { IsTrue result → IsDone (mirror_rest self.now) }
        ensures live { result ≡ false → IsAsk (mirror_rest self.now) }
    {
        match self.stage {
            Stage::Ended | Stage::Starved => true,
            // These have a ref in work.
            Stage::Ref | Stage::Target | Stage::Tombstone(_) | Stage::NewRef | Stage::OverRef(_) =>
                self.register.first().is_none(),
            Stage::List | Stage::Down(_) | Stage::Take(_) | Stage::Put(_) | Stage::Same(_) => false,
        }
    }

    /// What became of the refs so far. It takes no memory.
    pub fn refs(&self) -> &[MirrorRef]
        ensures { result.now ≡ self.now.register.refs }
    {
        self.register.refs()
    }

    /// What it did, and how it ended.
    pub fn into_end(self) -> MirrorEnd
        requires { IsDone (mirror_rest self) }
        ensures { mirror_rest self ≡ Done result }
    {
        let stage = self.stage;
        let result = self.result;
        let refs = self.register.into_refs();
        match stage {
            Stage::Ended => MirrorEnd { refs, result },
            _ => MirrorEnd {
                refs,
                result: Err(Refusal::NoMemory),
            },
        }
    }

    /// One operation, on one of the two stores.
    pub fn step<S: Store, T: Store>(&mut self, from: &mut S, to: &mut T)
        requires live { IsAsk (mirror_rest self.old) }
        requires polite { MayAsk (mirror_rest self.old) (pair_of (S.view from.old) (T.view to.old)) }
        ensures step { PairSteps (pair_of (S.view from.old) (T.view to.old))
            (pair_of (S.view from.new) (T.view to.new)) (mirror_rest self.old)
            (mirror_rest self.new) }
        ensures falls { mirror_left self.new < mirror_left self.old }
    {
        drive_pair(self, from, to)
    }

    /// The ref that is in work.
    pub(crate) fn first(&self) -> &RefId
        requires { HasFirst self.now }
        ensures { (rs : List RefId) × (self.now.register.names ≡ result.now ∷ rs) }
    {
        match self.register.first() {
            Some(id) => id,
            None => unreachable!(),
        }
    }

    /// The key of an object.
    pub(crate) fn key_of(&self, object: Object) -> Key
        ensures { result ≡ object_key object self.now }
    {
        match object {
            Object::Chunk(id) => Key::Chunk(id),
            Object::Manifest(id) => Key::Manifest(id),
            Object::Log => Key::Txn(self.link.id),
            Object::Snapshot => Key::Snapshot(self.link.id),
        }
    }

    /// Ends refused.
    pub(crate) fn refuse(&mut self, why: Refusal)
        ensures { self.new ≡ record self.old { stage = Stage.Ended; result = Err why } }
    {
        drop(mem::replace(&mut self.result, Err(why)));
        self.stage = Stage::Ended;
    }
}
