//! Setting chunks.

ghost use Rattle.std.specs.Prelude.{◌≡◌, ◌<◌, length, Ok, Err, Some, None, IfErr, IfOk, IsSome, IsTrue, OnErr, OnOk};
ghost use Rattle.ice_ids.specs.Drawing.{drawn12};
ghost use Rattle.manifest_file.specs.declared.manifest.Place.TheVariants.{Inline as Is_inline, Object as Is_object};
ghost use Rattle.store_api.specs.Program.{Done, IsAsk, IsDone, Steps, NextIsPolite};
ghost use Rattle.store_api.specs.Driving.{Awaits, Took};
ghost use Rattle.session.specs.Editing.{Leaves};
ghost use Rattle.session.specs.Chunks.{after_object, chunk_unset, set_program, with_chunk_of};
ghost use Rattle.session.specs.Setting.{set_rest, set_left, set_session, SetBegun, SetsOutright, MayRefuseSet};
ghost use Rattle.session.specs.Placing.{set_allowed};
ghost use Rattle.session.specs.inside.Working.{LandsCalmly, put_chunk_of, put_object_of};

use crate::Session;
use crate::editing::refusal_of_edit;
use crate::putting::Putting;
use ice_base::Bytes;
use ice_ids::{Id8, Id12};
use manifest_file::Place;
use std::alloc::{AllocError, Global};
use std::mem;
use store_api::{Key, Machine, New, Next, Payload, Refusal, Reply, Request, Store, Why, drive};
use zarr_path::{Index, Path};

/// The longest chunk, in bytes, that stands in a manifest. (Own.)
const MOST_INLINE: usize = 512;

/// What the setting of a chunk came to.
#[derive(Drop)]
pub enum Setting {
    /// The chunk is set.
    Ready(Session),
    /// The chunk's object is to be put.
    Again(SetChunk),
}

/// A machine that sets a chunk whose bytes are put as an object, under an id that the session drew. The chunk is entered with
/// the reply, and then the session is given out. It may answer `IdTaken`, `StoreFault` or `NoMemory` instead.
#[derive(Drop)]
pub struct SetChunk {
    node: Id8,
    index: Index,
    bytes: Bytes,
    id: Id12,
    state: Putting,
}

/// Copies of a chunk's index and of its bytes.
fn copies(alloc: Global, index: &Index, bytes: &[u8]) -> Result<(Index, Bytes), AllocError>
    ensures { IfOk result (λ held. held ≡ (index.now, bytes.now)) }
{
    let index = index.copy(alloc)?;
    let bytes = Bytes::of(alloc, bytes)?;
    Ok((index, bytes))
}

impl Session {
    /// Enters where a chunk of a node is. Whether the tree has such an array isn't asked.
    fn enter(&mut self, node: Id8, index: Index, place: Place) -> Result<(), AllocError>
        ensures ok { OnOk result (self.new ≡ with_chunk_of self.old node index place) }
        ensures err { OnErr result (self.new ≡ self.old) }
    {
        self.changes.enter_chunk(self.alloc, node, index, place)
    }

    /// Sets a chunk that stands in the session.
    fn set_inline(
        mut self,
        node: Id8,
        index: Index,
        bytes: Bytes,
    ) -> Result<Setting, (Session, Refusal)>
        ensures { SetBegun (Done (Ok (with_chunk_of self node index (Is_inline bytes)))) self result }
    {
        match self.enter(node, index, Place::Inline(bytes)) {
            Ok(()) => Ok(Setting::Ready(self)),
            Err(_) => Err((self, Refusal::NoMemory)),
        }
    }

    /// Sets a chunk that is put as an object.
    fn set_object(
        mut self,
        node: Id8,
        index: Index,
        bytes: Bytes,
    ) -> Result<Setting, (Session, Refusal)>
        ensures sets { SetBegun (put_object_of self node index bytes (drawn12 self.ids)) self
            result }
        ensures spent { drawn12 self.ids ≡ None → result ≡ Err (self, Refusal.IdsSpent) }
    {
        let Some(id) = self.ids.next12(self.alloc) else {
            return Err((self, Refusal::IdsSpent));
        };
        Ok(Setting::Again(SetChunk {
            node,
            index,
            bytes,
            id,
            state: Putting::Object(self),
        }))
    }

    /// Sets a chunk of a node. One of at most 512 bytes stands in the session; of a longer one the object is put. Whether the
    /// tree takes the chunk isn't asked.
    pub(crate) fn set_held(
        self,
        node: Id8,
        index: Index,
        bytes: Bytes,
    ) -> Result<Setting, (Session, Refusal)>
        ensures { SetBegun (put_chunk_of self node index bytes) self result }
    {
        if bytes.len() <= MOST_INLINE {
            self.set_inline(node, index, bytes)
        } else {
            self.set_object(node, index, bytes)
        }
    }

    /// Sets a chunk. One of at most 512 bytes stands in the session; of a longer one the object is put, by a machine. It is
    /// refused by `ReadOnly`, `NoNode`, `NotArray`, `OutOfGrid`, `ChunkLength` (with how many bytes a chunk has), which take no
    /// memory, or `IdsSpent`, the first in this order, or by `NoMemory`, and the session comes back as it was, apart from one id that may have been
    /// drawn where memory ran out.
    pub fn set_chunk(
        self,
        path: &Path,
        index: &Index,
        bytes: &[u8],
    ) -> Result<Setting, (Session, Refusal)>
        ensures sets { SetBegun (set_program self path.now index.now bytes.now) self result }
        ensures outright { SetsOutright (set_allowed self path.now index.now (length bytes.now))
            self result }
    {
        if !self.writes() {
            return Err((self, Refusal::ReadOnly));
        }
        let len = bytes.len() as u64;
        let node = match self.changes.array_to_set(&self.loaded, path, index, len) {
            Ok(node) => node,
            Err(fault) => return Err((self, refusal_of_edit(fault))),
        };
        match copies(self.alloc, index, bytes) {
            Ok((index, bytes)) => self.set_held(node, index, bytes),
            Err(_) => Err((self, Refusal::NoMemory)),
        }
    }

    /// Takes away a chunk, so that it reads as the array's fill value. It is refused by `ReadOnly`, `NoNode`, `NotArray`,
    /// `OutOfGrid` or `NoMemory`, the first in this order, and the session is as before.
    pub fn unset_chunk(&mut self, path: &Path, index: &Index) -> Result<(), Refusal>
        ensures { Leaves (chunk_unset self.old path.now index.now) self.old result self.new }
    {
        if !self.writes() {
            return Err(Refusal::ReadOnly);
        }
        match self
            .changes
            .unset_chunk(self.alloc, &self.loaded, path, index)
        {
            Ok(()) => Ok(()),
            Err(fault) => Err(refusal_of_edit(fault)),
        }
    }
}

impl Machine for SetChunk {
    type Answer = Session;

    ghost rest = { set_rest };

    ghost left = { set_left };

    ghost keeps = { λ result old new. OnErr result (set_session new ≡ set_session old) };

    ghost may_refuse = { MayRefuseSet };

    fn request(&self) -> Result<Request<'_>, AllocError> {
        Ok(Request::PutNew {
            key: Key::Chunk(self.id),
            bytes: Payload::Lent(self.bytes.as_slice()),
            why: Why::Set,
        })
    }

    fn answer(&mut self, reply: Reply) -> Result<Next<Session>, Refusal> {
        match (mem::replace(&mut self.state, Putting::Ended), reply) {
            (Putting::Object(session), Reply::New(new)) => self.on_put(session, new),
            (Putting::Object(session), Reply::Failed { done: _ }) => {
                self.state.hold(session);
                Err(Refusal::StoreFault)
            }
            _ => unreachable!(),
        }
    }

    fn stop(&mut self) {
        match mem::replace(&mut self.state, Putting::Ended) {
            Putting::Object(session) => self.state.hold(session),
            _ => unreachable!(),
        }
    }

    ghost may_starve = { tt };
}

impl SetChunk {
    /// The object was put: the chunk is entered.
    fn on_put(&mut self, mut session: Session, new: New) -> Result<Next<Session>, Refusal>
        requires { self.old.state ≡ Putting.Ended }
        ensures took { LandsCalmly
            (after_object (with_chunk_of session self.old.node self.old.index
            (Is_object self.old.id 0 (length self.old.bytes))) self.old.id (Reply.New new))
            (set_rest self.new) result }
        ensures falls { set_left self.new < 1 }
        ensures listed { IfErr result MayRefuseSet }
        ensures held { OnErr result (set_session self.new ≡ Some session) }
    {
        if let New::Present { version: _, now: _ } = new {
            self.state.hold(session);
            return Err(Refusal::IdTaken(Key::Chunk(self.id)));
        }
        let place = Place::Object {
            id: self.id,
            offset: 0,
            length: self.bytes.len() as u64,
        };
        // The index is needed no more.
        let index = mem::replace(&mut self.index, Index::from_parts(Vec::new(session.alloc)));
        match session.enter(self.node, index, place) {
            Ok(()) => Ok(Next::Ready(session)),
            Err(_) => {
                self.state.hold(session);
                Err(Refusal::NoMemory)
            }
        }
    }

    /// The session, after the machine was refused: as it was, the object's id drawn.
    pub fn into_session(self) -> Session
        requires { IsSome (set_session self) }
        ensures { set_session self ≡ Some result }
    {
        let SetChunk { state, .. } = self;
        match state {
            Putting::Object(session) => session,
            Putting::Refused(session) => session,
            Putting::Ended => unreachable!(),
        }
    }

    /// One operation of the store.
    pub fn step<S: Store>(&mut self, store: &mut S) -> Result<Next<Session>, Refusal>
        requires live { IsAsk (set_rest self.old) }
        requires polite { IsTrue (S.view store.old).caller.tells
            → NextIsPolite (set_rest self.old) (S.view store.old).seen }
        ensures step { Steps (S.view store.old) (S.view store.new) (set_rest self.old)
            (set_rest self.new) result }
        ensures falls { set_left self.new < set_left self.old }
        ensures session { OnErr result (set_session self.new ≡ set_session self.old) }
        ensures listed { IfErr result MayRefuseSet }
    {
        drive(self, store)
    }
}
