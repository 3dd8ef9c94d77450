//! Reading chunks.

ghost use Rattle.std.specs.Prelude.{◌≡◌, ◌<◌, ◌+◌, ◌-◌, ◌^◌, ℕ, List, ◌∷◌, length, drop, slice_get, IfErr, IfOk, IfSome};
ghost use Rattle.ice_ids.specs.declared.Id8.{Id8 as TheNode};
ghost use Rattle.zarr_tree.specs.Held.{entry_in};
ghost use Rattle.zarr_changes.specs.Sets.{chunk_found};
ghost use Rattle.held_manifest.specs.Places.{place_seen};
ghost use Rattle.store_api.specs.Program.{IsAsk, Steps};
ghost use Rattle.store_api.specs.Driving.{Awaits, Took};
ghost use Rattle.session.specs.Sessions.{nodes_seen};
ghost use Rattle.session.specs.Chunks.{get_program, read_at, read_listed, read_object, read_own, read_place};
ghost use Rattle.repo_read.specs.Programs.{MayRefuseObject};
ghost use Rattle.session.specs.Getting.{get_rest, get_left, get_session, GetBegun, GetsOutright, IsShort};
ghost use Rattle.session.specs.inside.Working.{Begins, LandsCalmly};

use crate::Session;
use crate::chunks::Value;
use crate::editing::refusal_of_edit;
use crate::reading::{First, Reading};
use held_manifest::PlaceView;
use ice_ids::{Id8, Id12};
use ice_items::Items;
use manifest_file::Place;
use manifest_index::candidates;
use repo_objects::{Unread, inline_read};
use repo_read::{manifest_told, object_told};
use std::alloc::{AllocError, Global};
use std::mem;
use store_api::{Key, Machine, Next, Refusal, Reply, Request, Store, drive};
use zarr_changes::ChunkAt;
use zarr_path::{Index, Path};

/// What the reading of a chunk came to.
#[derive(Drop)]
pub enum Getting {
    /// The chunk was read.
    Ready(Session, Value),
    /// Manifests or an object are to be got.
    Again(GetChunk),
}

/// A machine that reads a chunk: it gets the manifests that may have it, one after another, and then the object that has its
/// bytes. The session stays in it. It may answer `Missing`, `BadFile`, `StoreFault` or `NoMemory` instead.
#[derive(Drop)]
pub struct GetChunk {
    alloc: Global,
    session: Session,
    node: Id8,
    index: Index,
    want: u64,
    state: Reading,
}

/// How the chunk at a place of the session's own is read.
fn first_own(alloc: Global, place: &Place) -> Result<First, AllocError>
    ensures { IfOk result (λ first. (want : ℕ) (node : TheNode) (index : List ℕ)
        → Begins (read_own want place.now) want node index first) }
{
    match place {
        Place::Inline(bytes) => Ok(First::Told(Value::Bytes(bytes.copy(alloc)?))),
        Place::Object { id, offset, length } => Ok(First::Reads(Reading::Object {
            id: *id,
            offset: *offset,
            length: *length,
        })),
    }
}

/// The manifest of a number, if there is one.
fn id_at(ids: &Items<Id12>, at: usize) -> Option<Id12>
    ensures value { result ≡ slice_get ids.now at }
    ensures few { length ids.now < 2 ^ 64 }
    ensures within { IfSome result (λ id. at < length ids.now) }
{
    ids.as_slice().get(at).copied()
}

/// How a chunk's manifests are read.
fn first_listed(ids: Items<Id12>) -> First
    ensures { (want : ℕ) (node : TheNode) (index : List ℕ)
        → Begins (read_listed want node index ids) want node index result }
{
    match id_at(&ids, 0) {
        Some(id) => First::Reads(Reading::Manifest { id, ids, at: 1 }),
        None => {
            drop(ids);
            First::Told(Value::Fill)
        }
    }
}

impl Session {
    /// How a chunk's reading begins.
    fn first_read(&self, path: &Path, index: &Index, at: ChunkAt) -> Result<First, AllocError>
        ensures { IfOk result
            (Begins (read_at self.now path.now index.now at
            (entry_in self.now.held.chunks at.node index.now)) at.bytes at.node index.now) }
    {
        match self.changes.chunk(at.node, index) {
            Some(Some(place)) => first_own(self.alloc, place),
            Some(None) => Ok(First::Told(Value::Fill)),
            None => {
                let ids = candidates(self.alloc, &self.manifests(path, at.node), index)?;
                Ok(first_listed(ids))
            }
        }
    }

    /// Reads a chunk that was found.
    fn get_found(
        self,
        path: &Path,
        index: &Index,
        at: ChunkAt,
    ) -> Result<Getting, (Session, Refusal)>
        ensures read { GetBegun
            (read_at self path.now index.now at (entry_in self.held.chunks at.node index.now)) self
            result }
        ensures few { IfOk result IsShort }
    {
        let Ok(first) = self.first_read(path, index, at) else {
            return Err((self, Refusal::NoMemory));
        };
        let state = match first {
            First::Told(value) => return Ok(Getting::Ready(self, value)),
            First::Reads(state) => state,
        };
        let Ok(index) = index.copy(self.alloc) else {
            drop(state);
            return Err((self, Refusal::NoMemory));
        };
        Ok(Getting::Again(GetChunk {
            alloc: self.alloc,
            session: self,
            node: at.node,
            index,
            want: at.bytes,
            state,
        }))
    }

    /// Reads a chunk: by the session's own entry, else by the first of the base's manifests that has it. A chunk that the session
    /// has is answered at once, as is one that no manifest may have; else a machine gets what is wanting. It is refused by
    /// `NoNode`, `NotArray` or `OutOfGrid`, the first in this order, which take no memory, or by `NoMemory`, and the session
    /// comes back as it was.
    pub fn get_chunk(self, path: &Path, index: &Index) -> Result<Getting, (Session, Refusal)>
        ensures read { GetBegun (get_program self path.now index.now) self result }
        ensures outright { GetsOutright
            (chunk_found (nodes_seen self) path.now index.now) self result }
        ensures few { IfOk result IsShort }
    {
        match self.changes.find_chunk(&self.loaded, path, index) {
            Ok(at) => self.get_found(path, index, at),
            Err(fault) => Err((self, refusal_of_edit(fault))),
        }
    }
}

impl Machine for GetChunk {
    type Answer = Value;

    ghost rest = { get_rest };

    ghost left = { get_left };

    ghost keeps = { λ result old new. get_session new ≡ get_session old };

    ghost may_refuse = { MayRefuseObject };

    #[tactic(auto, unfolding(crate::specs::Chunks::read_listed))]
    fn request(&self) -> Result<Request<'_>, AllocError> {
        match &self.state {
            Reading::Manifest { id, .. } => Ok(Request::Get {
                key: Key::Manifest(*id),
            }),
            Reading::Object { id, .. } => Ok(Request::Get {
                key: Key::Chunk(*id),
            }),
            Reading::Ended => unreachable!(),
        }
    }

    fn answer(&mut self, reply: Reply) -> Result<Next<Value>, Refusal> {
        match mem::replace(&mut self.state, Reading::Ended) {
            Reading::Manifest { id, ids, at } => self.on_manifest(id, ids, at, reply),
            Reading::Object { id, offset, length } => self.on_object(id, offset, length, reply),
            Reading::Ended => unreachable!(),
        }
    }

    fn stop(&mut self) {
        drop(mem::replace(&mut self.state, Reading::Ended));
    }

    ghost may_starve = { tt };
}

impl GetChunk {
    /// The session, which is as it was.
    pub fn into_session(self) -> Session
        ensures { result ≡ get_session self }
    {
        let GetChunk {
            session,
            index,
            state,
            ..
        } = self;
        drop(index);
        drop(state);
        session
    }

    /// One operation of the store.
    pub fn step<S: Store>(&mut self, store: &mut S) -> Result<Next<Value>, Refusal>
        requires { IsAsk (get_rest self.old) }
        ensures step { Steps (S.view store.old) (S.view store.new) (get_rest self.old)
            (get_rest self.new) result }
        ensures falls { get_left self.new < get_left self.old }
        ensures session { get_session self.new ≡ get_session self.old }
        ensures listed { IfErr result MayRefuseObject }
    {
        drive(self, store)
    }

    /// A manifest was got: the chunk is where it has it, if it has it.
    #[tactic(auto, unfolding(crate::specs::Chunks::read_listed))]
    fn on_manifest(
        &mut self,
        id: Id12,
        ids: Items<Id12>,
        at: usize,
        reply: Reply,
    ) -> Result<Next<Value>, Refusal>
        requires ended { self.old.state ≡ Reading.Ended }
        requires awaited { Awaits (read_listed self.old.want self.old.node self.old.index
            (id ∷ drop at ids)) reply }
        ensures took { Took (read_listed self.old.want self.old.node self.old.index
            (id ∷ drop at ids)) reply (get_rest self.new) result }
        ensures falls { get_left self.new < length ids - at + 2 }
        ensures kept { get_session self.new ≡ get_session self.old }
        ensures listed { IfErr result MayRefuseObject }
    {
        let held = match manifest_told(id, reply) {
            Ok(held) => held,
            Err(why) => {
                drop(ids);
                return Err(why);
            }
        };
        match held.seek(self.node, &self.index) {
            Some(place) => {
                let next = self.on_place(id, place);
                drop(held);
                drop(ids);
                next
            }
            None => {
                drop(held);
                self.on_none(ids, at)
            }
        }
    }

    /// A manifest has the chunk here.
    fn on_place(&mut self, manifest: Id12, place: PlaceView<'_>) -> Result<Next<Value>, Refusal>
        requires { self.old.state ≡ Reading.Ended }
        ensures took { LandsCalmly (read_place self.old.want manifest (place_seen place.entry))
            (get_rest self.new) result }
        ensures falls { get_left self.new < 2 }
        ensures kept { get_session self.new ≡ get_session self.old }
        ensures listed { IfErr result MayRefuseObject }
    {
        let bytes = match place {
            PlaceView::Inline(bytes) => bytes,
            PlaceView::Object { id, offset, length } => {
                self.state.follow(Reading::Object { id, offset, length });
                return Ok(Next::Again);
            }
        };
        match inline_read(self.alloc, self.want, bytes) {
            Ok(bytes) => Ok(Next::Ready(Value::Bytes(bytes))),
            Err(Unread::NoMemory) => Err(Refusal::NoMemory),
            Err(Unread::Bad(bad)) => Err(Refusal::BadFile(Key::Manifest(manifest), bad)),
        }
    }

    /// A manifest doesn't have the chunk: the next one is got, if there is one.
    fn on_none(&mut self, ids: Items<Id12>, at: usize) -> Result<Next<Value>, Refusal>
        requires { self.old.state ≡ Reading.Ended }
        ensures took { LandsCalmly (read_listed self.old.want self.old.node self.old.index
            (drop at ids)) (get_rest self.new) result }
        ensures falls { get_left self.new < length ids - at + 2 }
        ensures kept { get_session self.new ≡ get_session self.old }
        ensures listed { IfErr result MayRefuseObject }
    {
        let Some(id) = id_at(&ids, at) else {
            drop(ids);
            return Ok(Next::Ready(Value::Fill));
        };
        let at = at + 1;
        self.state.follow(Reading::Manifest { id, ids, at });
        Ok(Next::Again)
    }

    /// The object was got.
    fn on_object(
        &mut self,
        id: Id12,
        offset: u64,
        length: u64,
        reply: Reply,
    ) -> Result<Next<Value>, Refusal>
        requires ended { self.old.state ≡ Reading.Ended }
        requires awaited { Awaits (read_object self.old.want id offset length) reply }
        ensures took { Took (read_object self.old.want id offset length) reply (get_rest self.new)
            result }
        ensures falls { get_left self.new < 1 }
        ensures kept { get_session self.new ≡ get_session self.old }
        ensures listed { IfErr result MayRefuseObject }
    {
        let bytes = object_told(self.want, id, offset, length, reply)?;
        Ok(Next::Ready(Value::Bytes(bytes)))
    }
}
