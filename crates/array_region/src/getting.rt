//! Reading boxes of numbers.

ghost use Rattle.std.specs.Prelude.{◌≡◌, ◌≤◌, ◌<◌, ◌+◌, ◌-◌, ◌^◌, false, ℕ, List, [], length, drop, get_or, IfOk, IfErr};
ghost use Rattle.store_api.specs.Program.{IsAsk, Steps, is_fault};
ghost use Rattle.store_api.specs.Running.{Program as TheProgram};
ghost use Rattle.store_api.specs.Driving.{Awaits, Took};
ghost use Rattle.zarr_tree.specs.Nodes.{chunk_length};
ghost use Rattle.repo_read.specs.Programs.{MayRefuseObject};
ghost use Rattle.session.specs.Chunks.{read_object};
ghost use Rattle.session.specs.inside.Working.{LandsCalmly};
ghost use Rattle.array_region.specs.Reading.{Chunk, object_kept, in_file, got_kept, listed_kept, chunk_kept, read_chunks, region_program, box_refused, ToldBeside};
ghost use Rattle.array_region.specs.Getting.{region_rest, region_left, region_session, reads_of, kept_of, chunks_of, box_after, left_behind, Finds, Looks, Begins, IsFew};

use crate::kept_manifest::KeptManifest;
use crate::planning::planned;
use crate::plans::{Plan, Region};
use crate::stages::{Found, Stage};
use held_manifest::HeldManifest;
use ice_ids::Id12;
use ice_items::Items;
use repo_read::{manifest_told, object_told};
use session::{Session, Value};
use std::alloc::{AllocError, Global};
use std::mem;
use store_api::{Key, Machine, Next, Refusal, Reply, Request, Store, drive};
use zarr_path::Index;

/// The numbers of a box, in C order.
pub type Numbers = Items<i128>;

/// What the reading of a box came to.
#[derive(Drop)]
pub enum Getting {
    /// The box was read.
    Ready(Session, Numbers),
    /// Manifests or objects are to be got.
    Again(RegionGet),
}

/// A machine that reads the numbers of a box, in C order: it takes the chunks that the box meets in order of their indices, and
/// keeps the manifest that it got last. The session stays in it. It may answer `Missing`, `BadFile`, `StoreFault` or `NoMemory`
/// instead.
#[derive(Drop)]
pub struct RegionGet {
    alloc: Global,
    session: Session,
    plan: Plan,
    /// The numbers of the box: those of the chunks that were read, and the fill value.
    numbers: Vec<i128>,
    /// How many of the chunks that the box meets were begun.
    at: usize,
    kept: Option<KeptManifest>,
    stage: Stage,
}

impl RegionGet {
    /// Reads the numbers of a box. Where the session has all that it needs, they are answered at once; else a machine gets what
    /// is wanting. It is refused by `NoNode`, `NotArray`, `OutOfShape`, `Large`, or then by what the session's own chunks tell,
    /// the first in this order, and the session comes back as it was.
    pub fn start(
        alloc: Global,
        session: Session,
        region: Region,
    ) -> Result<Getting, (Session, Refusal)>
        ensures begins { Begins (region_program session region.path region.from.items
            region.to.items) session result }
        ensures outright { ToldBeside (box_refused session region.path region.from.items
            region.to.items) session result }
        ensures few { IfOk result IsFew }
        ensures calm { IfErr result (λ refused. is_fault refused.1 ≡ false) }
    {
        let plan = match planned(alloc, &session, region) {
            Ok(plan) => plan,
            Err(why) => return Err((session, why)),
        };
        let Ok(numbers) = vec![in alloc; plan.array.fill; plan.count] else {
            drop(plan);
            return Err((session, Refusal::NoMemory));
        };
        let mut machine = RegionGet {
            alloc,
            session,
            plan,
            numbers,
            at: 0,
            kept: None,
            stage: Stage::Ended,
        };
        match machine.go_on() {
            Ok(Next::Again) => Ok(Getting::Again(machine)),
            Ok(Next::Ready(numbers)) => Ok(Getting::Ready(machine.into_session(), numbers)),
            Err(why) => Err((machine.into_session(), why)),
        }
    }

    /// The session, which is as it was.
    pub fn into_session(self) -> Session
        ensures { result ≡ region_session self }
    {
        let RegionGet {
            session,
            plan,
            numbers,
            kept,
            stage,
            ..
        } = self;
        drop(plan);
        drop(numbers);
        drop(kept);
        drop(stage);
        session
    }

    /// One operation of the store.
    pub fn step<S: Store>(&mut self, store: &mut S) -> Result<Next<Numbers>, Refusal>
        requires { IsAsk (region_rest self.old) }
        ensures step { Steps (S.view store.old) (S.view store.new) (region_rest self.old)
            (region_rest self.new) result }
        ensures falls { region_left self.new < region_left self.old }
        ensures session { region_session self.new ≡ region_session self.old }
        ensures listed { IfErr result MayRefuseObject }
    {
        drive(self, store)
    }
}

impl RegionGet {
    /// Looks for the chunk of a number.
    fn look(&self, at: usize) -> Result<Found, Refusal>
        requires { at < length (chunks_of (reads_of self.now.plan)) }
        ensures { Looks (reads_of self.now.plan) (kept_of self.now.kept)
            (get_or (chunks_of (reads_of self.now.plan)) at []) (2 ^ 64 - 1)
            (chunk_kept self.now.session self.now.plan.region.path
            (chunk_length self.now.plan.array) self.now.plan.node
            (get_or (chunks_of (reads_of self.now.plan)) at []) (kept_of self.now.kept)) result }
    {
        let Ok(index) = self.plan.index_of(self.alloc, at) else {
            return Err(Refusal::NoMemory);
        };
        self.plan.look(self.alloc, &self.session, &self.kept, index)
    }

    /// Reads the chunks from the next one on: up to one for which something is to be got, or to the end.
    fn go_on(&mut self) -> Result<Next<Numbers>, Refusal>
        requires { self.old.stage ≡ Stage.Ended }
        ensures took { LandsCalmly (read_chunks self.old.session (reads_of self.old.plan)
            (kept_of self.old.kept) self.old.numbers.items
            (drop self.old.at (chunks_of (reads_of self.old.plan)))) (region_rest self.new) result }
        ensures falls { region_left self.new ≤ left_behind (reads_of self.old.plan) self.old.at }
        ensures few { left_behind (reads_of self.old.plan) self.old.at ≤ 2 ^ 128 }
        ensures kept { region_session self.new ≡ region_session self.old }
        ensures listed { IfErr result MayRefuseObject }
    {
        for at in self.at..self.plan.met() {
            let found = match self.look(at) {
                Ok(found) => found,
                Err(why) => return Err(why),
            };
            self.at = at + 1;
            match found {
                Found::Told(index, value) => {
                    self.plan.enter(&index, &value, self.numbers.as_mut_slice());
                }
                Found::Gets(stage) => {
                    self.stage.follow(stage);
                    return Ok(Next::Again);
                }
            }
        }
        let numbers = mem::replace(&mut self.numbers, Vec::new(self.alloc));
        Ok(Next::Ready(Numbers::from_vec(numbers)))
    }

    /// A chunk was found, or something is to be got for it.
    fn on_found(&mut self, found: Found) -> Result<Next<Numbers>, Refusal>
        requires { self.old.stage ≡ Stage.Ended }
        ensures took { (index : List ℕ) (most : ℕ) (p : TheProgram Chunk)
            → Finds (reads_of self.old.plan) (kept_of self.old.kept) index most p found
            → LandsCalmly (box_after p self.old.session (reads_of self.old.plan)
            self.old.numbers.items index (drop self.old.at (chunks_of (reads_of self.old.plan))))
            (region_rest self.new) result }
        ensures falls { (index : List ℕ) (most : ℕ) (p : TheProgram Chunk)
            → Finds (reads_of self.old.plan) (kept_of self.old.kept) index most p found
            → region_left self.new ≤ left_behind (reads_of self.old.plan) self.old.at + most }
        ensures kept { region_session self.new ≡ region_session self.old }
        ensures listed { IfErr result MayRefuseObject }
    {
        match found {
            Found::Told(index, value) => {
                self.plan.enter(&index, &value, self.numbers.as_mut_slice());
                self.go_on()
            }
            Found::Gets(stage) => {
                self.stage.follow(stage);
                Ok(Next::Again)
            }
        }
    }

    /// A manifest was read: it is kept, and the chunk is where it has it, if it has it.
    fn on_file(
        &mut self,
        index: Index,
        id: Id12,
        ids: Items<Id12>,
        at: usize,
        held: HeldManifest,
    ) -> Result<Found, Refusal>
        ensures found { Looks (reads_of self.old.plan) (kept_of self.new.kept) index
            (length ids - at + 1) (in_file (chunk_length self.old.plan.array) self.old.plan.node
            index id (listed_kept (chunk_length self.old.plan.array) self.old.plan.node index
            (drop at ids)) held) result }
        ensures plan { self.new.plan ≡ self.old.plan }
        ensures session { self.new.session ≡ self.old.session }
        ensures numbers { self.new.numbers ≡ self.old.numbers }
        ensures at { self.new.at ≡ self.old.at }
        ensures stage { self.new.stage ≡ self.old.stage }
    {
        match held.seek(self.plan.node, &index) {
            Some(place) => {
                let found = self.plan.at_place(self.alloc, index, id, place);
                self.kept = Some(KeptManifest { id, held });
                found
            }
            None => {
                self.kept = Some(KeptManifest { id, held });
                self.plan.look_up(self.alloc, &self.kept, index, ids, at)
            }
        }
    }

    /// A manifest was got.
    fn on_manifest(
        &mut self,
        index: Index,
        id: Id12,
        ids: Items<Id12>,
        at: usize,
        reply: Reply,
    ) -> Result<Next<Numbers>, Refusal>
        requires ended { self.old.stage ≡ Stage.Ended }
        requires awaited { Awaits (got_kept (chunk_length self.old.plan.array) self.old.plan.node index
            id (listed_kept (chunk_length self.old.plan.array) self.old.plan.node index
            (drop at ids))) reply }
        ensures took { Took
            (box_after (got_kept (chunk_length self.old.plan.array) self.old.plan.node index id
            (listed_kept (chunk_length self.old.plan.array) self.old.plan.node index (drop at ids)))
            self.old.session (reads_of self.old.plan) self.old.numbers.items index
            (drop self.old.at (chunks_of (reads_of self.old.plan)))) reply (region_rest self.new)
            result }
        ensures falls { region_left self.new < left_behind (reads_of self.old.plan) self.old.at
            + (length ids - at + 2) }
        ensures kept { region_session self.new ≡ region_session self.old }
        ensures listed { IfErr result MayRefuseObject }
    {
        let held = match manifest_told(id, reply) {
            Ok(held) => held,
            Err(why) => return Err(why),
        };
        match self.on_file(index, id, ids, at, held) {
            Ok(found) => self.on_found(found),
            Err(why) => Err(why),
        }
    }

    /// The object of a chunk was got.
    fn on_object(
        &mut self,
        index: Index,
        id: Id12,
        offset: u64,
        length: u64,
        reply: Reply,
    ) -> Result<Next<Numbers>, Refusal>
        requires ended { self.old.stage ≡ Stage.Ended }
        requires awaited { Awaits (read_object (chunk_length self.old.plan.array) id offset length)
            reply }
        ensures took { Took
            (box_after (object_kept (chunk_length self.old.plan.array) (kept_of self.old.kept) id
            offset length) self.old.session (reads_of self.old.plan) self.old.numbers.items index
            (drop self.old.at (chunks_of (reads_of self.old.plan)))) reply (region_rest self.new)
            result }
        ensures falls { region_left self.new < left_behind (reads_of self.old.plan) self.old.at
            + 1 }
        ensures kept { region_session self.new ≡ region_session self.old }
        ensures listed { IfErr result MayRefuseObject }
    {
        match object_told(self.plan.want(), id, offset, length, reply) {
            Ok(bytes) => self.on_found(Found::Told(index, Value::Bytes(bytes))),
            Err(why) => Err(why),
        }
    }
}

impl Machine for RegionGet {
    type Answer = Numbers;

    ghost rest = { region_rest };

    ghost left = { region_left };

    ghost keeps = { λ result old new. region_session new ≡ region_session old };

    ghost may_refuse = { MayRefuseObject };

    fn request(&self) -> Result<Request<'_>, AllocError> {
        match &self.stage {
            Stage::Manifest { id, .. } => Ok(Request::Get {
                key: Key::Manifest(*id),
            }),
            Stage::Object { id, .. } => Ok(Request::Get {
                key: Key::Chunk(*id),
            }),
            Stage::Ended => unreachable!(),
        }
    }

    fn answer(&mut self, reply: Reply) -> Result<Next<Numbers>, Refusal> {
        match mem::replace(&mut self.stage, Stage::Ended) {
            Stage::Manifest { index, id, ids, at } => self.on_manifest(index, id, ids, at, reply),
            Stage::Object {
                index,
                id,
                offset,
                length,
            } => self.on_object(index, id, offset, length, reply),
            Stage::Ended => unreachable!(),
        }
    }

    fn stop(&mut self) {
        drop(mem::replace(&mut self.stage, Stage::Ended));
    }

    ghost may_starve = { tt };
}
