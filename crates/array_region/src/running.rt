//! How the writing of a box goes on.

ghost use Rattle.std.specs.Prelude.{◌≡◌, ◌≤◌, ◌<◌, ◌+◌, ◌-◌, ◌^◌, ℕ, Bool, List, Ok, Err, length, drop, IfErr};
ghost use Rattle.store_api.specs.Program.{Done};
ghost use Rattle.zarr_tree.specs.Nodes.{chunk_length};
ghost use Rattle.store_api.specs.Running.{Program as TheProgram};
ghost use Rattle.store_api.specs.Driving.{Awaits};
ghost use Rattle.array_region.specs.Reading.{Chunk, object_kept, got_kept, listed_kept};
ghost use Rattle.array_region.specs.Getting.{Finds, kept_of};
ghost use Rattle.array_region.specs.Setting.{box_written, object_put, set_after, run_entered, run_going, run_met, run_left, run_old, run_reads, run_rest, chunks_left, Rests, RunLands, RunTook, SameTree, KeepsBox, Takes, UnlessReady, MayRefuseWrite};

use crate::kept_manifest::KeptManifest;
use crate::runs::{Run, WriteStage};
use crate::stages::{Found, Stage};
use ice_base::Bytes;
use ice_ids::Id12;
use ice_items::Items;
use manifest_file::Place;
use repo_read::{manifest_told, object_told};
use session::{Placed, Value};
use std::mem;
use store_api::{Key, New, Next, Refusal, Reply};
use zarr_path::Index;

impl Run {
    /// Enters the chunks, where each has its place.
    fn finish(&mut self) -> Result<Next<()>, Refusal>
        requires { self.old.stage ≡ WriteStage.Ended }
        ensures lands { RunLands (Done (Ok (run_entered self.old))) self.new result }
        ensures falls { run_left self.new ≡ chunks_left (run_reads self.old) self.old.at }
        ensures tree { UnlessReady result (SameTree self.old.session self.new.session) }
        ensures listed { IfErr result MayRefuseWrite }
    {
        let placed = mem::replace(&mut self.placed, Vec::new(self.alloc));
        match self
            .session
            .enter_chunks(&self.given.plan.region.path, placed)
        {
            Ok(()) => Ok(Next::Ready(())),
            Err(_) => Err(Refusal::NoMemory),
        }
    }

    /// A chunk was read, and is set, or something is to be got for it. Whether an operation comes next.
    fn take(&mut self, found: Found) -> Result<bool, Refusal>
        requires { self.old.stage ≡ WriteStage.Ended }
        ensures takes { (index : List ℕ) (most : ℕ) (p : TheProgram Chunk)
            → Finds (run_reads self.old) (kept_of self.old.kept) index most p found
            → Takes (box_written p (run_old self.old) (run_entered self.old) (run_reads self.old)
            self.old.given.numbers.items index (run_met self.old)) (most + 1) self.new result }
        ensures rests { Rests result self.new.stage }
        ensures stays { KeepsBox self.old self.new }
        ensures tree { SameTree self.old.session self.new.session }
        ensures listed { IfErr result MayRefuseWrite }
    {
        match found {
            Found::Told(index, value) => self.place(index, value),
            Found::Gets(stage) => {
                self.stage.follow(WriteStage::Reads(stage));
                Ok(true)
            }
        }
    }

    /// Writes the chunks from the next one on: up to one for which an operation comes, or to the end.
    pub(crate) fn go_on(&mut self) -> Result<Next<()>, Refusal>
        requires { self.old.stage ≡ WriteStage.Ended }
        ensures lands { RunLands (run_going self.old) self.new result }
        ensures falls { run_left self.new ≤ chunks_left (run_reads self.old) self.old.at }
        ensures few { chunks_left (run_reads self.old) self.old.at ≤ 2 ^ 129 }
        ensures tree { UnlessReady result (SameTree self.old.session self.new.session) }
        ensures listed { IfErr result MayRefuseWrite }
    {
        for at in self.at..self.given.plan.met() {
            let found = match self.look(at) {
                Ok(found) => found,
                Err(why) => return Err(why),
            };
            self.at = at + 1;
            match self.take(found) {
                Ok(true) => return Ok(Next::Again),
                Ok(false) => {}
                Err(why) => return Err(why),
            }
        }
        self.finish()
    }

    /// A chunk was read, or something is to be got for it.
    fn on_found(&mut self, found: Found) -> Result<Next<()>, Refusal>
        requires { self.old.stage ≡ WriteStage.Ended }
        ensures lands { (index : List ℕ) (most : ℕ) (p : TheProgram Chunk)
            → Finds (run_reads self.old) (kept_of self.old.kept) index most p found
            → RunLands (box_written p (run_old self.old) (run_entered self.old) (run_reads self.old)
            self.old.given.numbers.items index (run_met self.old)) self.new result }
        ensures falls { (index : List ℕ) (most : ℕ) (p : TheProgram Chunk)
            → Finds (run_reads self.old) (kept_of self.old.kept) index most p found
            → run_left self.new ≤ chunks_left (run_reads self.old) self.old.at + (most + 1) }
        ensures tree { UnlessReady result (SameTree self.old.session self.new.session) }
        ensures listed { IfErr result MayRefuseWrite }
    {
        match self.take(found) {
            Ok(true) => Ok(Next::Again),
            Ok(false) => self.go_on(),
            Err(why) => Err(why),
        }
    }

    /// A manifest was got.
    fn on_manifest(
        &mut self,
        index: Index,
        id: Id12,
        ids: Items<Id12>,
        at: usize,
        reply: Reply,
    ) -> Result<Next<()>, Refusal>
        requires ended { self.old.stage ≡ WriteStage.Ended }
        requires awaited { Awaits (got_kept (chunk_length (run_reads self.old).array)
            (run_reads self.old).node index id
            (listed_kept (chunk_length (run_reads self.old).array) (run_reads self.old).node index
            (drop at ids))) reply }
        ensures took { RunTook
            (box_written (got_kept (chunk_length (run_reads self.old).array)
            (run_reads self.old).node index id
            (listed_kept (chunk_length (run_reads self.old).array) (run_reads self.old).node index
            (drop at ids))) (run_old self.old) (run_entered self.old) (run_reads self.old)
            self.old.given.numbers.items index (run_met self.old)) reply self.new result }
        ensures falls { run_left self.new < chunks_left (run_reads self.old) self.old.at
            + (length ids - at + 3) }
        ensures tree { UnlessReady result (SameTree self.old.session self.new.session) }
        ensures listed { IfErr result MayRefuseWrite }
    {
        let held = match manifest_told(id, reply) {
            Ok(held) => held,
            Err(why) => return Err(why),
        };
        let got = KeptManifest { id, held };
        let given = &self.given;
        match given
            .plan
            .in_file(self.alloc, &mut self.kept, index, ids, at, got)
        {
            Ok(found) => self.on_found(found),
            Err(why) => Err(why),
        }
    }

    /// The object of a chunk was got.
    fn on_object(
        &mut self,
        index: Index,
        id: Id12,
        offset: u64,
        length: u64,
        reply: Reply,
    ) -> Result<Next<()>, Refusal>
        requires ended { self.old.stage ≡ WriteStage.Ended }
        requires awaited { Awaits (object_kept (chunk_length (run_reads self.old).array)
            (kept_of self.old.kept) id offset length) reply }
        ensures took { RunTook
            (box_written (object_kept (chunk_length (run_reads self.old).array)
            (kept_of self.old.kept) id offset length) (run_old self.old) (run_entered self.old)
            (run_reads self.old) self.old.given.numbers.items index (run_met self.old)) reply
            self.new result }
        ensures falls { run_left self.new < chunks_left (run_reads self.old) self.old.at + 2 }
        ensures tree { UnlessReady result (SameTree self.old.session self.new.session) }
        ensures listed { IfErr result MayRefuseWrite }
    {
        match object_told(self.given.plan.want(), id, offset, length, reply) {
            Ok(bytes) => self.on_found(Found::Told(index, Value::Bytes(bytes))),
            Err(why) => Err(why),
        }
    }

    /// The object of a chunk was put.
    fn on_put(
        &mut self,
        index: Index,
        id: Id12,
        bytes: Bytes,
        reply: Reply,
    ) -> Result<Next<()>, Refusal>
        requires ended { self.old.stage ≡ WriteStage.Ended }
        requires awaited { Awaits (object_put (run_entered self.old) (run_reads self.old).path index
            bytes id) reply }
        ensures took { RunTook
            (set_after (object_put (run_entered self.old) (run_reads self.old).path index bytes id)
            (run_old self.old) (run_reads self.old) self.old.given.numbers.items
            (kept_of self.old.kept) (run_met self.old)) reply self.new result }
        ensures failed { (done : Bool) → reply ≡ Reply.Failed done
            → result ≡ Err Refusal.StoreFault }
        ensures falls { run_left self.new < chunks_left (run_reads self.old) self.old.at + 1 }
        ensures tree { UnlessReady result (SameTree self.old.session self.new.session) }
        ensures listed { IfErr result MayRefuseWrite }
    {
        let new = match reply {
            Reply::New(new) => new,
            _ => return Err(Refusal::StoreFault),
        };
        if let New::Present { version: _, now: _ } = new {
            return Err(Refusal::IdTaken(Key::Chunk(id)));
        }
        let place = Place::Object {
            id,
            offset: 0,
            length: bytes.len() as u64,
        };
        match self.placed.push(Placed { index, place }) {
            Ok(()) => self.go_on(),
            Err(_) => Err(Refusal::NoMemory),
        }
    }

    /// The operation that comes next was answered.
    pub(crate) fn answer(&mut self, reply: Reply) -> Result<Next<()>, Refusal>
        requires { Awaits (run_rest self.old) reply }
        ensures took { RunTook (run_rest self.old) reply self.new result }
        ensures falls { run_left self.new < run_left self.old }
        ensures tree { UnlessReady result (SameTree self.old.session self.new.session) }
        ensures listed { IfErr result MayRefuseWrite }
    {
        match mem::replace(&mut self.stage, WriteStage::Ended) {
            WriteStage::Reads(Stage::Manifest { index, id, ids, at }) => {
                self.on_manifest(index, id, ids, at, reply)
            }
            WriteStage::Reads(
                Stage::Object {
                    index,
                    id,
                    offset,
                    length,
                },
            ) => self.on_object(index, id, offset, length, reply),
            WriteStage::Puts { index, id, bytes } => self.on_put(index, id, bytes, reply),
            WriteStage::Reads(Stage::Ended) | WriteStage::Ended => unreachable!(),
        }
    }
}
