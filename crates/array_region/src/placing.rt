//! Chunks that get their places.

ghost use Rattle.std.specs.Prelude.{◌≡◌, ◌≤◌, ◌<◌, ◌-◌, ◌^◌, [], length, get_or, None, Err, IfErr};
ghost use Rattle.ice_ids.specs.Drawing.{drawn12};
ghost use Rattle.session.specs.Chunks.{put_chunk, set_program};
ghost use Rattle.array_region.specs.Getting.{Looks, kept_of, chunks_of};
ghost use Rattle.array_region.specs.Writing.{bytes_put, old_chunk};
ghost use Rattle.array_region.specs.Setting.{run_entered, run_reads, Places, KeepsBox, SameTree, MayRefuseWrite};

use crate::runs::{Run, WriteStage};
use crate::stages::Found;
use ice_base::Bytes;
use manifest_file::Place;
use session::{Placed, Value};
use store_api::Refusal;
use zarr_path::Index;

/// The longest chunk, in bytes, that stands in a manifest.
const MOST_INLINE: usize = 512;

impl Run {
    /// Looks for the chunk of a number, unless the box covers it.
    pub(crate) fn look(&self, at: usize) -> Result<Found, Refusal>
        requires { at < length (chunks_of (run_reads self.now)) }
        ensures { Looks (run_reads self.now) (kept_of self.now.kept)
            (get_or (chunks_of (run_reads self.now)) at []) (2 ^ 64 - 1)
            (old_chunk self.now.session (run_reads self.now)
            (get_or (chunks_of (run_reads self.now)) at []) (kept_of self.now.kept)) result }
    {
        let plan = &self.given.plan;
        let Ok(index) = plan.index_of(self.alloc, at) else {
            return Err(Refusal::NoMemory);
        };
        if plan.covers(&index) {
            return Ok(Found::Told(index, Value::Fill));
        }
        plan.look(self.alloc, &self.session, &self.kept, index)
    }

    /// Gives a chunk with these bytes its place: a short one is held, and an object is to be put for a long one. Whether one is
    /// to be put.
    fn place_bytes(&mut self, index: Index, bytes: Bytes) -> Result<bool, Refusal>
        requires { self.old.stage ≡ WriteStage.Ended }
        ensures places { Places (put_chunk (run_entered self.old) (run_reads self.old).path index
            bytes) self.old self.new result }
        ensures spent { 512 < length bytes → drawn12 self.old.session.ids ≡ None
            → result ≡ Err Refusal.IdsSpent }
        ensures stays { KeepsBox self.old self.new }
        ensures tree { SameTree self.old.session self.new.session }
        ensures listed { IfErr result MayRefuseWrite }
    {
        if bytes.len() <= MOST_INLINE {
            let place = Place::Inline(bytes);
            return match self.placed.push(Placed { index, place }) {
                Ok(()) => Ok(false),
                Err(_) => Err(Refusal::NoMemory),
            };
        }
        let Some(id) = self.session.draw() else {
            return Err(Refusal::IdsSpent);
        };
        self.stage.follow(WriteStage::Puts { index, id, bytes });
        Ok(true)
    }

    /// Sets a chunk that was read. Whether an object is to be put for it.
    pub(crate) fn place(&mut self, index: Index, value: Value) -> Result<bool, Refusal>
        requires { self.old.stage ≡ WriteStage.Ended }
        ensures places { Places (set_program (run_entered self.old) (run_reads self.old).path index
            (bytes_put (run_reads self.old) index self.old.given.numbers.items value)) self.old
            self.new result }
        ensures stays { KeepsBox self.old self.new }
        ensures tree { SameTree self.old.session self.new.session }
        ensures listed { IfErr result MayRefuseWrite }
    {
        let Ok(bytes) = self.given.bytes_over(self.alloc, &index, value) else {
            return Err(Refusal::NoMemory);
        };
        let given = &self.given;
        let len = bytes.len() as u64;
        match self.session.may_set(&given.plan.region.path, &index, len) {
            Ok(()) => self.place_bytes(index, bytes),
            // It never comes: the chunk lies in the grid, and has its length.
            Err(_) => Err(Refusal::NoMemory),
        }
    }
}
