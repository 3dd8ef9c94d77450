//! Where the chunks of a box are.

ghost use Rattle.std.specs.Prelude.{◌≡◌, ◌+◌, ◌-◌, ◌^◌, length, drop};
ghost use Rattle.zarr_tree.specs.Nodes.{chunk_length};
ghost use Rattle.held_manifest.specs.Places.{place_seen};
ghost use Rattle.session.specs.Sessions.{SessionState};
ghost use Rattle.array_region.specs.Reading.{Kept, own_kept, place_kept, in_file, listed_kept, chunk_kept};
ghost use Rattle.array_region.specs.Getting.{Looks, kept_of, reads_of};

use crate::kept_manifest::{KeptManifest, file_kept};
use crate::plans::Plan;
use crate::stages::{Found, Stage};
use held_manifest::PlaceView;
use ice_ids::Id12;
use ice_items::Items;
use manifest_file::Place;
use manifest_index::candidates;
use repo_objects::{Unread, inline_read};
use session::{Session, Value};
use std::alloc::Global;
use store_api::{Key, Refusal};
use zarr_path::Index;

impl Plan {
    /// What a place of the session's own comes to.
    fn at_own(&self, alloc: Global, index: Index, place: &Place) -> Result<Found, Refusal>
        ensures { (kept : Kept) → Looks (reads_of self.now) kept index 1
            (own_kept (chunk_length self.now.array) kept place.now) result }
    {
        match place {
            Place::Inline(bytes) => match bytes.copy(alloc) {
                Ok(bytes) => Ok(Found::Told(index, Value::Bytes(bytes))),
                Err(_) => Err(Refusal::NoMemory),
            },
            Place::Object { id, offset, length } => Ok(Found::Gets(Stage::Object {
                index,
                id: *id,
                offset: *offset,
                length: *length,
            })),
        }
    }

    /// What a place that a manifest tells comes to.
    pub(crate) fn at_place(
        &self,
        alloc: Global,
        index: Index,
        manifest: Id12,
        place: PlaceView<'_>,
    ) -> Result<Found, Refusal>
        ensures { (kept : Kept) → Looks (reads_of self.now) kept index 1
            (place_kept (chunk_length self.now.array) manifest kept (place_seen place.entry))
            result }
    {
        match place {
            PlaceView::Inline(bytes) => match inline_read(alloc, self.want(), bytes) {
                Ok(read) => Ok(Found::Told(index, Value::Bytes(read))),
                Err(Unread::NoMemory) => Err(Refusal::NoMemory),
                Err(Unread::Bad(bad)) => Err(Refusal::BadFile(Key::Manifest(manifest), bad)),
            },
            PlaceView::Object { id, offset, length } => Ok(Found::Gets(Stage::Object {
                index,
                id,
                offset,
                length,
            })),
        }
    }

    /// Looks for a chunk in the manifests of a list from a number on: in the one that is kept at once, and another one is to be
    /// got.
    pub(crate) fn look_up(
        &self,
        alloc: Global,
        kept: &Option<KeptManifest>,
        index: Index,
        ids: Items<Id12>,
        at: usize,
    ) -> Result<Found, Refusal>
        ensures { Looks (reads_of self.now) (kept_of kept.now) index (length ids - at + 1)
            (listed_kept (chunk_length self.now.array) self.now.node index (drop at ids)
            (kept_of kept.now)) result }
    {
        for next in at..ids.len() {
            let id = ids.as_slice()[next];
            let Some(held) = file_kept(kept, id) else {
                let at = next + 1;
                return Ok(Found::Gets(Stage::Manifest { index, id, ids, at }));
            };
            if let Some(place) = held.seek(self.node, &index) {
                return self.at_place(alloc, index, id, place);
            }
        }
        Ok(Found::Told(index, Value::Fill))
    }

    /// A manifest was read: it is kept, and the chunk is where it has it, if it has it.
    pub(crate) fn in_file(
        &self,
        alloc: Global,
        kept: &mut Option<KeptManifest>,
        index: Index,
        ids: Items<Id12>,
        at: usize,
        got: KeptManifest,
    ) -> Result<Found, Refusal>
        ensures { Looks (reads_of self.now) (kept_of kept.new) index (length ids - at + 1)
            (in_file (chunk_length self.now.array) self.now.node index got.id
            (listed_kept (chunk_length self.now.array) self.now.node index (drop at ids)) got.held)
            result }
    {
        match got.held.seek(self.node, &index) {
            Some(place) => {
                let found = self.at_place(alloc, index, got.id, place);
                *kept = Some(got);
                found
            }
            None => {
                *kept = Some(got);
                self.look_up(alloc, kept, index, ids, at)
            }
        }
    }

    /// Looks for a chunk.
    pub(crate) fn look(
        &self,
        alloc: Global,
        session: &Session,
        kept: &Option<KeptManifest>,
        index: Index,
    ) -> Result<Found, Refusal>
        ensures { Looks (reads_of self.now) (kept_of kept.now) index (2 ^ 64 - 1)
            (chunk_kept session.now self.now.region.path (chunk_length self.now.array) self.now.node
            index (kept_of kept.now)) result }
    {
        match session.chunk_entry(self.node, &index) {
            Some(Some(place)) => self.at_own(alloc, index, place),
            Some(None) => Ok(Found::Told(index, Value::Fill)),
            None => {
                let manifests = session.manifests(&self.region.path, self.node);
                let Ok(ids) = candidates(alloc, &manifests, &index) else {
                    return Err(Refusal::NoMemory);
                };
                self.look_up(alloc, kept, index, ids, 0)
            }
        }
    }
}
