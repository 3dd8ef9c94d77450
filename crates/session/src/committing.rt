//! What a commit asks of its session.

ghost use Rattle.std.specs.Prelude.{◌≡◌, None, IfOk};
ghost use Rattle.ice_ids.specs.Drawing.{drawn12, after12};
ghost use Rattle.flat_tables.specs.Rows.{Ascends};
ghost use Rattle.snapshot_file.specs.Layout.{snapshot_bytes};
ghost use Rattle.changed_snapshot.specs.Rows.{list_key, snapshot_over};
ghost use Rattle.changed_snapshot.specs.Written.{Writes};
ghost use Rattle.zarr_tree.specs.Held.{touched};
ghost use Rattle.zarr_tree.specs.Touched.{is_untouched};
ghost use Rattle.zarr_changes.specs.Sets.{changed_arrays, chunks_of};
ghost use Rattle.session.specs.Sessions.{base_nodes};

use crate::Session;
use changed_snapshot::{NewList, Stamp, write_over};
use flat_tables::WriteFault;
use ice_base::{Bytes, Text};
use ice_ids::{Id8, Id12};
use ice_items::Items;
use manifest_file::Place;
use std::alloc::AllocError;
use zarr_changes::ChangedArray;
use zarr_path::Index;
use zarr_tree::Touched;

impl Session {
    /// Whether there are no changes to commit.
    pub fn is_unchanged(&self) -> bool
        ensures { result ≡ is_untouched (touched self.now.held (base_nodes self.now)) }
    {
        self.changes.is_empty(&self.loaded)
    }

    /// What the changes touch of the base.
    pub fn net(&self) -> Result<Touched, AllocError>
        ensures { IfOk result (λ lists. lists ≡ touched self.now.held (base_nodes self.now)) }
    {
        self.changes.net(self.alloc, &self.loaded)
    }

    /// The arrays of the session's tree that have changed chunks, in the order of their paths' bytes.
    pub fn changed_arrays(&self) -> Result<Items<ChangedArray>, AllocError>
        ensures { IfOk result (λ arrays. arrays ≡ changed_arrays self.now.held
            (base_nodes self.now)) }
    {
        self.changes.changed_arrays(self.alloc, &self.loaded)
    }

    /// What the session has changed of an array's chunks, in the order of their indices.
    pub fn chunk_changes(&self, node: Id8) -> Result<Vec<(Index, Option<Place>)>, AllocError>
        ensures { IfOk result (λ changes. changes.items ≡ chunks_of self.now.held.chunks node) }
    {
        self.changes.chunk_changes(self.alloc, node)
    }

    /// The file of the snapshot of this session under an id, flushed at this time, with these new lists of manifests, which stand in
    /// the order of their paths' bytes, with this message and the session's properties; `TooLarge` where it would be longer than a
    /// file may be.
    pub fn write(
        &self,
        id: Id12,
        flushed_at: u64,
        news: &[NewList],
        message: &Text,
    ) -> Result<Bytes, WriteFault>
        requires { Ascends list_key None news.now }
        ensures { Writes result
            (snapshot_bytes (snapshot_over self.now.held news.now self.now.rows self.now.files
            (record { id = id; parent = self.now.base; flushed_at = flushed_at }) message.now
            self.now.props)) }
    {
        let stamp = Stamp {
            id,
            parent: self.base,
            flushed_at,
        };
        write_over(
            self.alloc,
            &self.loaded,
            &self.changes,
            news,
            stamp,
            message,
            &self.props,
        )
    }

    /// Draws an object id; None where none is left.
    pub fn draw(&mut self) -> Option<Id12>
        ensures drawn { result ≡ drawn12 self.old.ids }
        ensures after { self.new ≡ record self.old { ids = after12 self.old.ids } }
    {
        self.ids.next12(self.alloc)
    }
}
