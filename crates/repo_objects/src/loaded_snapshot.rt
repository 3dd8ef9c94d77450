//! Snapshots that were read, with the metadata of their nodes.

ghost use Rattle.std.specs.Prelude.{◌≡◌, not, is_some, Some, Ok, slice_get};
ghost use Rattle.snapshot_file.specs.declared.snapshot.SnapshotFile.{SnapshotFile as TheFile};
ghost use Rattle.repo_objects.specs.Readings.{kind_fault, row_fault, first_bad, read_snapshot};
ghost use Rattle.repo_objects.specs.Loading.{Loads};
ghost use Rattle.repo_objects.specs.inside.Metas.{LoadsMeta, LoadsMetas};
ghost use Rattle.repo_objects.specs.Trees.{node_of, nodes_in};
ghost use Rattle.snapshot_file.specs.Layout.{IsWritable};
ghost use Rattle.zarr_tree.specs.Rows.{node_found};

use crate::bad_objects::{Bad, Unread};
use crate::texts::TextReader;
use held_snapshot::{HeldNode, HeldNodes, HeldSnapshot, hold};
use ice_base::Bytes;
use ice_ids::Id12;
use ice_items::Items;
use std::alloc::Global;
use std::marker::Model;
use zarr_meta::{MetaFault, MetaView, SharedMeta};
use zarr_tree::{Found, TreeLike};

/// A snapshot whose file is held, and the metadata of its nodes. Contracts see what the snapshot says.
#[derive(Debug, Drop)]
pub struct Loaded {
    held: HeldSnapshot,
    metas: Items<SharedMeta>,
}

impl Model for Loaded {
    ghost use Rattle.snapshot_file.specs.declared.snapshot.SnapshotFile.{SnapshotFile as TheFile};
    ghost use Rattle.snapshot_file.specs.Layout.{IsWritable};
    ghost use Rattle.repo_objects.specs.inside.Metas.{AreMetas};

    ghost Value = { TheFile };

    ghost view = { λ l. l.held };

    ghost invariant = { λ l. IsWritable l.held × AreMetas l.held.nodes l.metas };
}

/// Whether a text that says this may stand in a row.
fn is_kind(row: &HeldNode, view: &MetaView) -> bool
    ensures { result ≡ not (is_some (kind_fault row.now.kind (Ok view.now))) }
{
    row.is_array() == matches!(view, MetaView::Array(_))
}

impl Loaded {
    /// Holds the file of a snapshot, to be read in place, under the id of its key, and reads the metadata of its nodes. Nothing
    /// of the file is copied but the texts of nodes, and of equal ones that follow each other one. (Icechunk specification
    /// version 1, "Snapshots"; that the texts of nodes are metadata, and that ids agree, is own.)
    pub fn read(alloc: Global, id: Id12, file: Bytes) -> Result<Loaded, Unread>
        ensures { Loads (read_snapshot id file) result }
    {
        let _bytes = file.as_slice();
        let held = match hold(file) {
            Ok(held) => held,
            Err((_, fault)) => return Err(Unread::Bad(Bad::File(fault))),
        };
        let _file = held.file();
        if held.id() != id {
            return Err(Unread::Bad(Bad::WrongId(held.id())));
        }
        let metas = read_metas(alloc, &held.nodes(), held.file().len())?;
        Ok(Loaded { held, metas })
    }

    /// What the snapshot says, which can be written.
    pub fn file(&self) -> &HeldSnapshot
        ensures value { result.now ≡ self.now }
        ensures writable { IsWritable self.now }
    {
        &self.held
    }
}

/// The metadata of row number `at`.
fn row_meta<'a>(
    alloc: Global,
    reader: &mut TextReader<'a>,
    at: usize,
    row: &HeldNode<'a>,
) -> Result<SharedMeta, Unread>
    ensures { LoadsMeta at row.now result }
{
    let meta = match reader.read(alloc, row.text()) {
        Ok(meta) => meta,
        Err(MetaFault::NoMemory) => return Err(Unread::NoMemory),
        Err(fault) => return Err(Unread::Bad(Bad::Node { at, fault })),
    };
    if is_kind(row, &meta.view) {
        Ok(meta)
    } else {
        Err(Unread::Bad(Bad::Node {
            at,
            fault: MetaFault::NodeType,
        }))
    }
}

/// The metadata of the rows of a file of so many bytes. Rows of the same text that follow each other share it.
fn read_metas(alloc: Global, rows: &HeldNodes, bytes: usize) -> Result<Items<SharedMeta>, Unread>
    ensures { LoadsMetas rows.now result }
{
    let mut reader = TextReader::new(alloc, bytes);
    let mut metas = Vec::with_capacity(alloc, rows.len())?;
    for at in 0..rows.len() {
        metas.push(row_meta(alloc, &mut reader, at, &rows.at(at))?)?;
    }
    Ok(Items::from_vec(metas))
}

impl Loaded {
    /// The node of row number `at`, which is this one.
    fn found(&self, at: usize, row: &HeldNode) -> Found<'_>
        requires { slice_get self.now.nodes at ≡ Some row.now }
        ensures { node_found result ≡ node_of row.now }
    {
        Found {
            id: row.id(),
            meta: &self.metas.as_slice()[at],
        }
    }
}

impl TreeLike for Loaded {
    ghost nodes = { λ s. nodes_in s.nodes };

    fn find(&self, path: &str) -> Option<Found<'_>> {
        let nodes = self.held.nodes();
        match nodes.place(path) {
            None => None,
            Some(at) => Some(self.found(at, &nodes.at(at))),
        }
    }

    fn len(&self) -> usize {
        self.metas.len()
    }

    fn row(&self, at: usize) -> (&str, Found<'_>) {
        let row = self.held.nodes().at(at);
        (row.path(), self.found(at, &row))
    }
}
