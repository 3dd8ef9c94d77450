//! A snapshot that is held, and a place in it.

ghost use Rattle.std.specs.Prelude.{◌≡◌, ◌≤◌, ◌<◌, length, slice_get, Some};
ghost use Rattle.zarr_tree.specs.Nodes.{array_in};
ghost use Rattle.zarr_tree.specs.Rows.{node_found};
ghost use Rattle.snapshot_file.specs.Snapshots.{manifests_named};
ghost use Rattle.intact.specs.Rows.{want_in, want_of, file_for, files_of};
ghost use Rattle.snapshot_file.specs.declared.nodes.ManifestRef.{ManifestRef};
ghost use Rattle.snapshot_file.specs.declared.nodes.NodeRow.{NodeRow};
ghost use Rattle.intact.specs.Places.{most_steps, TakesFile};
ghost use Rattle.intact.specs.inside.Finding.{FindsFile, IsFileAt};

use crate::visits::FileVisit;
use ice_ids::Id12;
use repo_objects::Loaded;
use std::marker::Model;
use zarr_grid::chunk_bytes;
use zarr_meta::MetaView;
use zarr_tree::{Found, TreeLike, grid_law};

/// A snapshot that is held, and the manifests in it that are still to be got, by a place in it. Contracts see what is left.
#[derive(Drop)]
pub struct SnapshotPlace {
    loaded: Loaded,
    row: usize,
    at: usize,
}

impl Model for SnapshotPlace {
    ghost use Rattle.intact.specs.Places.{SnapshotLeft, files_from, steps_from};

    ghost Value = { SnapshotLeft };

    ghost view = { λ p. record { parent = p.loaded.parent; files = files_from p.row p.at p.loaded.nodes; steps = steps_from p.row p.at } };
}

/// A manifest that a snapshot names, and where the place behind it is.
#[derive(Clone, Copy)]
pub(crate) struct FileFound {
    file: FileVisit,
    row: usize,
    behind: usize,
}

/// How many bytes a chunk of a node has.
fn want_in(found: &Found<'_>) -> u64
    ensures { result ≡ want_in (array_in (node_found found.now).text) }
{
    grid_law();
    match &found.meta.view {
        MetaView::Array(array) => chunk_bytes(array.kind.size(), array.chunks.as_slice()),
        MetaView::Group => 0,
    }
}

/// How many bytes a chunk of row number `row` has.
fn want_at(loaded: &Loaded, row: usize) -> u64
    requires { row < length loaded.now.nodes }
    ensures { (node : NodeRow) → slice_get loaded.now.nodes row ≡ Some node
        → result ≡ want_of node }
{
    let _rows = loaded.file().nodes().len();
    let (_, found) = loaded.row(row);
    want_in(&found)
}

/// Manifest number `at` of row number `row`.
fn file_at(loaded: &Loaded, row: usize, at: usize) -> FileVisit
    requires { IsFileAt loaded.now.nodes row at }
    ensures { (node : NodeRow) (manifest : ManifestRef) → slice_get loaded.now.nodes row ≡ Some node
        → slice_get (manifests_named node.kind) at ≡ Some manifest
        → result ≡ file_for node manifest }
{
    let rows = loaded.file().nodes();
    let node = rows.at(row);
    FileVisit {
        manifest: node.kind().manifests().at(at).id(),
        node: node.id(),
        want: want_at(loaded, row),
    }
}

/// The first manifest from manifest number `at` of row number `row` on.
fn file_from(loaded: &Loaded, row: usize, at: usize) -> Option<FileFound>
    ensures { FindsFile loaded.now.nodes row at result }
{
    let rows = loaded.file().nodes();
    let mut from = at;
    for i in row..rows.len() {
        if from < rows.at(i).kind().manifests().len() {
            return Some(FileFound {
                file: file_at(loaded, i, from),
                row: i,
                behind: from + 1,
            });
        }
        from = 0;
    }
    None
}

impl SnapshotPlace {
    /// Before the first manifest of a snapshot.
    pub fn new(loaded: Loaded) -> SnapshotPlace
        ensures parent { result.parent ≡ loaded.parent }
        ensures files { result.files ≡ files_of loaded.nodes }
        ensures steps { result.steps ≤ most_steps }
    {
        SnapshotPlace {
            loaded,
            row: 0,
            at: 0,
        }
    }

    /// The parent of the snapshot.
    pub fn parent(&self) -> Option<Id12>
        ensures { result ≡ self.now.parent }
    {
        self.loaded.file().parent()
    }

    /// Takes the next manifest.
    pub fn next(&mut self) -> Option<FileVisit>
        ensures { TakesFile self.old result self.new }
    {
        let found = file_from(&self.loaded, self.row, self.at)?;
        self.row = found.row;
        self.at = found.behind;
        Some(found.file)
    }
}
