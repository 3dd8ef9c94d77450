//! The file of a snapshot under changes.

ghost use Rattle.std.specs.Prelude.{◌≤◌, None};
ghost use Rattle.std.specs.FinMap.{len};
ghost use Rattle.zarr_tree.specs.Edits.{most_nodes};
ghost use Rattle.zarr_tree.specs.Held.{nodes_over};
ghost use Rattle.flat_tables.specs.Rows.{Ascends};
ghost use Rattle.snapshot_file.specs.Layout.{snapshot_bytes};
ghost use Rattle.repo_objects.specs.Trees.{nodes_in};
ghost use Rattle.changed_snapshot.specs.Rows.{list_key, snapshot_over};
ghost use Rattle.changed_snapshot.specs.Written.{Writes};

use crate::files::{files_over, files_with};
use crate::rows::rows_over;
use flat_tables::WriteFault;
use ice_base::{Bytes, Text};
use ice_ids::Id12;
use ice_items::Items;
use repo_objects::Loaded;
use snapshot_file::{Extents, Props, SnapshotHead, write_rows};
use std::alloc::Global;
use zarr_changes::ChangeSet;
use zarr_path::Path;

/// What a commit adds to its tree: the ids of its snapshot and of its base's, and when it was flushed.
#[derive(Clone, Copy, Debug, PartialEq, Eq)]
pub struct Stamp {
    /// The new snapshot.
    pub id: Id12,
    /// The base's snapshot.
    pub parent: Id12,
    /// When it was flushed, in microseconds.
    pub flushed_at: u64,
}

/// A manifest that a commit wrote for an array.
#[derive(Debug, Drop)]
pub struct NewManifest {
    /// The manifest.
    pub id: Id12,
    /// Where its chunks lie, for each dimension of the array.
    pub extents: Extents,
    /// The length of its file, in bytes.
    pub size: u64,
    /// How many chunks it has.
    pub refs: u32,
}

/// The new list of an array's manifests.
#[derive(Debug, Drop)]
pub struct NewList {
    /// The array.
    pub path: Path,
    /// The one manifest, and `None` where no chunk is left.
    pub manifest: Option<NewManifest>,
}

/// The new lists of a commit, in the strict order of their paths' bytes.
pub type NewLists = Items<NewList>;

/// The file of the snapshot of a base under changes, with these new lists of manifests, this message and these
/// properties. It asks that there
/// are no more nodes than a tree may have, and that the lists stand in the order of their paths' bytes. (Icechunk
/// specification version 1, "Snapshots".)
///
/// # Errors
///
/// `TooLarge` comes exactly where the file would be longer than a file may be, and tells its length. Memory may run out.
pub fn write_over(
    alloc: Global,
    base: &Loaded,
    changes: &ChangeSet,
    news: &[NewList],
    stamp: Stamp,
    message: &Text,
    props: &Props,
) -> Result<Bytes, WriteFault>
    requires few { len (nodes_over changes.now (nodes_in base.now.nodes)) ≤ most_nodes }
    requires lists { Ascends list_key None news.now }
    ensures { Writes result
        (snapshot_bytes (snapshot_over changes.now news.now base.now.nodes base.now.manifest_files
        stamp message.now props.now)) }
{
    let rows = rows_over(alloc, base, changes, news)?;
    let files = files_with(alloc, &base.file().manifest_files(), news)?;
    let manifest_files = files_over(alloc, files.as_slice(), &rows)?;
    let head = SnapshotHead {
        id: stamp.id,
        parent: Some(stamp.parent),
        flushed_at: stamp.flushed_at,
        message,
        props,
        manifest_files: &manifest_files,
    };
    Ok(Bytes::from_vec(write_rows(alloc, &head, &rows)?))
}
