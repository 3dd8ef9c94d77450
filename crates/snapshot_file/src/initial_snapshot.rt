ghost use Rattle.std.specs.Prelude.{◌≡◌, IfOk, Ok};
ghost use Rattle.snapshot_file.specs.Snapshots.{snapshot_of};
ghost use Rattle.snapshot_file.specs.Layout.{snapshot_bytes};
ghost use Rattle.snapshot_file.specs.Initial.{initial_snapshot};

use crate::properties::Props;
use crate::snapshot::SnapshotFile;
use ice_base::Text;
use ice_ids::Id12;
use ice_items::Items;
use std::alloc::{AllocError, Global};

/// The file of the initial snapshot. (This project's profile.)
pub const INITIAL_FILE: [u8; 143] = [
    0x49, 0x43, 0x45, 0xf0, 0x9f, 0xa7, 0x8a, 0x43, 0x48, 0x55, 0x4e, 0x4b, 0x69, 0x63, 0x65, 0x72,
    0x65, 0x70, 0x6f, 0x20, 0x20, 0x20, 0x20, 0x20, 0x20, 0x20, 0x20, 0x20, 0x20, 0x20, 0x20, 0x20,
    0x20, 0x20, 0x20, 0x20, 0x01, 0x01, 0, 0x18, 0, 0, 0, 0, 0, 0x12, 0, 0x28, 0, 0x04, 0, 0, 0,
    0x10, 0, 0x18, 0, 0x20, 0, 0, 0, 0x24, 0, 0x12, 0, 0, 0, 0x0b, 0x1c, 0xc8, 0xd6, 0x78, 0x75,
    0x80, 0xf0, 0xe3, 0x3a, 0x65, 0x34, 0x18, 0, 0, 0, 0, 0, 0, 0, 0, 0, 0, 0, 0, 0, 0, 0, 0x0c, 0,
    0, 0, 0x28, 0, 0, 0, 0, 0, 0, 0, 0x16, 0, 0, 0, 0x52, 0x65, 0x70, 0x6f, 0x73, 0x69, 0x74, 0x6f,
    0x72, 0x79, 0x20, 0x69, 0x6e, 0x69, 0x74, 0x69, 0x61, 0x6c, 0x69, 0x7a, 0x65, 0x64, 0, 0, 0, 0,
    0, 0, 0, 0, 0, 0,
];

/// The initial snapshot of each repository: it has the id [`Id12::INITIAL`], no parent, no nodes, no properties and no
/// manifests, was flushed at 0, and its message is `Repository initialized`. (This project's profile.)
pub fn initial(alloc: Global) -> Result<SnapshotFile, AllocError>
    ensures { IfOk result (λ snapshot. snapshot ≡ initial_snapshot) }
{
    Ok(SnapshotFile {
        id: Id12::INITIAL,
        parent: None,
        nodes: Items::from_vec(Vec::new(alloc)),
        flushed_at: 0,
        message: Text::of(alloc, "Repository initialized")?,
        props: Props::new(alloc),
        manifest_files: Items::from_vec(Vec::new(alloc)),
    })
}

/// The file of the initial snapshot is the one that `write` gives of it, and it is read as the initial snapshot. It does
/// nothing: the contract is a law.
pub fn initial_law()
    ensures written { INITIAL_FILE ≡ snapshot_bytes initial_snapshot }
    ensures read { snapshot_of INITIAL_FILE ≡ Ok initial_snapshot }
{}
