ghost use Rattle.std.specs.Prelude.{◌≡◌, ◌+◌, ◌<◌, ◌^◌, [], ◌∷◌, map, length, All, IsTrue, IfOk, OnOk, IfSome, Ok};
ghost use Rattle.std.specs.List.{AllByRecursion};
ghost use Rattle.std.specs.Str.{IsUtf8};
ghost use Rattle.flat_tables.specs.File.{Writes};
ghost use Rattle.flat_tables.specs.Layout.{payload, scalar, part_if};
ghost use Rattle.flat_tables.specs.Trees.{layout, part_of, is_writable, is_writable_slot};
ghost use Rattle.ice_ids.specs.Text.{IsId12};
ghost use Rattle.file_fields.specs.Fields.{id12_part};
ghost use Rattle.snapshot_file.specs.Snapshots.{snapshot_of};
ghost use Rattle.snapshot_file.specs.Props.{AreProps};
ghost use Rattle.snapshot_file.specs.Layout.{text_part, props_part, some_props, files_part, snapshot_block, snapshot_bytes, IsWritable, IsInfo, IsSnapshot};
ghost use Rattle.snapshot_file.specs.Heads.{with_nodes};

use crate::fields::{info_head, info_tail, text_slot};
use crate::property_writing::props_slot_if;
use crate::snapshot::{ManifestInfo, SnapshotFile, SnapshotHead};
use crate::sources::{NodeTables, RowSource};
use file_fields::{id12_slot, u64_slot};
use flat_tables::{Kind, Slot, WriteFault, framed_write, with_header};
use ice_ids::Id12;
use ice_items::Items;
use std::alloc::{AllocError, Global};

/// The manifests of a snapshot.
fn files_slot(alloc: Global, files: &Items<ManifestInfo>) -> Result<Slot, AllocError>
    ensures part { IfOk result (λ s. part_of s ≡ files_part files.now) }
    ensures writable { IfOk result (λ s. IsTrue (is_writable_slot s)) }
    ensures sized { OnOk result (AllByRecursion IsInfo files.now) }
{
    let mut bytes: Vec<u8> = Vec::new(alloc);
    for file in files.as_slice() {
        bytes.extend_from_slice(&info_head(&file.id))?;
        bytes.extend_from_slice(&info_tail(file.size, file.refs))?;
    }
    Ok(Slot::Structs {
        align: 8,
        size: 32,
        bytes,
    })
}

/// The id of the parent, where there is one.
fn parent_slot(alloc: Global, parent: &Option<Id12>) -> Result<Slot, AllocError>
    ensures part { IfOk result (λ s. part_of s ≡ part_if id12_part parent.now) }
    ensures writable { IfOk result (λ s. IsTrue (is_writable_slot s)) }
    ensures sized { OnOk result (IfSome parent.now IsId12) }
{
    match parent {
        None => Ok(Slot::Absent),
        Some(id) => id12_slot(alloc, id),
    }
}

/// The slots before the nodes.
fn slots_before(alloc: Global, head: &SnapshotHead) -> Result<[Slot; 2], AllocError>
    ensures parts { IfOk result (λ slots. map part_of slots ≡ id12_part head.now.id ∷ part_if
        id12_part head.now.parent ∷ []) }
    ensures writable { IfOk result (λ slots. All (λ s. IsTrue (is_writable_slot s)) slots) }
    ensures id { OnOk result (IsId12 head.now.id) }
    ensures parent { OnOk result (IfSome head.now.parent IsId12) }
{
    Ok([
        id12_slot(alloc, &head.id)?,
        parent_slot(alloc, &head.parent)?,
    ])
}

/// The slots behind the nodes.
fn slots_after(alloc: Global, head: &SnapshotHead) -> Result<[Slot; 4], AllocError>
    ensures parts { IfOk result (λ slots. map part_of slots ≡ scalar 8 head.now.flushed_at
        ∷ text_part head.now.message.now ∷ part_if props_part (some_props head.now.props.now)
        ∷ files_part head.now.manifest_files.now ∷ []) }
    ensures writable { IfOk result (λ slots. All (λ s. IsTrue (is_writable_slot s)) slots) }
    ensures flushed_at { head.now.flushed_at < 2 ^ 64 }
    ensures message { OnOk result (IsUtf8 head.now.message.now) }
    ensures props { OnOk result (AreProps head.now.props.now) }
    ensures files { OnOk result (AllByRecursion IsInfo head.now.manifest_files.now) }
{
    Ok([
        u64_slot(head.flushed_at),
        text_slot(alloc, head.message.as_str())?,
        props_slot_if(alloc, head.props)?,
        files_slot(alloc, head.manifest_files)?,
    ])
}

/// The payload of a snapshot's file.
#[tactic(auto, unfolding(crate::specs::Layout::snapshot_block))]
fn rows_payload<S: RowSource>(
    alloc: Global,
    head: &SnapshotHead,
    rows: &S,
) -> Result<Vec<u8>, WriteFault>
    ensures written { let bytes = payload (snapshot_block (with_nodes head.now (S.rows rows.now)))
        in Writes result bytes (39 + length bytes) }
    ensures sized { OnOk result (IsSnapshot (with_nodes head.now (S.rows rows.now))) }
{
    let before = slots_before(alloc, head)?;
    let after = slots_after(alloc, head)?;
    framed_write(alloc, &before, &NodeTables { rows }, &after)
}

/// Writes the one file of the snapshot that has these nodes, as [`write`](crate::write) does. They are made one at a time,
/// twice each.
pub fn write_rows<S: RowSource>(
    alloc: Global,
    head: &SnapshotHead,
    rows: &S,
) -> Result<Vec<u8>, WriteFault>
    requires { IsWritable (with_nodes head.now (S.rows rows.now)) }
    ensures written { let file = snapshot_bytes (with_nodes head.now (S.rows rows.now)) in Writes
        result file (length file) }
    ensures again { IfOk result (λ file. snapshot_of file.items
        ≡ Ok (with_nodes head.now (S.rows rows.now))) }
{
    let payload = rows_payload(alloc, head, rows)?;
    Ok(with_header(Kind::Snapshot, payload)?)
}

/// Writes the one file of a snapshot. It asks that the nodes strictly ascend by their paths' bytes and are at most
/// [`NODE_LIMIT`](crate::NODE_LIMIT), that the manifest files strictly ascend by their ids' bytes, and that each manifest
/// that a node names is among them. What was written is read again as the same snapshot. `TooLarge` comes exactly where
/// the file would be longer than [`FILE_LIMIT`](flat_tables::FILE_LIMIT) bytes, and tells its length. (Icechunk
/// specification version 1, "Snapshot"; the one layout is own.)
pub fn write(alloc: Global, snapshot: &SnapshotFile) -> Result<Vec<u8>, WriteFault>
    requires { IsWritable snapshot.now }
    ensures written { let file = snapshot_bytes snapshot.now in Writes result file (length file) }
    ensures again { IfOk result (λ file. snapshot_of file.items ≡ Ok snapshot.now) }
{
    let head = SnapshotHead {
        id: snapshot.id,
        parent: snapshot.parent,
        flushed_at: snapshot.flushed_at,
        message: &snapshot.message,
        props: &snapshot.props,
        manifest_files: &snapshot.manifest_files,
    };
    write_rows(alloc, &head, &snapshot.nodes)
}
