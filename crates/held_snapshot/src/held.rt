ghost use Rattle.std.specs.Prelude.{◌≡◌, Ok};
ghost use Rattle.snapshot_file.specs.Snapshots.{parent_of, rest_of, payload_of, snapshot_of};
ghost use Rattle.snapshot_file.specs.Layout.{IsWritable};
ghost use Rattle.held_manifest.specs.Files.{Checks};
ghost use Rattle.held_snapshot.specs.Files.{ChecksRest, IsHeldAs, IsTableOf};

use crate::files::{HeldFiles, files_of, held_files};
use crate::listed_files::first_unlisted;
use crate::nodes::{HeldNodes, held_nodes, nodes_of};
use crate::props::{HeldProps, held_properties, properties_of};
use crate::slots::{number_in, text_in};
use file_fields::{id12, id12_of, payload_in};
use flat_tables::{FileFault, Kind, Table};
use ice_base::Bytes;
use ice_ids::Id12;
use std::marker::Model;

/// The file of a snapshot. Contracts see it as the snapshot that the file stands for.
#[derive(Debug, Drop)]
pub struct HeldSnapshot {
    file: Bytes,
}

impl Model for HeldSnapshot {
    ghost use Rattle.std.specs.Prelude.{IsOk};
    ghost use Rattle.snapshot_file.specs.declared.snapshot.SnapshotFile.{SnapshotFile};
    ghost use Rattle.snapshot_file.specs.Snapshots.{snapshot_of};
    ghost use Rattle.held_snapshot.specs.Files.{snapshot_or_empty};

    ghost Value = { SnapshotFile };

    ghost view = { λ h. snapshot_or_empty (snapshot_of h.file) };

    ghost invariant = { λ h. IsOk (snapshot_of h.file) };
}

/// The id of the snapshot that it followed, if there is one.
fn parent_of(table: &Table) -> Result<Option<Id12>, FileFault>
    ensures { result ≡ parent_of table.now }
{
    match table.bytes(1, 12)? {
        None => Ok(None),
        Some(bytes) => Ok(Some(id12(bytes))),
    }
}

/// The manifests of a snapshot's table, behind the other slots behind the nodes; else their first fault.
#[tactic(auto, unfolding(snapshot_file::specs::Snapshots::rest_of))]
fn rest_of<'a>(table: &Table<'a>) -> Result<HeldFiles<'a>, FileFault>
    ensures { ChecksRest result (rest_of table.now) }
{
    let _flushed_at = number_in(table, 3, 8)?;
    let _message = text_in(table, 4)?;
    let _props = properties_of(table)?;
    files_of(table)
}

/// Whether a payload says a snapshot; else its first fault.
#[tactic(auto, unfolding(snapshot_file::specs::Snapshots::payload_of))]
fn check_payload(payload: &[u8]) -> Result<(), FileFault>
    ensures { Checks result (payload_of payload.now) }
{
    let table = Table::root(payload)?;
    let _id = id12_of(&table, 0)?;
    let _parent = parent_of(&table)?;
    let nodes = nodes_of(&table)?;
    let files = rest_of(&table)?;
    match first_unlisted(&files, &nodes) {
        Some(at) => Err(FileFault::Unlisted { at }),
        None => Ok(()),
    }
}

/// Whether a file stands for a snapshot; else its first fault.
#[tactic(auto, using(file_fields::proofs::Payloads::read_is, file_fields::proofs::Payloads::fault_is), unfolding(snapshot_file::specs::Snapshots::snapshot_of))]
fn check_file(file: &[u8]) -> Result<(), FileFault>
    ensures { Checks result (snapshot_of file.now) }
{
    check_payload(payload_in(Kind::Snapshot, file)?)
}

/// Holds the file of a snapshot, or gives it back with the fault that [`snapshot_file::read`] would answer. It takes no memory.
/// (Icechunk specification version 1, "Snapshot"; the order of faults is own.)
#[tactic(auto, using(crate::proofs::Parts::snapshot_ok, crate::proofs::NoMemory::never_memory))]
pub fn hold(file: Bytes) -> Result<HeldSnapshot, (Bytes, FileFault)>
    ensures { IsHeldAs file result }
{
    match check_file(file.as_slice()) {
        Ok(()) => Ok(HeldSnapshot { file }),
        Err(fault) => Err((file, fault)),
    }
}

impl HeldSnapshot {
    /// The file.
    pub fn file(&self) -> &Bytes
        ensures value { snapshot_of result.now ≡ Ok self.now }
        ensures writable { IsWritable self.now }
    {
        &self.file
    }

    /// The root table.
    fn table(&self) -> Table<'_>
        ensures { IsTableOf result self.now }
    {
        let payload = payload_in(Kind::Snapshot, self.file.as_slice()).unwrap();
        Table::root(payload).unwrap()
    }

    /// The snapshot's own id.
    pub fn id(&self) -> Id12
        ensures { result ≡ self.now.id }
    {
        id12_of(&self.table(), 0).unwrap()
    }

    /// The snapshot that it followed, and `None` of the first one.
    pub fn parent(&self) -> Option<Id12>
        ensures { result ≡ self.now.parent }
    {
        parent_of(&self.table()).unwrap()
    }

    /// When it was flushed, in microseconds.
    pub fn flushed_at(&self) -> u64
        ensures { result ≡ self.now.flushed_at }
    {
        number_in(&self.table(), 3, 8).unwrap()
    }

    /// The message of its commit.
    pub fn message(&self) -> &str
        ensures { result.now ≡ self.now.message }
    {
        text_in(&self.table(), 4).unwrap()
    }

    /// The nodes.
    pub fn nodes(&self) -> HeldNodes<'_>
        ensures { result ≡ self.now.nodes }
    {
        held_nodes(&self.table())
    }

    /// Its properties.
    pub fn props(&self) -> HeldProps<'_>
        ensures { result ≡ self.now.props }
    {
        held_properties(&self.table())
    }

    /// The manifests that the nodes name.
    pub fn manifest_files(&self) -> HeldFiles<'_>
        ensures { result ≡ self.now.manifest_files }
    {
        held_files(&self.table())
    }
}
