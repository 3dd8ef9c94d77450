ghost use Rattle.std.specs.Prelude.{◌≡◌, IsOk, option_map};
ghost use Rattle.manifest_file.specs.Manifests.{payload_of, manifest_of};
ghost use Rattle.held_manifest.specs.Files.{Checks, IsHeldAs, RootOf, manifest_or_empty};
ghost use Rattle.held_manifest.specs.Places.{place_seen};
ghost use Rattle.held_manifest.specs.LookUp.{refs_of_node, entry_of};
ghost use Rattle.held_manifest.specs.Objects.{objects_of};

use crate::arrays::{Arrays, arrays_in, held_arrays};
use crate::chunks::Refs;
use crate::objects::Objects;
use crate::places::PlaceView;
use file_fields::{id12_of, payload_in};
use flat_tables::{FileFault, FlatFault, Kind, Table};
use ice_base::Bytes;
use ice_ids::{Id8, Id12};
use std::marker::Model;
use zarr_path::Index;

/// The file of a manifest. Contracts see it as the manifest that the file stands for.
#[derive(Debug, Drop)]
pub struct HeldManifest {
    file: Bytes,
}

impl Model for HeldManifest {
    ghost use Rattle.std.specs.Prelude.{IsOk};
    ghost use Rattle.manifest_file.specs.declared.manifest.ManifestFile.{ManifestFile};
    ghost use Rattle.manifest_file.specs.Manifests.{manifest_of};
    ghost use Rattle.held_manifest.specs.Files.{manifest_or_empty};

    ghost Value = { ManifestFile };

    ghost view = { λ h. manifest_or_empty (manifest_of h.file) };

    ghost invariant = { λ h. IsOk (manifest_of h.file) };
}

/// Whether a payload says a manifest; else its first fault.
#[tactic(auto, unfolding(manifest_file::specs::Manifests::payload_of))]
fn check_payload(payload: &[u8]) -> Result<(), FileFault>
    ensures { Checks result (payload_of payload.now) }
{
    let table = Table::root(payload)?;
    let _id = id12_of(&table, 0)?;
    let Some(vector) = table.vector(1, 4)? else {
        return Err(FileFault::Flat(FlatFault::Missing { slot: 1 }));
    };
    let _arrays = arrays_in(vector)?;
    Ok(())
}

/// Whether a file stands for a manifest; else its first fault.
#[tactic(auto, using(file_fields::proofs::Payloads::read_is, file_fields::proofs::Payloads::fault_is), unfolding(manifest_file::specs::Manifests::manifest_of))]
fn check_file(file: &[u8]) -> Result<(), FileFault>
    ensures { Checks result (manifest_of file.now) }
{
    check_payload(payload_in(Kind::Manifest, file)?)
}

/// Holds the file of a manifest, or gives it back with the fault that reading it would answer. It takes no memory.
#[tactic(auto, using(crate::proofs::Parts::manifest_ok, crate::proofs::NoMemory::never_memory))]
pub fn hold(file: Bytes) -> Result<HeldManifest, (Bytes, FileFault)>
    ensures { IsHeldAs file result }
{
    match check_file(file.as_slice()) {
        Ok(()) => Ok(HeldManifest { file }),
        Err(fault) => Err((file, fault)),
    }
}

/// The root table of a file that stands for a manifest.
fn root(file: &[u8]) -> Table<'_>
    requires { IsOk (manifest_of file.now) }
    ensures { RootOf file.now result }
{
    let payload = payload_in(Kind::Manifest, file).unwrap();
    Table::root(payload).unwrap()
}

impl HeldManifest {
    /// The manifest's id.
    pub fn id(&self) -> Id12
        ensures { result ≡ self.now.id }
    {
        id12_of(&root(self.file.as_slice()), 0).unwrap()
    }

    /// The arrays.
    pub fn arrays(&self) -> Arrays<'_>
        ensures { result ≡ self.now.arrays }
    {
        let table = root(self.file.as_slice());
        let slot = table.vector(1, 4).unwrap();
        held_arrays(slot.unwrap())
    }

    /// The chunks of a node's array; `None` exactly where the manifest has no such array. The search goes by halves.
    pub fn node(&self, node: Id8) -> Option<Refs<'_>>
        ensures { result ≡ refs_of_node node self.now.arrays }
    {
        self.arrays().node(node)
    }

    /// The objects that the manifest's entries name, entry by entry in their order. It waits for the collection, which keeps
    /// what manifests name.
    pub fn objects(&self) -> Objects<'_>
        ensures { result ≡ objects_of self.now }
    {
        Objects::new(self.arrays())
    }

    /// Where the manifest has the chunk of a node at an index; `None` exactly where it has no such entry. The search goes
    /// by halves.
    pub fn seek(&self, node: Id8, index: &Index) -> Option<PlaceView<'_>>
        ensures { option_map place_seen result ≡ entry_of node index.now self.now }
    {
        self.node(node)?.seek(index)
    }
}
