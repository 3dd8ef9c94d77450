ghost use Rattle.std.specs.Prelude.{◌≡◌, ◌<◌, [], Ok, Some, length, slice_get, IfOk, IsOk};
ghost use Rattle.snapshot_file.specs.Nodes.{manifest_of, manifest_at, manifests_in, manifests_of};

use crate::pairs::HeldExtents;
use crate::slots::vector_in;
use file_fields::id12_of;
use flat_tables::{FileFault, Table, Vector};
use ice_ids::Id12;
use ice_items::Items;
use snapshot_file::ManifestRef;
use std::alloc::{AllocError, Global};
use std::marker::Model;

/// A manifest that has chunks of an array, read in place. Contracts see it as the manifest that it stands for.
#[derive(Drop)]
pub struct HeldManifestRef<'a> {
    id: Id12,
    extents: HeldExtents<'a>,
}

impl<'a> Model for HeldManifestRef<'a> {
    ghost use Rattle.snapshot_file.specs.declared.nodes.ManifestRef.{ManifestRef as TheRef};

    ghost Value = { TheRef };

    ghost view = { λ m. record { id = m.id; extents = m.extents } };
}

impl<'a> HeldManifestRef<'a> {
    /// The manifest.
    pub fn id(&self) -> Id12
        ensures { result ≡ self.now.id }
    {
        self.id
    }

    /// Where those chunks lie, for each dimension of the array.
    pub fn extents(&self) -> &HeldExtents<'a>
        ensures { result.now ≡ self.now.extents }
    {
        &self.extents
    }

    /// The same in memory of its own.
    pub fn copy(&self, alloc: Global) -> Result<ManifestRef, AllocError>
        ensures { IfOk result (λ copy. copy ≡ self.now) }
    {
        Ok(ManifestRef {
            id: self.id,
            extents: self.extents.copy(alloc)?,
        })
    }
}

/// The manifest that a table has.
#[tactic(auto, unfolding(snapshot_file::specs::Nodes::manifest_of))]
fn manifest_of<'a>(table: &Table<'a>) -> Result<HeldManifestRef<'a>, FileFault>
    ensures { result ≡ manifest_of table.now }
{
    let id = id12_of(table, 0)?;
    let vector = vector_in(table, 1, 8)?;
    let extents = HeldExtents::new(vector);
    Ok(HeldManifestRef { id, extents })
}

/// The manifest that element `at` leads to.
#[tactic(auto, unfolding(snapshot_file::specs::Nodes::manifest_at))]
fn manifest_at<'a>(vector: &Vector<'a>, at: usize) -> Result<HeldManifestRef<'a>, FileFault>
    requires below { at < vector.now.count }
    requires offsets { vector.now.size ≡ 4 }
    ensures { result ≡ manifest_at vector.now at }
{
    let table = vector.table_at(at)?;
    manifest_of(&table)
}

/// The manifests of a vector, read in place. Contracts see them as the list of the manifests that they stand for.
#[derive(Drop)]
struct ManifestVector<'a> {
    vector: Vector<'a>,
}

impl<'a> Model for ManifestVector<'a> {
    ghost use Rattle.std.specs.Prelude.{List, ◌≡◌, IsOk};
    ghost use Rattle.snapshot_file.specs.declared.nodes.ManifestRef.{ManifestRef as TheRef};
    ghost use Rattle.snapshot_file.specs.Nodes.{manifests_in};
    ghost use Rattle.held_manifest.specs.Views.{rows_or_none};

    ghost Value = { List TheRef };

    ghost view = { λ m. rows_or_none (manifests_in m.vector) };

    ghost invariant = { λ m. IsOk (manifests_in m.vector) × (m.vector.size ≡ 4) };
}

/// The manifests of a vector; else the first fault.
fn manifests_in<'a>(vector: Vector<'a>) -> Result<ManifestVector<'a>, FileFault>
    requires { vector.size ≡ 4 }
    ensures { result ≡ manifests_in vector.entry }
{
    for at in 0..vector.len() {
        let _manifest = manifest_at(&vector, at)?;
    }
    Ok(ManifestVector { vector })
}

impl<'a> ManifestVector<'a> {
    /// How many manifests there are.
    fn len(&self) -> usize
        ensures { result ≡ length self.now }
    {
        self.vector.len()
    }

    /// Manifest number `i`.
    fn at(&self, i: usize) -> HeldManifestRef<'a>
        requires { i < length self.now }
        ensures { slice_get self.now i ≡ Some result }
    {
        manifest_at(&self.vector, i).unwrap()
    }
}

/// The manifests that a node names, read in place: those of an array. Contracts see them as the list of the manifests that they
/// stand for.
#[derive(Drop)]
pub struct HeldManifestRefs<'a> {
    rows: Option<ManifestVector<'a>>,
}

impl<'a> Model for HeldManifestRefs<'a> {
    ghost use Rattle.std.specs.Prelude.{List};
    ghost use Rattle.snapshot_file.specs.declared.nodes.ManifestRef.{ManifestRef as TheRef};
    ghost use Rattle.held_snapshot.specs.Views.{rows_there};

    ghost Value = { List TheRef };

    ghost view = { λ m. rows_there m.rows };
}

/// The manifests of an array's table, none where the slot is absent; else the first fault.
#[tactic(auto, unfolding(snapshot_file::specs::Nodes::manifests_of))]
pub(crate) fn manifests_of<'a>(table: &Table<'a>) -> Result<HeldManifestRefs<'a>, FileFault>
    ensures { result ≡ manifests_of table.now }
{
    match table.vector(2, 4)? {
        None => Ok(HeldManifestRefs { rows: None }),
        Some(vector) => Ok(HeldManifestRefs {
            rows: Some(manifests_in(vector)?),
        }),
    }
}

/// The manifests of an array's table, which were read before.
pub(crate) fn held_manifests<'a>(table: &Table<'a>) -> HeldManifestRefs<'a>
    requires { IsOk (manifests_of table.now) }
    ensures { manifests_of table.now ≡ Ok result }
{
    match table.vector(2, 4).unwrap() {
        None => HeldManifestRefs { rows: None },
        Some(vector) => HeldManifestRefs {
            rows: Some(ManifestVector { vector }),
        },
    }
}

impl<'a> HeldManifestRefs<'a> {
    /// No manifests.
    pub fn none() -> HeldManifestRefs<'a>
        ensures { result ≡ [] }
    {
        HeldManifestRefs { rows: None }
    }

    /// How many manifests there are.
    pub fn len(&self) -> usize
        ensures { result ≡ length self.now }
    {
        match &self.rows {
            None => 0,
            Some(rows) => rows.len(),
        }
    }

    /// Manifest number `i`.
    pub fn at(&self, i: usize) -> HeldManifestRef<'a>
        requires { i < length self.now }
        ensures { slice_get self.now i ≡ Some result }
    {
        match &self.rows {
            None => unreachable!(),
            Some(rows) => rows.at(i),
        }
    }

    /// The same in memory of their own.
    pub fn copy(&self, alloc: Global) -> Result<Items<ManifestRef>, AllocError>
        ensures { IfOk result (λ copy. copy ≡ self.now) }
    {
        let mut manifests: Vec<ManifestRef> = Vec::new(alloc);
        for i in 0..self.len() {
            manifests.push(self.at(i).copy(alloc)?)?;
        }
        Ok(Items::from_vec(manifests))
    }
}
