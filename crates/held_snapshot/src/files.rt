ghost use Rattle.std.specs.Prelude.{◌≡◌, ◌<◌, Ok, Some, None, length, slice_get, option_map, option_copied, IfOk, IsOk};
ghost use Rattle.flat_tables.specs.Rows.{follows, Ascends};
ghost use Rattle.snapshot_file.specs.Snapshots.{file_key, files_in, files_of};
ghost use Rattle.held_snapshot.specs.LookUp.{file_with, has_file};

use crate::numbers::info_of;
use flat_tables::{FileFault, Table, Vector};
use ice_ids::Id12;
use ice_items::Items;
use snapshot_file::ManifestInfo;
use std::alloc::{AllocError, Global};
use std::cmp::Ordering;
use std::marker::Model;

/// The manifests of a vector, read in place. Contracts see them as the list of what the snapshot says of them.
#[derive(Drop)]
struct FileVector<'a> {
    vector: Vector<'a>,
}

impl<'a> Model for FileVector<'a> {
    ghost use Rattle.std.specs.Prelude.{List, ◌≡◌, IsOk};
    ghost use Rattle.snapshot_file.specs.declared.snapshot.ManifestInfo.{ManifestInfo as TheInfo};
    ghost use Rattle.snapshot_file.specs.Snapshots.{files_in};
    ghost use Rattle.held_manifest.specs.Views.{rows_or_none};

    ghost Value = { List TheInfo };

    ghost view = { λ f. rows_or_none (files_in f.vector) };

    ghost invariant = { λ f. IsOk (files_in f.vector) × (f.vector.size ≡ 32) };
}

/// Whether a manifest may stand behind the one with the last id, if there is one.
fn file_follows(last: Option<&Id12>, file: &ManifestInfo) -> bool
    ensures { result ≡ follows (option_map (λ id. id.0) (option_copied last.entry))
        (file_key file.now) }
{
    match last {
        None => true,
        Some(last) => last.cmp(&file.id).is_lt(),
    }
}

/// The manifests of a vector, which stand in order; else the first fault.
fn files_in<'a>(vector: Vector<'a>) -> Result<FileVector<'a>, FileFault>
    requires { vector.size ≡ 32 }
    ensures { result ≡ files_in vector.entry }
{
    let mut last: Option<Id12> = None;
    for at in 0..vector.len() {
        let file = info_of(vector.item(at));
        if !file_follows(last.as_ref(), &file) {
            return Err(FileFault::Order { slot: 6, at });
        }
        last = Some(file.id);
    }
    Ok(FileVector { vector })
}

impl<'a> FileVector<'a> {
    /// How many manifests there are. They stand in the strict order of their ids' bytes.
    fn len(&self) -> usize
        ensures count { result ≡ length self.now }
        ensures order { Ascends file_key None self.now }
    {
        self.vector.len()
    }

    /// Manifest number `i`, in their order.
    fn at(&self, i: usize) -> ManifestInfo
        requires { i < length self.now }
        ensures { slice_get self.now i ≡ Some result }
    {
        info_of(self.vector.item(i))
    }

    /// What is said of the manifest with this id. The search goes by halves.
    fn find(&self, id: &Id12) -> Option<ManifestInfo>
        ensures { result ≡ file_with self.now id.now }
    {
        let mut low = 0;
        let mut high = self.len();
        while low < high {
            let middle = low + (high - low) / 2;
            let file = self.at(middle);
            match file.id.cmp(id) {
                Ordering::Less => low = middle + 1,
                Ordering::Equal => return Some(file),
                Ordering::Greater => high = middle,
            }
        }
        None
    }
}

/// The manifests of a snapshot, read in place: none where the list is absent. Contracts see them as the list of what the snapshot
/// says of them.
#[derive(Drop)]
pub struct HeldFiles<'a> {
    rows: Option<FileVector<'a>>,
}

impl<'a> Model for HeldFiles<'a> {
    ghost use Rattle.std.specs.Prelude.{List};
    ghost use Rattle.snapshot_file.specs.declared.snapshot.ManifestInfo.{ManifestInfo as TheInfo};
    ghost use Rattle.held_snapshot.specs.Views.{rows_there};

    ghost Value = { List TheInfo };

    ghost view = { λ f. rows_there f.rows };
}

/// The manifests of a snapshot's table, none where the slot is absent; else the first fault.
#[tactic(auto, unfolding(snapshot_file::specs::Snapshots::files_of))]
pub(crate) fn files_of<'a>(table: &Table<'a>) -> Result<HeldFiles<'a>, FileFault>
    ensures { result ≡ files_of table.now }
{
    match table.vector(6, 32)? {
        None => Ok(HeldFiles { rows: None }),
        Some(vector) => Ok(HeldFiles {
            rows: Some(files_in(vector)?),
        }),
    }
}

/// The manifests of a snapshot's table, which were read before.
pub(crate) fn held_files<'a>(table: &Table<'a>) -> HeldFiles<'a>
    requires { IsOk (files_of table.now) }
    ensures { files_of table.now ≡ Ok result }
{
    match table.vector(6, 32).unwrap() {
        None => HeldFiles { rows: None },
        Some(vector) => HeldFiles {
            rows: Some(FileVector { vector }),
        },
    }
}

impl<'a> HeldFiles<'a> {
    /// How many manifests there are. They stand in the strict order of their ids' bytes.
    pub fn len(&self) -> usize
        ensures count { result ≡ length self.now }
        ensures order { Ascends file_key None self.now }
    {
        match &self.rows {
            None => 0,
            Some(rows) => rows.len(),
        }
    }

    /// What the snapshot says of manifest number `i`, in their order.
    pub fn at(&self, i: usize) -> ManifestInfo
        requires { i < length self.now }
        ensures { slice_get self.now i ≡ Some result }
    {
        match &self.rows {
            None => unreachable!(),
            Some(rows) => rows.at(i),
        }
    }

    /// What the snapshot says of the manifest with this id; `None` exactly where it isn't among them. The search goes by halves.
    pub fn find(&self, id: &Id12) -> Option<ManifestInfo>
        ensures { result ≡ file_with self.now id.now }
    {
        match &self.rows {
            None => None,
            Some(rows) => rows.find(id),
        }
    }

    /// Whether a manifest with this id is among them. The search goes by halves.
    pub fn has(&self, id: &Id12) -> bool
        ensures { result ≡ has_file self.now id.now }
    {
        self.find(id).is_some()
    }

    /// The same in memory of their own.
    pub fn copy(&self, alloc: Global) -> Result<Items<ManifestInfo>, AllocError>
        ensures { IfOk result (λ copy. copy ≡ self.now) }
    {
        let mut files: Vec<ManifestInfo> = Vec::new(alloc);
        for i in 0..self.len() {
            files.push(self.at(i))?;
        }
        Ok(Items::from_vec(files))
    }
}
