//! The manifests that rows name.

ghost use Rattle.std.specs.Prelude.{◌≡◌, ◌||◌, ◌++◌, IfOk, OnOk};
ghost use Rattle.std.specs.FinMap as map;
ghost use Rattle.ice_ids.specs.declared.Id12.{Id12 as TheId};
ghost use Rattle.changed_snapshot.specs.Rows.{infos_of, files_with, names_in, files_over};
ghost use Rattle.changed_snapshot.specs.inside.Named.{has_id, have_id, files_by_id};

use crate::new_snapshot::NewList;
use crate::rows::RowsOver;
use held_snapshot::HeldFiles;
use ice_ids::Id12;
use ice_items::Items;
use snapshot_file::{ManifestInfo, ManifestRef, RowSource};
use std::alloc::{AllocError, Global};
use std::collections::{BTreeMap, BTreeSet};

/// What a snapshot says of new manifests.
fn infos_of(alloc: Global, news: &[NewList]) -> Result<Vec<ManifestInfo>, AllocError>
    ensures { IfOk result (λ infos. infos.items ≡ infos_of news.now) }
{
    let mut infos = Vec::new(alloc);
    for list in news {
        if let Some(new) = &list.manifest {
            infos.push(ManifestInfo {
                id: new.id,
                size: new.size,
                refs: new.refs,
            })?;
        }
    }
    Ok(infos)
}

/// Manifests by their ids, of two of one id the first.
fn by_id(alloc: Global, files: &[ManifestInfo]) -> Result<BTreeMap<Id12, ManifestInfo>, AllocError>
    ensures { IfOk result (λ by_id. by_id.entries ≡ map.entries (files_by_id files.now)) }
{
    let mut by_id = BTreeMap::new(alloc);
    for k in (0..files.len()).rev() {
        let file = files[k];
        by_id.insert(file.id, file)?;
    }
    Ok(by_id)
}

/// Appends what a snapshot says of these manifests.
fn push_files(all: &mut Vec<ManifestInfo>, files: &HeldFiles) -> Result<(), AllocError>
    ensures { OnOk result (all.new.items ≡ all.old.items ++ files.now) }
{
    for at in 0..files.len() {
        all.push(files.at(at))?;
    }
    Ok(())
}

/// New manifests and these, in the order of their ids, of two of one id the first.
pub(crate) fn files_with(
    alloc: Global,
    files: &HeldFiles,
    news: &[NewList],
) -> Result<Items<ManifestInfo>, AllocError>
    ensures { IfOk result (λ with. with ≡ files_with files.now news.now) }
{
    let mut all = infos_of(alloc, news)?;
    push_files(&mut all, files)?;
    let by_id = by_id(alloc, all.as_slice())?;
    Ok(Items::from_vec(by_id.into_values().collect(alloc)?))
}

/// Enters the ids of manifests.
fn enter(ids: &mut BTreeSet<Id12>, manifests: &[ManifestRef]) -> Result<(), AllocError>
    ensures { OnOk result ((id : TheId)
        → has_id ids.new.keys id ≡ (has_id ids.old.keys id || have_id manifests.now id)) }
{
    for manifest in manifests {
        ids.insert(manifest.id)?;
    }
    Ok(())
}

/// The ids of the manifests that rows name.
fn named(alloc: Global, rows: &RowsOver) -> Result<BTreeSet<Id12>, AllocError>
    ensures { IfOk result (λ ids. (id : TheId) → has_id ids.keys id ≡ names_in rows.now id) }
{
    let mut ids = BTreeSet::new(alloc);
    for at in 0..rows.len() {
        let row = rows.row(alloc, at)?;
        enter(&mut ids, row.kind.manifests())?;
    }
    Ok(ids)
}

/// The manifests that rows name, of these.
pub(crate) fn files_over(
    alloc: Global,
    files: &[ManifestInfo],
    rows: &RowsOver,
) -> Result<Items<ManifestInfo>, AllocError>
    ensures { IfOk result (λ kept. kept ≡ files_over files.now rows.now) }
{
    let mut kept = Vec::new(alloc);
    if files.is_empty() {
        return Ok(Items::from_vec(kept));
    }
    let ids = named(alloc, rows)?;
    for file in files {
        if ids.contains(&file.id) {
            kept.push(*file)?;
        }
    }
    Ok(Items::from_vec(kept))
}
