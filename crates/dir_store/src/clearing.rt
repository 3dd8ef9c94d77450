//! What a program that was cut off has left: files aside, and entries of folders that aren't flushed.

ghost use Rattle.std.specs.Prelude.{◌++◌, codes, map, string_bytes, IfOk, OnOk, IsTrue, MatchOption};
ghost use Rattle.folder.specs.Files.{SameBut, NoneLoose, TellsLoose, NoLooser, Firms, Leaves, IsKept};
ghost use Rattle.whole_files.specs.Whole.{SameFiles, OnlyAside};
ghost use Rattle.object_files.specs.Paths.{aside_folder_in};
ghost use Rattle.dir_store.specs.Firm.{AreFirm};
ghost use Rattle.dir_store.specs.inside.Flushing.{FirmsBeneath, AreFirmParts};

use crate::claims::Claim;
use folder::{FileFault, Folder, Kind, SystemFolder};
use object_files::{aside_folder, folder_of, is_aside, joined};
use object_store::Part;
use std::alloc::Global;
use std::rt::Files;
use whole_files::folder_at;

/// The names in a folder, if one is there. A link to one is none.
fn names_in<F: Folder>(
    tree: &F,
    alloc: Global,
    folder: &str,
) -> Result<Option<Vec<String>>, FileFault>
    ensures { IsTrue F.tells
        → IfOk result (λ found. MatchOption found (NoneLoose (F.loose tree.now) folder.now)
        (λ names. TellsLoose (F.loose tree.now) folder.now (map string_bytes names.items))) }
{
    match folder_at(tree, folder)? {
        Some(_) => tree.list(alloc, folder),
        None => Ok(None),
    }
}

/// Removes what lies at a path, if it is a plain file.
fn remove_plain<F: Folder>(tree: &mut F, path: &str) -> Result<(), FileFault>
    ensures { IsTrue F.tells → SameBut path.now (F.files tree.old) (F.files tree.new) }
{
    match tree.look(path)? {
        Some(seen) if seen.kind == Kind::File => {
            tree.remove(path)?;
            Ok(())
        }
        _ => Ok(()),
    }
}

/// Removes the file of this name in the folder of files aside, if it is one.
fn remove_aside<F: Folder>(
    tree: &mut F,
    alloc: Global,
    folder: &str,
    name: &str,
) -> Result<(), FileFault>
    ensures { IsTrue F.tells → OnlyAside folder.now (F.files tree.old) (F.files tree.new) }
{
    if !is_aside(name) {
        return Ok(());
    }
    let path = joined(alloc, folder, name)?;
    remove_plain(tree, path.as_str())
}

/// Removes the files that were left aside in this folder.
fn remove_asides<F: Folder>(tree: &mut F, alloc: Global, folder: &str) -> Result<(), FileFault>
    ensures { IsTrue F.tells → OnlyAside folder.now (F.files tree.old) (F.files tree.new) }
{
    let Some(names) = names_in(tree, alloc, folder)? else {
        return Ok(());
    };
    for name in names.as_slice() {
        remove_aside(tree, alloc, folder, name.as_str())?;
    }
    Ok(())
}

/// Flushes the folder of this name in a folder, if one is there.
fn flush_part<F: Folder>(
    tree: &mut F,
    alloc: Global,
    folder: &str,
    name: &str,
) -> Result<(), FileFault>
    ensures files { IsTrue F.tells → SameFiles (F.files tree.old) (F.files tree.new) }
    ensures loose { IsTrue F.tells → NoLooser (F.loose tree.old) (F.loose tree.new) }
    ensures left { IsTrue F.tells → Leaves (IsKept (F.files tree.old)) (F.left tree.old)
        (F.left tree.new) }
    ensures firm { IsTrue F.tells
        → OnOk result (Firms (folder.now ++ codes "/" ++ name.now) (F.loose tree.old)
        (F.loose tree.new)) }
{
    let path = joined(alloc, folder, name)?;
    match folder_at(tree, path.as_str())? {
        Some(seen) => Ok(tree.flush_folder(path.as_str(), &seen)?),
        None => Ok(()),
    }
}

/// Flushes the folders in this folder.
fn flush_folders<F: Folder>(tree: &mut F, alloc: Global, folder: &str) -> Result<(), FileFault>
    ensures files { IsTrue F.tells → SameFiles (F.files tree.old) (F.files tree.new) }
    ensures loose { IsTrue F.tells → NoLooser (F.loose tree.old) (F.loose tree.new) }
    ensures left { IsTrue F.tells → Leaves (IsKept (F.files tree.old)) (F.left tree.old)
        (F.left tree.new) }
    ensures firm { IsTrue F.tells
        → OnOk result (FirmsBeneath folder.now (F.loose tree.old) (F.loose tree.new)) }
{
    let Some(names) = names_in(tree, alloc, folder)? else {
        return Ok(());
    };
    for name in names.as_slice() {
        flush_part(tree, alloc, folder, name.as_str())?;
    }
    Ok(())
}

/// Flushes the folders of the parts in this directory.
fn flush_parts<F: Folder>(tree: &mut F, alloc: Global, root: &str) -> Result<(), FileFault>
    ensures files { IsTrue F.tells → SameFiles (F.files tree.old) (F.files tree.new) }
    ensures loose { IsTrue F.tells → NoLooser (F.loose tree.old) (F.loose tree.new) }
    ensures left { IsTrue F.tells → Leaves (IsKept (F.files tree.old)) (F.left tree.old)
        (F.left tree.new) }
    ensures firm { IsTrue F.tells → OnOk result (AreFirmParts (F.loose tree.new) root.now) }
{
    flush_part(tree, alloc, root, folder_of(Part::Snapshots))?;
    flush_part(tree, alloc, root, folder_of(Part::Manifests))?;
    flush_part(tree, alloc, root, folder_of(Part::Txns))?;
    flush_part(tree, alloc, root, folder_of(Part::Chunks))?;
    flush_part(tree, alloc, root, folder_of(Part::Branches))?;
    flush_part(tree, alloc, root, folder_of(Part::Leases))
}

/// Flushes to disk which files and folders the directory holds. So what is read afterwards outlasts a
/// loss of power, as does what is put.
pub(crate) fn flush_all<F: Folder>(tree: &mut F, alloc: Global, root: &str) -> Result<(), FileFault>
    ensures files { IsTrue F.tells → SameFiles (F.files tree.old) (F.files tree.new) }
    ensures loose { IsTrue F.tells → NoLooser (F.loose tree.old) (F.loose tree.new) }
    ensures left { IsTrue F.tells → Leaves (IsKept (F.files tree.old)) (F.left tree.old)
        (F.left tree.new) }
    ensures firm { IsTrue F.tells → OnOk result (AreFirm (F.loose tree.new) root.now) }
{
    let refs = joined(alloc, root, folder_of(Part::Branches))?;
    flush_folders(tree, alloc, refs.as_str())?;
    flush_parts(tree, alloc, root)?;
    Ok(tree.flush_root(root)?)
}

/// Removes what was left aside in this directory, and flushes to disk which files and folders it holds.
fn clear_in<F: Folder>(tree: &mut F, alloc: Global, root: &str) -> Result<(), FileFault>
    ensures files { IsTrue F.tells → OnlyAside (aside_folder_in root.now) (F.files tree.old)
        (F.files tree.new) }
    ensures firm { IsTrue F.tells → OnOk result (AreFirm (F.loose tree.new) root.now) }
{
    let asides = aside_folder(alloc, root)?;
    remove_asides(tree, alloc, asides.as_str())?;
    flush_all(tree, alloc, root)
}

/// Removes what was left aside, and flushes to disk which files and folders the directory holds. The claim shows that no other
/// program works on it.
pub(crate) fn clear<R: Files + AllocGlobal + Clone + Drop>(
    rt: &R,
    root: &str,
    _claim: &Claim,
) -> Result<(), FileFault> {
    let mut tree = SystemFolder::at(rt.clone()?, root)?;
    clear_in(&mut tree, rt.alloc(), root)
}
