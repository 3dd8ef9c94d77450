//! Whether the branch `main` was lost.

ghost use Rattle.std.specs.Prelude.{◌≡◌, true, IfOk, IsTrue, string_bytes};
ghost use Rattle.dir_store.specs.Contents.{object_at};
ghost use Rattle.dir_store.specs.Losing.{is_more, tell_more, HoldsMore, HoldsAnyMore, main_in, HasLostMain};

use folder::{FileFault, Folder};
use ice_ids::Id12;
use object_files::list_files;
use object_store::{Entry, Key, Part};
use std::alloc::{AllocError, Global};
use whole_files::in_memory;

/// Where the branch `main` lies in a directory.
const MAIN: &str = "/refs/branch.main/ref.json";

/// Whether an object isn't the snapshot that a new repository begins with.
fn is_more(key: &Key) -> bool
    ensures { result ≡ is_more key.now }
{
    match key {
        Key::Snapshot(id) => !(*id == Id12::INITIAL),
        Key::Manifest(_)
        | Key::Txn(_)
        | Key::Chunk(_)
        | Key::Branch(_)
        | Key::Tag(_)
        | Key::Tombstone(_)
        | Key::Lease(_) => true,
    }
}

/// Whether one of these isn't the snapshot that a new repository begins with.
fn tell_more(entries: &[Entry]) -> bool
    ensures { result ≡ tell_more entries.now }
{
    entries.iter().any(|entry| is_more(&entry.key))
}

/// Whether a part holds more than a new repository does. Where it can't be listed that isn't known.
fn holds_more<F: Folder>(tree: &F, alloc: Global, root: &str, part: Part) -> Result<bool, FileFault>
    ensures { IsTrue F.tells
        → IfOk result (λ more. more ≡ true → HoldsMore (object_at (F.files tree.now) root.now)
        part) }
{
    match list_files(tree, alloc, root, part) {
        Ok(entries) => Ok(tell_more(entries.as_slice())),
        Err(refused) => match refused.fault {
            FileFault::Failed(_) => Ok(false),
            FileFault::NoMemory => Err(FileFault::NoMemory),
        },
    }
}

/// Whether a part of refs or snapshots holds more than a new repository does.
fn holds_any_more<F: Folder>(tree: &F, alloc: Global, root: &str) -> Result<bool, FileFault>
    ensures { IsTrue F.tells
        → IfOk result (λ more. more ≡ true → HoldsAnyMore (object_at (F.files tree.now) root.now)) }
{
    for part in [Part::Branches, Part::Tags, Part::Snapshots] {
        if holds_more(tree, alloc, root, part)? {
            return Ok(true);
        }
    }
    Ok(false)
}

/// The path of the branch `main`.
fn main_in(alloc: Global, root: &str) -> Result<String, AllocError>
    ensures { IfOk result (λ path. string_bytes path ≡ main_in root.now) }
{
    let mut path = String::from_str(alloc, root)?;
    path.push_str(MAIN)?;
    Ok(path)
}

/// Whether nothing lies at the place of the branch `main`, though other refs or snapshots are there.
pub(crate) fn is_main_lost<F: Folder>(
    tree: &F,
    alloc: Global,
    root: &str,
) -> Result<bool, FileFault>
    ensures { IsTrue F.tells
        → IfOk result (λ lost. lost ≡ true → HasLostMain (F.files tree.now) root.now) }
{
    let main = in_memory(main_in(alloc, root))?;
    if tree.look(main.as_str())?.is_some() {
        return Ok(false);
    }
    holds_any_more(tree, alloc, root)
}
