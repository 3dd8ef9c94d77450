//! Files that are written aside.

ghost use Rattle.std.specs.Prelude.{◌≡◌, ◌++◌, [], IfOk, OnOk, IsTrue, string_bytes};
ghost use Rattle.folder.specs.Files.{SameBut, NoLooser, Leaves, IsKeptBut};
ghost use Rattle.whole_files.specs.Places.{asides_of};
ghost use Rattle.whole_files.specs.Whole.{SameFiles, OnlyAside, IsAside, aside_in, LooserAside, IsKeptAside};
ghost use Rattle.whole_files.specs.Changes.{UnlessFailed};

use crate::known::Known;
use crate::places::{Places, make_folder};
use crate::reading::in_memory;
use folder::{Call, Cause, FileFault, Folder, Trouble, failed};
use std::alloc::{AllocError, Global};

/// The path of a file aside, in this folder of such files.
fn aside_of(alloc: Global, asides: &str, number: u32) -> Result<String, AllocError>
    ensures { IfOk result (λ path. string_bytes path ≡ aside_in asides.now number) }
{
    let mut path = String::from_str(alloc, asides)?;
    path.push_str("/")?;
    write!(path, "{number}")?;
    Ok(path)
}

/// Makes a draft that wasn't there before, in the folder of files aside.
fn free_draft<F: Folder>(
    tree: &mut F,
    places: &Places,
    alloc: Global,
) -> Result<F::Draft, FileFault>
    ensures aside { IsTrue F.tells
        → IfOk result (λ draft. IsAside (asides_of places.now) (F.aside draft)) }
    ensures written { IsTrue F.tells → IfOk result (λ draft. F.written draft ≡ []) }
    ensures files { IsTrue F.tells → OnlyAside (asides_of places.now) (F.files tree.old)
        (F.files tree.new) }
    ensures firm { IsTrue F.tells → LooserAside (asides_of places.now) (F.loose tree.old)
        (F.loose tree.new) }
    ensures left { IsTrue F.tells → Leaves (IsKeptAside (asides_of places.now) (F.files tree.old))
        (F.left tree.old) (F.left tree.new) }
{
    for number in 0..u32::MAX {
        let path = in_memory(aside_of(alloc, places.asides(), number))?;
        if let Some(draft) = tree.create(path)? {
            return Ok(draft);
        }
    }
    Err(FileFault::from(failed(Call::Open, Cause::Unnamed)))
}

/// Makes a draft that wasn't there before, and its folder where nothing is.
fn first_draft<F: Folder>(
    tree: &mut F,
    places: &Places,
    known: &mut Known,
    alloc: Global,
) -> Result<F::Draft, FileFault>
    ensures aside { IsTrue F.tells
        → IfOk result (λ draft. IsAside (asides_of places.now) (F.aside draft)) }
    ensures written { IsTrue F.tells → IfOk result (λ draft. F.written draft ≡ []) }
    ensures files { IsTrue F.tells → OnlyAside (asides_of places.now) (F.files tree.old)
        (F.files tree.new) }
    ensures firm { IsTrue F.tells
        → UnlessFailed result (LooserAside (asides_of places.now) (F.loose tree.old)
        (F.loose tree.new)) }
    ensures left { IsTrue F.tells → Leaves (IsKeptAside (asides_of places.now) (F.files tree.old))
        (F.left tree.old) (F.left tree.new) }
{
    make_folder(tree, places.root(), places.asides(), Cause::NoAside)?;
    known.asides = true;
    free_draft(tree, places, alloc)
}

/// Makes a draft that wasn't there before. Its folder is asked for once, and again where it is gone.
fn new_draft<F: Folder>(
    tree: &mut F,
    places: &Places,
    known: &mut Known,
    alloc: Global,
) -> Result<F::Draft, FileFault>
    ensures aside { IsTrue F.tells
        → IfOk result (λ draft. IsAside (asides_of places.now) (F.aside draft)) }
    ensures written { IsTrue F.tells → IfOk result (λ draft. F.written draft ≡ []) }
    ensures files { IsTrue F.tells → OnlyAside (asides_of places.now) (F.files tree.old)
        (F.files tree.new) }
    ensures firm { IsTrue F.tells
        → UnlessFailed result (LooserAside (asides_of places.now) (F.loose tree.old)
        (F.loose tree.new)) }
    ensures left { IsTrue F.tells → Leaves (IsKeptAside (asides_of places.now) (F.files tree.old))
        (F.left tree.old) (F.left tree.new) }
{
    if !known.asides {
        return first_draft(tree, places, known, alloc);
    }
    match free_draft(tree, places, alloc) {
        Err(
            FileFault::Failed(
                Trouble {
                    cause: Cause::Unreached,
                    ..
                },
            ),
        ) => first_draft(tree, places, known, alloc),
        made => made,
    }
}

/// Writes these bytes to a draft, and flushes it to disk.
fn write_whole<F: Folder>(tree: &mut F, draft: &mut F::Draft, bytes: &[u8]) -> Result<(), Trouble>
    ensures written { IsTrue F.tells
        → OnOk result (F.written draft.new ≡ F.written draft.old ++ bytes.now) }
    ensures aside { IsTrue F.tells → F.aside draft.new ≡ F.aside draft.old }
    ensures flushed { IsTrue F.tells → OnOk result (IsTrue (F.flushed draft.new)) }
    ensures files { IsTrue F.tells → SameBut (F.aside draft.old) (F.files tree.old)
        (F.files tree.new) }
    ensures loose { IsTrue F.tells → NoLooser (F.loose tree.old) (F.loose tree.new) }
    ensures left { IsTrue F.tells → Leaves (IsKeptBut (F.aside draft.old) (F.files tree.old))
        (F.left tree.old) (F.left tree.new) }
{
    tree.write(draft, bytes)?;
    tree.flush(draft)
}

/// Writes these bytes aside, flushed to disk.
pub(crate) fn write_aside<F: Folder>(
    tree: &mut F,
    places: &Places,
    known: &mut Known,
    alloc: Global,
    bytes: &[u8],
) -> Result<F::Draft, FileFault>
    ensures aside { IsTrue F.tells
        → IfOk result (λ draft. IsAside (asides_of places.now) (F.aside draft)) }
    ensures written { IsTrue F.tells → IfOk result (λ draft. F.written draft ≡ bytes.now) }
    ensures flushed { IsTrue F.tells → IfOk result (λ draft. IsTrue (F.flushed draft)) }
    ensures files { IsTrue F.tells → OnlyAside (asides_of places.now) (F.files tree.old)
        (F.files tree.new) }
    ensures firm { IsTrue F.tells
        → UnlessFailed result (LooserAside (asides_of places.now) (F.loose tree.old)
        (F.loose tree.new)) }
    ensures left { IsTrue F.tells → Leaves (IsKeptAside (asides_of places.now) (F.files tree.old))
        (F.left tree.old) (F.left tree.new) }
{
    let mut draft = new_draft(tree, places, known, alloc)?;
    match write_whole(tree, &mut draft, bytes) {
        Ok(()) => Ok(draft),
        Err(trouble) => {
            tree.discard(draft);
            Err(FileFault::from(trouble))
        }
    }
}
