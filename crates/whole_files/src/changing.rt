//! Files that are made, replaced and removed.

ghost use Rattle.std.specs.Prelude.{◌≡◌, None, Some, IfOk, IfSome, OnOk, IsTrue};
ghost use Rattle.folder.specs.Files.{SameBut, SameButTwo, PlacesOver, Removes, IsIn, NoLooser, LooserAt, HasBytes, Leaves, IsChanged, IsPlaced};
ghost use Rattle.whole_files.specs.Places.{asides_of};
ghost use Rattle.whole_files.specs.Whole.{SameFiles, OnlyAt, IsOutside, LooserAside, IsLeft, its_version};
ghost use Rattle.whole_files.specs.Changes.{MakesFile, PlacesDraft, Replaces, RemovesVersion, IsOtherVersion, IsNew, IsOver, IsGone, UnlessFailed};

use crate::asides::write_aside;
use crate::known::Known;
use crate::places::{Places, flush_folder, make_folders, reached};
use crate::reading::{file_version, version_seen};
use crate::versions::Putting;
use folder::{Call, Cause, FileFault, Folder, Kind, Seen, Trouble, failed};
use std::alloc::Global;

/// What came of a change of a version that was to stand at a path.
#[derive(Clone, Copy, Debug)]
pub enum VersionChange {
    /// It was made.
    Made,
    /// Another version stands there, or none.
    Other(Option<u64>),
}

/// The version of the file at a path whose folders are there, if one is there.
fn version_in<F: Folder>(tree: &F, putting: Putting, path: &str) -> Result<Option<u64>, Trouble>
    ensures { IsTrue F.tells
        → IfOk result (λ found. found ≡ its_version putting (F.files tree.now path.now)) }
{
    match tree.look(path)? {
        None => Ok(None),
        Some(seen) if seen.kind != Kind::File => Err(failed(Call::Look, Cause::NotFile)),
        Some(seen) => Ok(Some(version_seen(tree, putting, path, &seen)?)),
    }
}

/// The version of the file at a path whose folders are there, if one is there, before another one is made. What is put once has a
/// path of its own, so nothing is asked where nothing stood at the last one: where a file is there, the move finds it.
fn version_before<F: Folder>(
    tree: &F,
    known: &Known,
    putting: Putting,
    path: &str,
) -> Result<Option<u64>, Trouble>
    ensures { IsTrue F.tells
        → IfOk result
        (λ found. IfSome found (λ version. its_version putting (F.files tree.now path.now)
        ≡ Some version)) }
{
    match putting {
        Putting::Once if !known.stood => Ok(None),
        Putting::Once | Putting::Over => version_in(tree, putting, path),
    }
}

/// Moves a draft to a path in a folder that was seen, which lies at another path: it is there then, or something stands there, whose
/// version is told.
fn place_file<F: Folder>(
    tree: &mut F,
    putting: Putting,
    draft: F::Draft,
    path: &str,
    above: &str,
    folder: &Seen,
) -> Result<Option<u64>, Trouble>
    requires within { IsIn above.now path.now }
    requires flushed { IsTrue F.tells → IsTrue (F.flushed draft) }
    ensures firm { IsTrue F.tells
        → OnOk result (LooserAt (F.aside draft) (F.loose tree.old) (F.loose tree.new)) }
    ensures placed { IsTrue F.tells
        → PlacesDraft putting (F.written draft) (F.files tree.old path.now)
        (F.files tree.new path.now) result }
    ensures files { IsTrue F.tells → SameButTwo path.now (F.aside draft) (F.files tree.old)
        (F.files tree.new) }
    ensures left { IsTrue F.tells
        → Leaves
        (IsPlaced path.now (F.aside draft) (IsNew (F.written draft) (F.files tree.old path.now))
        (F.files tree.old)) (F.left tree.old) (F.left tree.new) }
{
    if tree.place_new(draft, path)? {
        tree.flush_folder(above, folder)?;
        return Ok(None);
    }
    match version_in(tree, putting, path)? {
        Some(version) => Ok(Some(version)),
        None => Err(failed(Call::Link, Cause::Changed)),
    }
}

/// Makes a file of these bytes where none is, or tells the version that stands there.
pub fn make_file<F: Folder>(
    tree: &mut F,
    places: &Places,
    known: &mut Known,
    alloc: Global,
    putting: Putting,
    path: &str,
    bytes: &[u8],
) -> Result<Option<u64>, FileFault>
    requires { IsOutside (asides_of places.now) path.now }
    ensures made { IsTrue F.tells → MakesFile putting bytes.now (F.files tree.old path.now)
        (F.files tree.new path.now) result }
    ensures files { IsTrue F.tells → OnlyAt (asides_of places.now) path.now (F.files tree.old)
        (F.files tree.new) }
    ensures firm { IsTrue F.tells
        → UnlessFailed result (LooserAside (asides_of places.now) (F.loose tree.old)
        (F.loose tree.new)) }
    ensures left { IsTrue F.tells
        → Leaves
        (IsLeft (asides_of places.now) path.now (IsNew bytes.now (F.files tree.old path.now))
        (F.files tree.old)) (F.left tree.old) (F.left tree.new) }
{
    let above = reached(Call::Link, path)?;
    let folder = make_folders(tree, places.root(), path)?;
    if let Some(version) = version_before(tree, known, putting, path)? {
        return Ok(Some(version));
    }
    let draft = write_aside(tree, places, known, alloc, bytes)?;
    let found = place_file(tree, putting, draft, path, above, &folder)?;
    known.stood = found.is_some();
    Ok(found)
}

/// Moves a draft over the file at a path.
fn move_over<F: Folder>(
    tree: &mut F,
    root: &str,
    draft: F::Draft,
    path: &str,
) -> Result<(), Trouble>
    requires { IsTrue F.tells → IsTrue (F.flushed draft) }
    ensures firm { IsTrue F.tells
        → OnOk result (LooserAt (F.aside draft) (F.loose tree.old) (F.loose tree.new)) }
    ensures placed { IsTrue F.tells → PlacesOver (F.written draft) (F.files tree.old path.now)
        (F.files tree.new path.now) result }
    ensures files { IsTrue F.tells → SameButTwo path.now (F.aside draft) (F.files tree.old)
        (F.files tree.new) }
    ensures left { IsTrue F.tells
        → Leaves (IsPlaced path.now (F.aside draft) (HasBytes (F.written draft)) (F.files tree.old))
        (F.left tree.old) (F.left tree.new) }
{
    tree.place_over(draft, path)?;
    flush_folder(tree, root, path)
}

/// Puts a file of these bytes in the place of the one with this version.
pub fn replace_file<F: Folder>(
    tree: &mut F,
    places: &Places,
    known: &mut Known,
    alloc: Global,
    putting: Putting,
    path: &str,
    bytes: &[u8],
    old: u64,
) -> Result<VersionChange, FileFault>
    requires { IsOutside (asides_of places.now) path.now }
    ensures moved { IfOk result (IsOtherVersion old) }
    ensures replaced { IsTrue F.tells → Replaces putting bytes.now old (F.files tree.old path.now)
        (F.files tree.new path.now) result }
    ensures files { IsTrue F.tells → OnlyAt (asides_of places.now) path.now (F.files tree.old)
        (F.files tree.new) }
    ensures firm { IsTrue F.tells
        → UnlessFailed result (LooserAside (asides_of places.now) (F.loose tree.old)
        (F.loose tree.new)) }
    ensures left { IsTrue F.tells
        → Leaves
        (IsLeft (asides_of places.now) path.now
        (IsOver putting bytes.now old (F.files tree.old path.now)) (F.files tree.old))
        (F.left tree.old) (F.left tree.new) }
{
    let found = file_version(tree, putting, path)?;
    if found != Some(old) {
        return Ok(VersionChange::Other(found));
    }
    let draft = write_aside(tree, places, known, alloc, bytes)?;
    move_over(tree, places.root(), draft, path)?;
    Ok(VersionChange::Made)
}

/// Removes the plain file at a path, and tells whether one was there.
pub fn remove_file<F: Folder>(tree: &mut F, root: &str, path: &str) -> Result<bool, Trouble>
    ensures removed { IsTrue F.tells
        → Removes (F.files tree.old path.now) (F.files tree.new path.now) result }
    ensures files { IsTrue F.tells → SameBut path.now (F.files tree.old) (F.files tree.new) }
    ensures firm { IsTrue F.tells → OnOk result (NoLooser (F.loose tree.old) (F.loose tree.new)) }
    ensures left { IsTrue F.tells → Leaves (IsChanged path.now (λ f. f ≡ None) (F.files tree.old))
        (F.left tree.old) (F.left tree.new) }
{
    if !tree.remove(path)? {
        return Ok(false);
    }
    flush_folder(tree, root, path)?;
    Ok(true)
}

/// Removes the file with this version.
pub fn remove_version<F: Folder>(
    tree: &mut F,
    root: &str,
    putting: Putting,
    path: &str,
    old: u64,
) -> Result<VersionChange, Trouble>
    ensures moved { IfOk result (IsOtherVersion old) }
    ensures removed { IsTrue F.tells → RemovesVersion putting old (F.files tree.old path.now)
        (F.files tree.new path.now) result }
    ensures files { IsTrue F.tells → SameBut path.now (F.files tree.old) (F.files tree.new) }
    ensures firm { IsTrue F.tells → OnOk result (NoLooser (F.loose tree.old) (F.loose tree.new)) }
    ensures left { IsTrue F.tells
        → Leaves (IsChanged path.now (IsGone putting old (F.files tree.old path.now))
        (F.files tree.old)) (F.left tree.old) (F.left tree.new) }
{
    let standing = file_version(tree, putting, path)?;
    if standing != Some(old) {
        return Ok(VersionChange::Other(standing));
    }
    if remove_file(tree, root, path)? {
        Ok(VersionChange::Made)
    } else {
        Ok(VersionChange::Other(None))
    }
}
