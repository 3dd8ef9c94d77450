//! Folders of a directory, in which files lie.

ghost use Rattle.std.specs.Prelude.{◌≡◌, IfOk, IfSome, IfNone, OnOk, IsTrue, string_bytes};
ghost use Rattle.folder.specs.declared.seen.Kind.TheVariants as Kinds;
ghost use Rattle.folder.specs.Files.{IsIn, NoneLoose, NoLooser, Leaves, IsKept};
ghost use Rattle.whole_files.specs.Whole.{SameFiles, FirmAt};
ghost use Rattle.whole_files.specs.Places.{root_of, asides_of};

use folder::{Call, Cause, Folder, Kind, Seen, Trouble, failed};

/// Where a directory lies, and the folder in it in which files are written before they are moved to their places.
#[derive(Drop)]
pub struct Places {
    root: String,
    asides: String,
}

impl Places {
    /// These two paths.
    pub fn new(root: String, asides: String) -> Places
        ensures root { root_of result ≡ string_bytes root }
        ensures asides { asides_of result ≡ string_bytes asides }
    {
        Places { root, asides }
    }

    /// The path of the directory.
    pub fn root(&self) -> &str
        ensures { result.now ≡ root_of self.now }
    {
        self.root.as_str()
    }

    /// The path of the folder of files aside.
    pub fn asides(&self) -> &str
        ensures { result.now ≡ asides_of self.now }
    {
        self.asides.as_str()
    }
}

/// The folder that a path lies in, if it names one.
pub(crate) fn folder_of(path: &str) -> Option<&str>
    ensures { IfSome result (λ folder. IsIn folder.now path.now) }
{
    let (folder, _) = path.rsplit_once('/')?;
    Some(folder)
}

/// The folder that a path lies in, for a call.
pub(crate) fn reached(call: Call, path: &str) -> Result<&str, Trouble>
    ensures { IfOk result (λ folder. IsIn folder.now path.now) }
{
    match folder_of(path) {
        Some(folder) => Ok(folder),
        None => Err(failed(call, Cause::Unreached)),
    }
}

/// The folder that lies at a path, if one does: beneath anything else no name is loose.
pub fn folder_at<F: Folder>(tree: &F, path: &str) -> Result<Option<Seen>, Trouble>
    ensures kind { IfOk result (λ found. IfSome found (λ seen. seen.kind ≡ Kinds.Folder)) }
    ensures none { IsTrue F.tells
        → IfOk result (λ found. IfNone found (NoneLoose (F.loose tree.now) path.now)) }
{
    match tree.look(path)? {
        Some(seen) => match seen.kind {
            Kind::Folder => Ok(Some(seen)),
            Kind::File | Kind::Other => Ok(None),
        },
        None => Ok(None),
    }
}

/// Flushes to disk which files the folder of a path holds.
pub(crate) fn flush_folder<F: Folder>(tree: &mut F, root: &str, path: &str) -> Result<(), Trouble>
    ensures files { IsTrue F.tells → SameFiles (F.files tree.old) (F.files tree.new) }
    ensures firm { IsTrue F.tells
        → OnOk result (FirmAt path.now (F.loose tree.old) (F.loose tree.new)) }
    ensures left { IsTrue F.tells → Leaves (IsKept (F.files tree.old)) (F.left tree.old)
        (F.left tree.new) }
{
    let folder = reached(Call::Flush, path)?;
    if folder == root {
        return tree.flush_root(root);
    }
    match folder_at(tree, folder)? {
        Some(seen) => tree.flush_folder(folder, &seen),
        None => Err(failed(Call::Flush, Cause::Unreached)),
    }
}

/// The folder that lies at a path, if anything does. Where that is something else, the cause is this one.
fn seen_folder<F: Folder>(tree: &F, folder: &str, cause: Cause) -> Result<Option<Seen>, Trouble> {
    match tree.look(folder)? {
        Some(seen) if seen.kind != Kind::Folder => Err(failed(Call::MakeFolder, cause)),
        found => Ok(found),
    }
}

/// Makes a folder where nothing is, and flushes to disk that it is there.
pub(crate) fn make_folder<F: Folder>(
    tree: &mut F,
    root: &str,
    folder: &str,
    cause: Cause,
) -> Result<Seen, Trouble>
    ensures files { IsTrue F.tells → SameFiles (F.files tree.old) (F.files tree.new) }
    ensures firm { IsTrue F.tells → OnOk result (NoLooser (F.loose tree.old) (F.loose tree.new)) }
    ensures left { IsTrue F.tells → Leaves (IsKept (F.files tree.old)) (F.left tree.old)
        (F.left tree.new) }
{
    if let Some(seen) = seen_folder(tree, folder, cause)? {
        return Ok(seen);
    }
    tree.make_folder(folder)?;
    flush_folder(tree, root, folder)?;
    match seen_folder(tree, folder, cause)? {
        Some(seen) => Ok(seen),
        None => Err(failed(Call::MakeFolder, Cause::Changed)),
    }
}

/// Makes the folders in the directory that a path lies in, where they aren't there: one or two. It gives
/// the last.
pub(crate) fn make_folders<F: Folder>(tree: &mut F, root: &str, path: &str) -> Result<Seen, Trouble>
    ensures files { IsTrue F.tells → SameFiles (F.files tree.old) (F.files tree.new) }
    ensures firm { IsTrue F.tells → OnOk result (NoLooser (F.loose tree.old) (F.loose tree.new)) }
    ensures left { IsTrue F.tells → Leaves (IsKept (F.files tree.old)) (F.left tree.old)
        (F.left tree.new) }
{
    let folder = reached(Call::MakeFolder, path)?;
    let above = folder_of(folder).unwrap_or(root);
    if above != root {
        make_folder(tree, root, above, Cause::Unreached)?;
    }
    make_folder(tree, root, folder, Cause::Unreached)
}
