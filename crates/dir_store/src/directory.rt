//! The directory on disk, as it is worked on.

ghost use Rattle.std.specs.Prelude.{◌≡◌, true, false, None, Some, Ok, Err, IfOk, OnOk, IsTrue, MatchResult, option_copied, string_bytes};
ghost use Rattle.std.specs.Option.{option_or};
ghost use Rattle.folder.specs.declared.faults.FileFault.TheVariants as Files;
ghost use Rattle.folder.specs.declared.faults.Trouble.{Trouble as TheTrouble};
ghost use Rattle.folder.specs.Files.{SameBut, NoLooser, Leaves, IsKept, IsChanged};
ghost use Rattle.whole_files.specs.Places.{root_of, asides_of};
ghost use Rattle.whole_files.specs.Whole.{SameFiles, OnlyAt, IsOutside, LooserAside, IsLeft, bytes_at};
ghost use Rattle.whole_files.specs.Changes.{MakesFile, Replaces, IsOtherVersion, IsNew, IsOver, IsGone, UnlessFailed};
ghost use Rattle.object_files.specs.Paths.{path_in, folder_in, aside_folder_in};
ghost use Rattle.object_files.specs.Versions.{putting_of};
ghost use Rattle.dir_store.specs.inside.Telling.{as_told, Through, Removed, RemovedVersion, settled_after};
ghost use Rattle.dir_store.specs.Faults.{TellsFirst, TellsFirstIn};
ghost use Rattle.dir_store.specs.Firm.{AreFirmIf};
ghost use Rattle.dir_store.specs.Listings.{IsListed};
ghost use Rattle.dir_store.specs.Contents.{object_at, ListsAll};
ghost use Rattle.object_store.specs.declared.events.StoreFault.TheVariants as StoreFault;

use crate::clearing::flush_all;
use folder::{FileFault, Folder, Trouble};
use ice_base::Bytes;
use object_files::{ListFault, aside_folder, folder_of, joined, list_files, path_of, putting_of};
use object_store::{Entries, Key, Part, StoreFault};
use std::alloc::{AllocError, Global};
use std::fmt;
use whole_files::{
    Known, Places, Putting, VersionChange, make_file, read_file, remove_file, remove_version,
    replace_file,
};

/// The first call on files that failed, and where.
#[derive(Drop)]
pub struct FirstFault {
    trouble: Trouble,
    path: String,
}

impl FirstFault {
    ghost use Rattle.dir_store.specs.Faults.{trouble_of};

    /// The call, and why it failed.
    pub fn trouble(&self) -> Trouble
        ensures { result ≡ trouble_of self.now }
    {
        self.trouble
    }
}

impl fmt::Display for FirstFault {
    ghost use Rattle.dir_store.specs.Texts.{fault_text};

    ghost output = { fault_text };

    fn fmt<W: fmt::Write>(&self, f: &mut fmt::Formatter<W>) -> fmt::Result {
        let path = self.path.as_str();
        let Trouble { call, cause } = self.trouble;
        write!(f, "{call} {path:?}: {cause}")
    }
}

/// Want of memory.
fn or_no_memory<T>(made: Result<T, AllocError>) -> Result<T, StoreFault>
    ensures { MatchResult result (λ value. made ≡ Ok value) (λ fault. fault ≡ StoreFault.NoMemory) }
{
    match made {
        Ok(value) => Ok(value),
        Err(_) => Err(StoreFault::NoMemory),
    }
}

/// A directory, as it is worked on. Where something failed on it, what it holds may not be flushed; so all its
/// folders are flushed before the next change in it.
#[derive(Drop)]
pub(crate) struct Directory<F> {
    tree: F,
    alloc: Global,
    places: Places,
    known: Known,
    settled: bool,
    first_fault: Option<FirstFault>,
    ghost asides: { asides_of places ≡ aside_folder_in (root_of places) },
}

impl<F: Folder> Directory<F> {
    /// The directory at this path, whose folders are flushed.
    pub(crate) fn at(tree: F, alloc: Global, path: &str) -> Result<Directory<F>, AllocError>
    where
        F: Drop,
        ensures root { IfOk result (λ directory. root_of directory.places ≡ path.now) }
        ensures tree { IfOk result (λ directory. directory.tree ≡ tree) }
        ensures settled { IfOk result (λ directory. directory.settled ≡ true) }
        ensures first { IfOk result (λ directory. directory.first_fault ≡ None) }
    {
        let asides = aside_folder(alloc, path)?;
        Ok(Directory {
            places: Places::new(String::from_str(alloc, path)?, asides),
            known: Known::nothing(),
            tree,
            alloc,
            settled: true,
            first_fault: None,
        })
    }

    /// The folder that it is worked on in.
    pub(crate) fn into_tree(self) -> F
        ensures { result ≡ self.tree }
    {
        self.tree
    }

    /// The first call that failed.
    pub(crate) fn first_fault(&self) -> Option<&FirstFault>
        ensures { option_copied result ≡ self.now.first_fault }
    {
        self.first_fault.as_ref()
    }

    /// The path of an object.
    pub(crate) fn path(&self, key: &Key) -> Result<String, StoreFault>
        ensures path { MatchResult result
            (λ path. string_bytes path ≡ path_in (root_of self.now.places) key.now)
            (λ fault. fault ≡ StoreFault.NoMemory) }
        ensures outside { IfOk result (λ path. IsOutside (asides_of self.now.places)
            (string_bytes path)) }
    {
        or_no_memory(path_of(self.alloc, self.places.root(), key))
    }

    /// The path of a part's folder.
    fn part(&self, part: Part) -> Result<String, StoreFault>
        ensures { MatchResult result
            (λ path. string_bytes path ≡ folder_in (root_of self.now.places) part)
            (λ fault. fault ≡ StoreFault.NoMemory) }
    {
        or_no_memory(joined(self.alloc, self.places.root(), folder_of(part)))
    }

    /// Keeps a failure, if it is the first. Folders are to be flushed then.
    fn note(&mut self, path: String, trouble: Trouble)
        ensures tree { self.new.tree ≡ self.old.tree }
        ensures places { self.new.places ≡ self.old.places }
        ensures settled { self.new.settled ≡ false }
        ensures first { self.new.first_fault ≡ option_or self.old.first_fault
            (Some (record { trouble = trouble; path = path })) }
    {
        self.settled = false;
        if self.first_fault.is_none() {
            self.first_fault = Some(FirstFault { trouble, path });
        }
    }

    /// What was done at a path. A failure there is noted.
    fn noted<T>(&mut self, path: String, done: Result<T, FileFault>) -> Result<T, StoreFault>
        ensures told { result ≡ as_told done }
        ensures noted { (trouble : TheTrouble) → done ≡ Err (Files.Failed trouble)
            → self.new.first_fault
            ≡ option_or self.old.first_fault (Some (record { trouble = trouble; path = path })) }
        ensures tree { self.new.tree ≡ self.old.tree }
        ensures places { self.new.places ≡ self.old.places }
        ensures settled { self.new.settled ≡ settled_after self.old.settled done }
        ensures first { TellsFirst (string_bytes path) result self.old.first_fault
            self.new.first_fault }
    {
        match done {
            Ok(value) => Ok(value),
            Err(FileFault::NoMemory) => Err(StoreFault::NoMemory),
            Err(FileFault::Failed(trouble)) => {
                self.note(path, trouble);
                Err(StoreFault::Failed)
            }
        }
    }

    /// Flushes all folders, where one may not be flushed.
    fn settle(&mut self) -> Result<(), FileFault>
        ensures files { IsTrue F.tells → SameFiles (F.files self.old.tree) (F.files self.new.tree) }
        ensures loose { IsTrue F.tells → NoLooser (F.loose self.old.tree) (F.loose self.new.tree) }
        ensures places { self.new.places ≡ self.old.places }
        ensures left { IsTrue F.tells → Leaves (IsKept (F.files self.old.tree))
            (F.left self.old.tree) (F.left self.new.tree) }
        ensures settled { OnOk result (self.new.settled ≡ true) }
        ensures first { self.new.first_fault ≡ self.old.first_fault }
        ensures kept { IsTrue F.tells → AreFirmIf self.old.settled (F.loose self.old.tree)
            (root_of self.old.places) → AreFirmIf self.new.settled (F.loose self.new.tree)
            (root_of self.old.places) }
    {
        if !self.settled {
            flush_all(&mut self.tree, self.alloc, self.places.root())?;
            self.settled = true;
        }
        Ok(())
    }

    fn try_make(
        &mut self,
        putting: Putting,
        path: &str,
        bytes: &[u8],
    ) -> Result<Option<u64>, FileFault>
        requires { IsOutside (asides_of self.old.places) path.now }
        ensures made { IsTrue F.tells → MakesFile putting bytes.now (F.files self.old.tree path.now)
            (F.files self.new.tree path.now) result }
        ensures files { IsTrue F.tells → OnlyAt (asides_of self.old.places) path.now
            (F.files self.old.tree) (F.files self.new.tree) }
        ensures firm { IsTrue F.tells
            → OnOk result (LooserAside (asides_of self.old.places) (F.loose self.old.tree)
            (F.loose self.new.tree)) }
        ensures places { self.new.places ≡ self.old.places }
        ensures left { IsTrue F.tells
            → Leaves (IsLeft (asides_of self.old.places) path.now
            (IsNew bytes.now (F.files self.old.tree path.now)) (F.files self.old.tree))
            (F.left self.old.tree) (F.left self.new.tree) }
        ensures settled { OnOk result (self.new.settled ≡ true) }
        ensures first { self.new.first_fault ≡ self.old.first_fault }
        ensures kept { IsTrue F.tells → AreFirmIf self.old.settled (F.loose self.old.tree)
            (root_of self.old.places)
            → UnlessFailed result (AreFirmIf self.new.settled (F.loose self.new.tree)
            (root_of self.old.places)) }
    {
        self.settle()?;
        make_file(
            &mut self.tree,
            &self.places,
            &mut self.known,
            self.alloc,
            putting,
            path,
            bytes,
        )
    }

    fn try_replace(
        &mut self,
        putting: Putting,
        path: &str,
        bytes: &[u8],
        old: u64,
    ) -> Result<VersionChange, FileFault>
        requires { IsOutside (asides_of self.old.places) path.now }
        ensures replaced { IsTrue F.tells
            → Replaces putting bytes.now old (F.files self.old.tree path.now)
            (F.files self.new.tree path.now) result }
        ensures moved { IfOk result (IsOtherVersion old) }
        ensures files { IsTrue F.tells → OnlyAt (asides_of self.old.places) path.now
            (F.files self.old.tree) (F.files self.new.tree) }
        ensures firm { IsTrue F.tells
            → OnOk result (LooserAside (asides_of self.old.places) (F.loose self.old.tree)
            (F.loose self.new.tree)) }
        ensures places { self.new.places ≡ self.old.places }
        ensures left { IsTrue F.tells
            → Leaves (IsLeft (asides_of self.old.places) path.now
            (IsOver putting bytes.now old (F.files self.old.tree path.now)) (F.files self.old.tree))
            (F.left self.old.tree) (F.left self.new.tree) }
        ensures settled { OnOk result (self.new.settled ≡ true) }
        ensures first { self.new.first_fault ≡ self.old.first_fault }
        ensures kept { IsTrue F.tells → AreFirmIf self.old.settled (F.loose self.old.tree)
            (root_of self.old.places)
            → UnlessFailed result (AreFirmIf self.new.settled (F.loose self.new.tree)
            (root_of self.old.places)) }
    {
        self.settle()?;
        replace_file(
            &mut self.tree,
            &self.places,
            &mut self.known,
            self.alloc,
            putting,
            path,
            bytes,
            old,
        )
    }

    fn try_remove(&mut self, path: &str) -> Result<bool, FileFault>
        ensures removed { IsTrue F.tells → Removed (F.files self.old.tree path.now)
            (F.files self.new.tree path.now) result }
        ensures files { IsTrue F.tells → SameBut path.now (F.files self.old.tree)
            (F.files self.new.tree) }
        ensures firm { IsTrue F.tells
            → OnOk result (NoLooser (F.loose self.old.tree) (F.loose self.new.tree)) }
        ensures places { self.new.places ≡ self.old.places }
        ensures left { IsTrue F.tells
            → Leaves (IsChanged path.now (λ f. f ≡ None) (F.files self.old.tree))
            (F.left self.old.tree) (F.left self.new.tree) }
        ensures settled { OnOk result (self.new.settled ≡ true) }
        ensures first { self.new.first_fault ≡ self.old.first_fault }
        ensures kept { IsTrue F.tells → AreFirmIf self.old.settled (F.loose self.old.tree)
            (root_of self.old.places)
            → UnlessFailed result (AreFirmIf self.new.settled (F.loose self.new.tree)
            (root_of self.old.places)) }
    {
        self.settle()?;
        Ok(remove_file(&mut self.tree, self.places.root(), path)?)
    }

    fn try_remove_version(
        &mut self,
        putting: Putting,
        path: &str,
        old: u64,
    ) -> Result<VersionChange, FileFault>
        ensures removed { IsTrue F.tells
            → RemovedVersion putting old (F.files self.old.tree path.now)
            (F.files self.new.tree path.now) result }
        ensures moved { IfOk result (IsOtherVersion old) }
        ensures files { IsTrue F.tells → SameBut path.now (F.files self.old.tree)
            (F.files self.new.tree) }
        ensures firm { IsTrue F.tells
            → OnOk result (NoLooser (F.loose self.old.tree) (F.loose self.new.tree)) }
        ensures places { self.new.places ≡ self.old.places }
        ensures left { IsTrue F.tells
            → Leaves (IsChanged path.now (IsGone putting old (F.files self.old.tree path.now))
            (F.files self.old.tree)) (F.left self.old.tree) (F.left self.new.tree) }
        ensures settled { OnOk result (self.new.settled ≡ true) }
        ensures first { self.new.first_fault ≡ self.old.first_fault }
        ensures kept { IsTrue F.tells → AreFirmIf self.old.settled (F.loose self.old.tree)
            (root_of self.old.places)
            → UnlessFailed result (AreFirmIf self.new.settled (F.loose self.new.tree)
            (root_of self.old.places)) }
    {
        self.settle()?;
        Ok(remove_version(&mut self.tree, self.places.root(), putting, path, old)?)
    }

    /// The bytes of the file at this path, if one is there.
    pub(crate) fn read(&mut self, path: String) -> Result<Option<Bytes>, StoreFault>
        ensures read { IsTrue F.tells
            → IfOk result (λ found. found ≡ bytes_at (F.files self.old.tree (string_bytes path))) }
        ensures tree { self.new.tree ≡ self.old.tree }
        ensures places { self.new.places ≡ self.old.places }
        ensures first { TellsFirst (string_bytes path) result self.old.first_fault
            self.new.first_fault }
        ensures kept { IsTrue F.tells → AreFirmIf self.old.settled (F.loose self.old.tree)
            (root_of self.old.places) → AreFirmIf self.new.settled (F.loose self.new.tree)
            (root_of self.old.places) }
    {
        let read = read_file(&self.tree, self.alloc, path.as_str());
        self.noted(path, read)
    }

    /// Makes a file of these bytes for this key where none is, or tells the version that stands there.
    pub(crate) fn make(
        &mut self,
        key: &Key,
        path: String,
        bytes: &[u8],
    ) -> Result<Option<u64>, StoreFault>
        requires { IsOutside (asides_of self.old.places) (string_bytes path) }
        ensures made { IsTrue F.tells
            → Through
            (MakesFile (putting_of key.now) bytes.now (F.files self.old.tree (string_bytes path))
            (F.files self.new.tree (string_bytes path))) result }
        ensures files { IsTrue F.tells → OnlyAt (asides_of self.old.places) (string_bytes path)
            (F.files self.old.tree) (F.files self.new.tree) }
        ensures firm { IsTrue F.tells
            → OnOk result (LooserAside (asides_of self.old.places) (F.loose self.old.tree)
            (F.loose self.new.tree)) }
        ensures places { self.new.places ≡ self.old.places }
        ensures left { IsTrue F.tells
            → Leaves (IsLeft (asides_of self.old.places) (string_bytes path)
            (IsNew bytes.now (F.files self.old.tree (string_bytes path))) (F.files self.old.tree))
            (F.left self.old.tree) (F.left self.new.tree) }
        ensures settled { OnOk result (self.new.settled ≡ true) }
        ensures first { TellsFirst (string_bytes path) result self.old.first_fault
            self.new.first_fault }
        ensures kept { IsTrue F.tells → AreFirmIf self.old.settled (F.loose self.old.tree)
            (root_of self.old.places) → AreFirmIf self.new.settled (F.loose self.new.tree)
            (root_of self.old.places) }
    {
        let made = self.try_make(putting_of(key), path.as_str(), bytes);
        self.noted(path, made)
    }

    /// Puts a file of these bytes in the place of the one with this version.
    pub(crate) fn replace(
        &mut self,
        key: &Key,
        path: String,
        bytes: &[u8],
        old: u64,
    ) -> Result<VersionChange, StoreFault>
        requires { IsOutside (asides_of self.old.places) (string_bytes path) }
        ensures moved { IfOk result (IsOtherVersion old) }
        ensures replaced { IsTrue F.tells
            → Through (Replaces (putting_of key.now) bytes.now old
            (F.files self.old.tree (string_bytes path)) (F.files self.new.tree (string_bytes path)))
            result }
        ensures files { IsTrue F.tells → OnlyAt (asides_of self.old.places) (string_bytes path)
            (F.files self.old.tree) (F.files self.new.tree) }
        ensures firm { IsTrue F.tells
            → OnOk result (LooserAside (asides_of self.old.places) (F.loose self.old.tree)
            (F.loose self.new.tree)) }
        ensures places { self.new.places ≡ self.old.places }
        ensures left { IsTrue F.tells
            → Leaves (IsLeft (asides_of self.old.places) (string_bytes path)
            (IsOver (putting_of key.now) bytes.now old (F.files self.old.tree (string_bytes path)))
            (F.files self.old.tree)) (F.left self.old.tree) (F.left self.new.tree) }
        ensures settled { OnOk result (self.new.settled ≡ true) }
        ensures first { TellsFirst (string_bytes path) result self.old.first_fault
            self.new.first_fault }
        ensures kept { IsTrue F.tells → AreFirmIf self.old.settled (F.loose self.old.tree)
            (root_of self.old.places) → AreFirmIf self.new.settled (F.loose self.new.tree)
            (root_of self.old.places) }
    {
        let replaced = self.try_replace(putting_of(key), path.as_str(), bytes, old);
        self.noted(path, replaced)
    }

    /// Removes a file, and tells whether one was there.
    pub(crate) fn remove(&mut self, path: String) -> Result<bool, StoreFault>
        ensures removed { IsTrue F.tells
            → Through (Removed (F.files self.old.tree (string_bytes path))
            (F.files self.new.tree (string_bytes path))) result }
        ensures files { IsTrue F.tells → SameBut (string_bytes path) (F.files self.old.tree)
            (F.files self.new.tree) }
        ensures firm { IsTrue F.tells
            → OnOk result (NoLooser (F.loose self.old.tree) (F.loose self.new.tree)) }
        ensures places { self.new.places ≡ self.old.places }
        ensures left { IsTrue F.tells
            → Leaves (IsChanged (string_bytes path) (λ f. f ≡ None) (F.files self.old.tree))
            (F.left self.old.tree) (F.left self.new.tree) }
        ensures settled { OnOk result (self.new.settled ≡ true) }
        ensures first { TellsFirst (string_bytes path) result self.old.first_fault
            self.new.first_fault }
        ensures kept { IsTrue F.tells → AreFirmIf self.old.settled (F.loose self.old.tree)
            (root_of self.old.places) → AreFirmIf self.new.settled (F.loose self.new.tree)
            (root_of self.old.places) }
    {
        let removed = self.try_remove(path.as_str());
        self.noted(path, removed)
    }

    /// Removes the file with this version.
    pub(crate) fn remove_version(
        &mut self,
        key: &Key,
        path: String,
        old: u64,
    ) -> Result<VersionChange, StoreFault>
        ensures moved { IfOk result (IsOtherVersion old) }
        ensures removed { IsTrue F.tells
            → Through
            (RemovedVersion (putting_of key.now) old (F.files self.old.tree (string_bytes path))
            (F.files self.new.tree (string_bytes path))) result }
        ensures files { IsTrue F.tells → SameBut (string_bytes path) (F.files self.old.tree)
            (F.files self.new.tree) }
        ensures firm { IsTrue F.tells
            → OnOk result (NoLooser (F.loose self.old.tree) (F.loose self.new.tree)) }
        ensures places { self.new.places ≡ self.old.places }
        ensures left { IsTrue F.tells
            → Leaves
            (IsChanged (string_bytes path)
            (IsGone (putting_of key.now) old (F.files self.old.tree (string_bytes path)))
            (F.files self.old.tree)) (F.left self.old.tree) (F.left self.new.tree) }
        ensures settled { OnOk result (self.new.settled ≡ true) }
        ensures first { TellsFirst (string_bytes path) result self.old.first_fault
            self.new.first_fault }
        ensures kept { IsTrue F.tells → AreFirmIf self.old.settled (F.loose self.old.tree)
            (root_of self.old.places) → AreFirmIf self.new.settled (F.loose self.new.tree)
            (root_of self.old.places) }
    {
        let removed = self.try_remove_version(putting_of(key), path.as_str(), old);
        self.noted(path, removed)
    }

    /// The objects of a part, in the order of listings.
    pub(crate) fn list(&mut self, part: Part) -> Result<Entries, StoreFault>
        ensures listed { IfOk result (IsListed part) }
        ensures all { IsTrue F.tells
            → IfOk result (ListsAll (object_at (F.files self.old.tree) (root_of self.old.places))
            part) }
        ensures tree { self.new.tree ≡ self.old.tree }
        ensures places { self.new.places ≡ self.old.places }
        ensures first { TellsFirstIn (root_of self.old.places) part result self.old.first_fault
            self.new.first_fault }
        ensures kept { IsTrue F.tells → AreFirmIf self.old.settled (F.loose self.old.tree)
            (root_of self.old.places) → AreFirmIf self.new.settled (F.loose self.new.tree)
            (root_of self.old.places) }
    {
        let folder = self.part(part)?;
        match list_files(&self.tree, self.alloc, self.places.root(), part) {
            Ok(entries) => Ok(entries),
            Err(ListFault { fault, path }) => self.noted(path.unwrap_or(folder), Err(fault)),
        }
    }
}
