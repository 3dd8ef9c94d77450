//! The directory as a store.

ghost use Rattle.std.specs.Prelude.{◌≡◌, refl, true, false, IfOk, OnOk, IsTrue, option_copied};
ghost use Rattle.std.specs.IoError.{error_kind};
ghost use Rattle.object_store.specs.Callers.{Called, Counted, as_client};
ghost use Rattle.dir_store.specs.Store.{view_of, client_of, faults_of, operations_of, clock_of, disk_of, root_of, asides_of, first_fault_of, is_settled, IsNewIn, Raises, IsRightGot, IsRightNew, IsRightOver, IsRightGoneAt, time_of_got, time_of_new, time_of_over, time_of_gone, time_of_gone_at};
ghost use Rattle.dir_store.specs.Faults.{TellsFirst, TellsFirstIn, listing_failed};
ghost use Rattle.dir_store.specs.Listings.{IsListed};
ghost use Rattle.dir_store.specs.Firm.{AreFirmIf};
ghost use Rattle.folder.specs.Files.{NoLooser, Leaves};
ghost use Rattle.object_files.specs.Paths.{path_in};
ghost use Rattle.whole_files.specs.Whole.{LooserAside};
ghost use Rattle.dir_store.specs.Contents.{Answers, IsLeftBy, Lasts, object_at, ListsAll};

use crate::answers;
use crate::directory::{Directory, FirstFault};
use folder::{Folder, SystemFolder};
use ice_base::Clock;
use object_store::{
    Gone, GoneAt, Got, Key, Listed, New, ObjectStore, Op, Over, Part, Reply, Rule, StoreFault,
    Version, Viewed, WholeStore, Why,
};
use std::alloc::{AllocError, Global};
use std::io::ErrorKind;
use std::rt::Files;
use std::{fs, io};

/// A store in a directory. What the directory holds is trusted: contracts speak of the caller, of the
/// count of faults, and of what an answer says of the bytes that it gives or was given.
///
/// A file is written aside, in a folder of the directory in which no object lies, flushed to disk, and
/// then moved to its place, so no reader sees half a file, and a new key's file overwrites none. The
/// folder is flushed too, as is the one that a new folder was made in. Between the check of the version
/// and the move `put_over` and `remove_at` assume that no other program changes the file. A version is
/// told by the content: where the same bytes are put again, they have the same version. A program that
/// is cut off may leave files aside, which are no objects, and which the next claim removes.
#[derive(Drop)]
pub struct FolderStore<F, C> {
    directory: Directory<F>,
    clock: C,
    client: u32,
    faults: u64,
    operations: u64,
}

/// A store in a directory of the system.
pub type DirStore<R, C> = FolderStore<SystemFolder<R>, C>;

/// Why a directory can't be listed, as a store says it.
fn listing_failed(error: &io::Error) -> StoreFault
    ensures { result ≡ listing_failed (error_kind error.now) }
{
    match error.kind() {
        ErrorKind::OutOfMemory => StoreFault::NoMemory,
        _ => StoreFault::Failed,
    }
}

impl<R: Files + AllocGlobal + Clone + Drop, C: Clock + Drop> FolderStore<SystemFolder<R>, C> {
    /// The store in the directory at this path, for the client 0. `Failed` comes only where the
    /// directory can't be listed.
    pub fn at(rt: R, path: &str, clock: C) -> Result<FolderStore<SystemFolder<R>, C>, StoreFault>
        ensures { IfOk result (IsNewIn path.now clock) }
    {
        if let Err(error) = fs::read_dir(&rt, path) {
            return Err(listing_failed(&error));
        }
        match of_listed(rt, path, clock) {
            Ok(store) => Ok(store),
            Err(_) => Err(StoreFault::NoMemory),
        }
    }
}

/// The store in the directory at this path, which was listed, for the client 0.
pub(crate) fn of_listed<R: Files + AllocGlobal + Clone + Drop, C: Clock + Drop>(
    rt: R,
    path: &str,
    clock: C,
) -> Result<FolderStore<SystemFolder<R>, C>, AllocError>
    ensures { IfOk result (IsNewIn path.now clock) }
{
    let alloc = rt.alloc();
    FolderStore::over(SystemFolder::at(rt, path)?, alloc, path, clock)
}

impl<F: Folder + Drop, C: Clock + Drop> FolderStore<F, C> {
    /// The store in the directory at this path of a folder, for the client 0.
    pub fn over(
        tree: F,
        alloc: Global,
        path: &str,
        clock: C,
    ) -> Result<FolderStore<F, C>, AllocError>
        ensures new { IfOk result (IsNewIn path.now clock) }
        ensures tree { IfOk result (λ store. disk_of store ≡ tree) }
    {
        Ok(FolderStore {
            directory: Directory::at(tree, alloc, path)?,
            clock,
            client: 0,
            faults: 0,
            operations: 0,
        })
    }

    /// The folder on which the store stands.
    pub fn into_tree(self) -> F
        ensures { result ≡ disk_of self }
    {
        self.directory.into_tree()
    }
}

impl<F: Folder, C: Clock> FolderStore<F, C> {
    /// How many calls have failed, or the greatest u64.
    pub fn faults(&self) -> u64
        ensures { result ≡ faults_of self.now }
    {
        self.faults
    }

    /// How many operations were made, those that failed too, or the greatest u64.
    pub fn operations(&self) -> u64
        ensures { result ≡ operations_of self.now }
    {
        self.operations
    }

    /// The first call on files that failed, if one has.
    pub fn first_fault(&self) -> Option<&FirstFault>
        ensures { option_copied result ≡ first_fault_of self.now }
    {
        self.directory.first_fault()
    }

    /// What was done. It is counted, unless memory was wanting, and so is a failure.
    fn counted<T>(&mut self, done: Result<T, StoreFault>) -> Result<T, StoreFault>
        ensures is { result ≡ done }
        ensures counted { Counted result (faults_of self.old) (faults_of self.new) }
        ensures made { Raises result (operations_of self.old) (operations_of self.new) }
        ensures client { client_of self.new ≡ client_of self.old }
        ensures clock { clock_of self.new ≡ clock_of self.old }
        ensures directory { self.new.directory ≡ self.old.directory }
    {
        match done {
            Ok(_) => self.operations = self.operations.saturating_add(1),
            Err(StoreFault::Failed) => {
                self.operations = self.operations.saturating_add(1);
                self.faults = self.faults.saturating_add(1);
            }
            Err(StoreFault::NoMemory) => {}
        }
        done
    }
}

impl<F: Folder, C: Clock> Viewed for FolderStore<F, C> {
    ghost view = { λ s. view_of s };
}

impl<L: Rule, F: Folder, C: Clock> ObjectStore<L> for FolderStore<F, C> {
    fn get(&mut self, key: &Key) -> Result<Got, StoreFault>
        ensures call { Called L.may (λ got. Reply.Got got) (Op.Get key.now) result
            (view_of self.old) (view_of self.new) }
        ensures content { IfOk result (IsRightGot key.now) }
        ensures machine { IsTrue F.tells → Answers (λ got. Reply.Got got) time_of_got
            (root_of self.old) key.now (Op.Get key.now) result (F.files (disk_of self.old))
            (F.files (disk_of self.new)) }
        ensures tree { disk_of self.new ≡ disk_of self.old }
        ensures made { Raises result (operations_of self.old) (operations_of self.new) }
        ensures time { IfOk result (λ got. C.gives (clock_of self.old) (time_of_got got)
            (clock_of self.new)) }
        ensures first { TellsFirst (path_in (root_of self.old) key.now) result
            (first_fault_of self.old) (first_fault_of self.new) }
        ensures kept { IsTrue F.tells → AreFirmIf (is_settled self.old) (F.loose (disk_of self.old))
            (root_of self.old) → AreFirmIf (is_settled self.new) (F.loose (disk_of self.new))
            (root_of self.old) }
    {
        let path = self.directory.path(key)?;
        let read = self.directory.read(path);
        let found = self.counted(read)?;
        let now = self.clock.now();
        Ok(answers::got(key, found, now))
    }

    fn put_new(&mut self, key: &Key, bytes: &[u8], why: Why) -> Result<New, StoreFault>
        ensures call { Called L.may (λ new. Reply.New new) (Op.PutNew key.now bytes.now why) result
            (view_of self.old) (view_of self.new) }
        ensures content { IfOk result (IsRightNew key.now bytes.now) }
        ensures machine { IsTrue F.tells → Answers (λ new. Reply.New new) time_of_new
            (root_of self.old) key.now (Op.PutNew key.now bytes.now why) result
            (F.files (disk_of self.old)) (F.files (disk_of self.new)) }
        ensures firm { IsTrue F.tells
            → OnOk result (LooserAside (asides_of self.old) (F.loose (disk_of self.old))
            (F.loose (disk_of self.new))) }
        ensures made { Raises result (operations_of self.old) (operations_of self.new) }
        ensures time { IfOk result (λ new. C.gives (clock_of self.old) (time_of_new new)
            (clock_of self.new)) }
        ensures left { IsTrue F.tells
            → Leaves (IsLeftBy (root_of self.old) key.now (Op.PutNew key.now bytes.now why)
            (F.files (disk_of self.old))) (F.left (disk_of self.old)) (F.left (disk_of self.new)) }
        ensures lasts { IsTrue F.tells
            → OnOk result (Lasts (asides_of self.old) (F.loose (disk_of self.old))
            (F.left (disk_of self.new) (F.moment (disk_of self.new)))
            (F.files (disk_of self.new))) }
        ensures first { TellsFirst (path_in (root_of self.old) key.now) result
            (first_fault_of self.old) (first_fault_of self.new) }
        ensures settled { OnOk result (is_settled self.new ≡ true) }
        ensures kept { IsTrue F.tells → AreFirmIf (is_settled self.old) (F.loose (disk_of self.old))
            (root_of self.old) → AreFirmIf (is_settled self.new) (F.loose (disk_of self.new))
            (root_of self.old) }
    {
        let path = self.directory.path(key)?;
        let made = self.directory.make(key, path, bytes);
        let found = self.counted(made)?;
        let now = self.clock.now();
        Ok(answers::new(key, found, bytes, now))
    }

    fn put_over(
        &mut self,
        key: &Key,
        bytes: &[u8],
        old: Version,
        why: Why,
    ) -> Result<Over, StoreFault>
        ensures call { Called L.may (λ over. Reply.Over over) (Op.PutOver key.now bytes.now old why)
            result (view_of self.old) (view_of self.new) }
        ensures content { IfOk result (IsRightOver key.now bytes.now old) }
        ensures machine { IsTrue F.tells → Answers (λ over. Reply.Over over) time_of_over
            (root_of self.old) key.now (Op.PutOver key.now bytes.now old why) result
            (F.files (disk_of self.old)) (F.files (disk_of self.new)) }
        ensures firm { IsTrue F.tells
            → OnOk result (LooserAside (asides_of self.old) (F.loose (disk_of self.old))
            (F.loose (disk_of self.new))) }
        ensures made { Raises result (operations_of self.old) (operations_of self.new) }
        ensures time { IfOk result (λ over. C.gives (clock_of self.old) (time_of_over over)
            (clock_of self.new)) }
        ensures left { IsTrue F.tells
            → Leaves (IsLeftBy (root_of self.old) key.now (Op.PutOver key.now bytes.now old why)
            (F.files (disk_of self.old))) (F.left (disk_of self.old)) (F.left (disk_of self.new)) }
        ensures lasts { IsTrue F.tells
            → OnOk result (Lasts (asides_of self.old) (F.loose (disk_of self.old))
            (F.left (disk_of self.new) (F.moment (disk_of self.new)))
            (F.files (disk_of self.new))) }
        ensures first { TellsFirst (path_in (root_of self.old) key.now) result
            (first_fault_of self.old) (first_fault_of self.new) }
        ensures settled { OnOk result (is_settled self.new ≡ true) }
        ensures kept { IsTrue F.tells → AreFirmIf (is_settled self.old) (F.loose (disk_of self.old))
            (root_of self.old) → AreFirmIf (is_settled self.new) (F.loose (disk_of self.new))
            (root_of self.old) }
    {
        let path = self.directory.path(key)?;
        let replaced = self.directory.replace(key, path, bytes, old.0);
        let change = self.counted(replaced)?;
        let now = self.clock.now();
        Ok(answers::over(key, change, bytes, now))
    }

    fn remove(&mut self, key: &Key, why: Why) -> Result<Gone, StoreFault>
        ensures call { Called L.may (λ gone. Reply.Gone gone) (Op.Remove key.now why) result
            (view_of self.old) (view_of self.new) }
        ensures machine { IsTrue F.tells → Answers (λ gone. Reply.Gone gone) time_of_gone
            (root_of self.old) key.now (Op.Remove key.now why) result (F.files (disk_of self.old))
            (F.files (disk_of self.new)) }
        ensures firm { IsTrue F.tells
            → OnOk result (NoLooser (F.loose (disk_of self.old)) (F.loose (disk_of self.new))) }
        ensures made { Raises result (operations_of self.old) (operations_of self.new) }
        ensures time { IfOk result (λ gone. C.gives (clock_of self.old) (time_of_gone gone)
            (clock_of self.new)) }
        ensures left { IsTrue F.tells
            → Leaves (IsLeftBy (root_of self.old) key.now (Op.Remove key.now why)
            (F.files (disk_of self.old))) (F.left (disk_of self.old)) (F.left (disk_of self.new)) }
        ensures lasts { IsTrue F.tells
            → OnOk result (Lasts (asides_of self.old) (F.loose (disk_of self.old))
            (F.left (disk_of self.new) (F.moment (disk_of self.new)))
            (F.files (disk_of self.new))) }
        ensures first { TellsFirst (path_in (root_of self.old) key.now) result
            (first_fault_of self.old) (first_fault_of self.new) }
        ensures settled { OnOk result (is_settled self.new ≡ true) }
        ensures kept { IsTrue F.tells → AreFirmIf (is_settled self.old) (F.loose (disk_of self.old))
            (root_of self.old) → AreFirmIf (is_settled self.new) (F.loose (disk_of self.new))
            (root_of self.old) }
    {
        let path = self.directory.path(key)?;
        let removed = self.directory.remove(path);
        let was_there = self.counted(removed)?;
        let now = self.clock.now();
        Ok(answers::gone(was_there, now))
    }

    fn remove_at(&mut self, key: &Key, old: Version, why: Why) -> Result<GoneAt, StoreFault>
        ensures call { Called L.may (λ gone. Reply.GoneAt gone) (Op.RemoveAt key.now old why) result
            (view_of self.old) (view_of self.new) }
        ensures content { IfOk result (IsRightGoneAt old) }
        ensures machine { IsTrue F.tells → Answers (λ gone. Reply.GoneAt gone) time_of_gone_at
            (root_of self.old) key.now (Op.RemoveAt key.now old why) result
            (F.files (disk_of self.old)) (F.files (disk_of self.new)) }
        ensures firm { IsTrue F.tells
            → OnOk result (NoLooser (F.loose (disk_of self.old)) (F.loose (disk_of self.new))) }
        ensures made { Raises result (operations_of self.old) (operations_of self.new) }
        ensures time { IfOk result (λ gone. C.gives (clock_of self.old) (time_of_gone_at gone)
            (clock_of self.new)) }
        ensures left { IsTrue F.tells
            → Leaves (IsLeftBy (root_of self.old) key.now (Op.RemoveAt key.now old why)
            (F.files (disk_of self.old))) (F.left (disk_of self.old)) (F.left (disk_of self.new)) }
        ensures lasts { IsTrue F.tells
            → OnOk result (Lasts (asides_of self.old) (F.loose (disk_of self.old))
            (F.left (disk_of self.new) (F.moment (disk_of self.new)))
            (F.files (disk_of self.new))) }
        ensures first { TellsFirst (path_in (root_of self.old) key.now) result
            (first_fault_of self.old) (first_fault_of self.new) }
        ensures settled { OnOk result (is_settled self.new ≡ true) }
        ensures kept { IsTrue F.tells → AreFirmIf (is_settled self.old) (F.loose (disk_of self.old))
            (root_of self.old) → AreFirmIf (is_settled self.new) (F.loose (disk_of self.new))
            (root_of self.old) }
    {
        let path = self.directory.path(key)?;
        let removed = self.directory.remove_version(key, path, old.0);
        let change = self.counted(removed)?;
        let now = self.clock.now();
        Ok(answers::gone_at(change, now))
    }

    fn list(&mut self, part: Part) -> Result<Listed, StoreFault>
        ensures call { Called L.may (λ listed. Reply.Listed listed) (Op.List part) result
            (view_of self.old) (view_of self.new) }
        ensures content { IfOk result (λ listed. IsListed part listed.entries) }
        ensures machine { IsTrue F.tells
            → IfOk result
            (λ listed. ListsAll (object_at (F.files (disk_of self.old)) (root_of self.old)) part
            listed.entries) }
        ensures tree { disk_of self.new ≡ disk_of self.old }
        ensures made { Raises result (operations_of self.old) (operations_of self.new) }
        ensures time { IfOk result (λ listed. C.gives (clock_of self.old) listed.now
            (clock_of self.new)) }
        ensures first { TellsFirstIn (root_of self.old) part result (first_fault_of self.old)
            (first_fault_of self.new) }
        ensures kept { IsTrue F.tells → AreFirmIf (is_settled self.old) (F.loose (disk_of self.old))
            (root_of self.old) → AreFirmIf (is_settled self.new) (F.loose (disk_of self.new))
            (root_of self.old) }
    {
        let listing = self.directory.list(part);
        let entries = self.counted(listing)?;
        let now = self.clock.now();
        Ok(Listed { entries, now })
    }
}

impl<F: Folder, C: Clock> WholeStore for FolderStore<F, C> {
    ghost tells = { false };

    fn set_client(&mut self, client: u32)
        ensures view { view_of self.new ≡ as_client client (view_of self.old) }
        ensures clock { clock_of self.new ≡ clock_of self.old }
        ensures made { operations_of self.new ≡ operations_of self.old }
    {
        self.client = client;
    }

    ghost told = { λ s. refl };

    ghost alone = { λ s. record { low = refl; end = refl } };
}
