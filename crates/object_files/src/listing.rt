//! Listings of the directory.

ghost use Rattle.std.specs.Prelude.{◌≡◌, ◌++◌, Option, None, Some, Ok, Err, IfOk, IfErr, IfSome, OnOk, IsTrue, MatchOption, map, codes, string_bytes};
ghost use Rattle.folder.specs.declared.faults.FileFault.TheVariants as FileFault;
ghost use Rattle.folder.specs.Files.{StoredFile, IsFileSeen, TellsNames, HoldsNone};
ghost use Rattle.object_store.specs.Machine.{part_of};
ghost use Rattle.object_files.specs.Listings.{IsFaultIn, IsListed};
ghost use Rattle.object_files.specs.Contents.{object_at, ListsAll};
ghost use Rattle.object_files.specs.Paths.{folder_name, path_in};
ghost use Rattle.object_files.specs.inside.Finding.{IsOfPart, entry_of, IsMeasuredBy, AllRight, AddsKey, AddsName, AddsTwo, AddsEntry, AllFound};

use crate::names::{key_of, path_of};
use folder::{FileFault, Folder, Seen, Trouble};
use object_store::{Entries, Entry, Key, Part};
use std::alloc::{AllocError, Global};
use std::collections::BTreeMap;
use whole_files::in_memory;

/// The length of a file in bytes and the time of its last change, in microseconds.
#[derive(Clone, Copy, Debug)]
pub struct Measures {
    pub size: u64,
    pub changed: u64,
}

/// Why a part can't be listed, and at which path in its folder, where it is one there.
#[derive(Drop)]
pub struct ListFault {
    pub fault: FileFault,
    pub path: Option<String>,
}

impl From<FileFault> for ListFault {
    ghost from_gives = { λ fault told. told ≡ record { fault = fault; path = None } };

    fn from(fault: FileFault) -> ListFault {
        ListFault { fault, path: None }
    }
}

/// What was done at a path in the part's folder.
fn located<T>(path: String, done: Result<T, Trouble>) -> Result<T, ListFault>
    ensures done { IfOk result (λ value. done ≡ Ok value) }
    ensures path { IfErr result (λ fault. fault.path ≡ Some path) }
    ensures told { IfErr done (λ trouble. result
        ≡ Err (record { fault = FileFault.Failed trouble; path = Some path })) }
{
    match done {
        Ok(value) => Ok(value),
        Err(trouble) => Err(ListFault {
            fault: FileFault::from(trouble),
            path: Some(path),
        }),
    }
}

/// The objects that are found so far, by their keys.
type Found = BTreeMap<Key, Measures>;

/// The folder of a part.
pub fn folder_of(part: Part) -> &'static str
    ensures { result.now ≡ folder_name part }
{
    match part {
        Part::Snapshots => "snapshots",
        Part::Manifests => "manifests",
        Part::Txns => "transactions",
        Part::Chunks => "chunks",
        Part::Branches | Part::Tags => "refs",
        Part::Leases => "leases",
    }
}

/// The path of something in a folder.
pub fn joined(alloc: Global, folder: &str, name: &str) -> Result<String, AllocError>
    ensures { IfOk result (λ path. string_bytes path ≡ folder.now ++ codes "/" ++ name.now) }
{
    let mut path = String::from_str(alloc, folder)?;
    path.push_str("/")?;
    path.push_str(name)?;
    Ok(path)
}

/// What was seen of a file, as its measures.
fn measures_of(seen: Option<Seen>) -> Option<Measures>
    ensures { (file : Option StoredFile) → IsFileSeen file seen
        → MatchOption result (file ≡ None) (λ measures. IsMeasuredBy measures file) }
{
    match seen {
        Some(seen) => Some(Measures {
            size: seen.size,
            changed: seen.changed,
        }),
        None => None,
    }
}

/// What is seen of an object's file, if one lies in the directory.
fn seen_at<F: Folder>(
    tree: &F,
    alloc: Global,
    root: &str,
    key: &Key,
) -> Result<Option<Seen>, ListFault>
    ensures seen { IsTrue F.tells
        → IfOk result (IsFileSeen (F.files tree.now (path_in root.now key.now))) }
    ensures told { IfErr result (IsFaultIn root.now (part_of key.now)) }
{
    let path = in_memory(path_of(alloc, root, key))?;
    let found = tree.file(path.as_str());
    located(path, found)
}

/// The measures of an object of the part, if one lies in the directory. Keys of other parts have none.
fn measures_at<F: Folder>(
    tree: &F,
    alloc: Global,
    root: &str,
    part: Part,
    key: &Key,
) -> Result<Option<Measures>, ListFault>
    ensures of { IfOk result (λ found. IfSome found (λ measures. part_of key.now ≡ part)) }
    ensures right { IsTrue F.tells
        → IfOk result (λ found. MatchOption found (part_of key.now ≡ part
        → F.files tree.now (path_in root.now key.now) ≡ None)
        (λ measures. IsMeasuredBy measures (F.files tree.now (path_in root.now key.now)))) }
    ensures told { IfErr result (IsFaultIn root.now part) }
{
    if key.part() != part {
        return Ok(None);
    }
    Ok(measures_of(seen_at(tree, alloc, root, key)?))
}

/// Adds an object, where it is one of the part and lies in the directory.
fn add_key<F: Folder>(
    tree: &F,
    alloc: Global,
    root: &str,
    part: Part,
    key: Key,
    found: &mut Found,
) -> Result<(), ListFault>
    requires of { IsOfPart part found.old }
    requires right { IsTrue F.tells → AllRight (F.files tree.now) root.now found.old }
    ensures of { IsOfPart part found.new }
    ensures right { IsTrue F.tells → AllRight (F.files tree.now) root.now found.new }
    ensures adds { IsTrue F.tells
        → OnOk result (AddsKey (F.files tree.now) root.now part key found.old found.new) }
    ensures told { IfErr result (IsFaultIn root.now part) }
{
    let Some(measures) = measures_at(tree, alloc, root, part, &key)? else {
        return Ok(());
    };
    match found.insert(key, measures) {
        Ok(_) => Ok(()),
        Err(_) => Err(ListFault::from(FileFault::NoMemory)),
    }
}

/// Adds the object of this name, where it is one of the part and lies in the directory.
fn add_file<F: Folder>(
    tree: &F,
    alloc: Global,
    root: &str,
    part: Part,
    name: &str,
    found: &mut Found,
) -> Result<(), ListFault>
    requires of { IsOfPart part found.old }
    requires right { IsTrue F.tells → AllRight (F.files tree.now) root.now found.old }
    ensures of { IsOfPart part found.new }
    ensures right { IsTrue F.tells → AllRight (F.files tree.now) root.now found.new }
    ensures adds { IsTrue F.tells
        → OnOk result (AddsName (F.files tree.now) root.now part name.now found.old found.new) }
    ensures told { IfErr result (IsFaultIn root.now part) }
{
    match in_memory(key_of(alloc, name))? {
        Some(key) => add_key(tree, alloc, root, part, key, found),
        None => Ok(()),
    }
}

/// Adds the object of this name in a folder, where it is one of the part and lies in the directory.
fn add_in<F: Folder>(
    tree: &F,
    alloc: Global,
    root: &str,
    part: Part,
    folder: &str,
    name: &str,
    found: &mut Found,
) -> Result<(), ListFault>
    requires of { IsOfPart part found.old }
    requires right { IsTrue F.tells → AllRight (F.files tree.now) root.now found.old }
    ensures of { IsOfPart part found.new }
    ensures right { IsTrue F.tells → AllRight (F.files tree.now) root.now found.new }
    ensures adds { IsTrue F.tells
        → OnOk result
        (AddsName (F.files tree.now) root.now part (folder.now ++ codes "/" ++ name.now) found.old
        found.new) }
    ensures told { IfErr result (IsFaultIn root.now part) }
{
    let path = in_memory(joined(alloc, folder, name))?;
    add_file(tree, alloc, root, part, path.as_str(), found)
}

/// Adds the objects that a folder of refs holds.
fn add_refs<F: Folder>(
    tree: &F,
    alloc: Global,
    root: &str,
    part: Part,
    folder: &str,
    found: &mut Found,
) -> Result<(), ListFault>
    requires of { IsOfPart part found.old }
    requires right { IsTrue F.tells → AllRight (F.files tree.now) root.now found.old }
    ensures of { IsOfPart part found.new }
    ensures right { IsTrue F.tells → AllRight (F.files tree.now) root.now found.new }
    ensures adds { IsTrue F.tells
        → OnOk result (AddsTwo (F.files tree.now) root.now part (folder.now ++ codes "/ref.json")
        (folder.now ++ codes "/ref.json.deleted") found.old found.new) }
    ensures told { IfErr result (IsFaultIn root.now part) }
{
    add_in(tree, alloc, root, part, folder, "ref.json", found)?;
    add_in(tree, alloc, root, part, folder, "ref.json.deleted", found)
}

/// Adds the objects that a file or a folder of the part's folder is or holds.
fn add_found<F: Folder>(
    tree: &F,
    alloc: Global,
    root: &str,
    part: Part,
    file_name: &str,
    found: &mut Found,
) -> Result<(), ListFault>
    requires of { IsOfPart part found.old }
    requires right { IsTrue F.tells → AllRight (F.files tree.now) root.now found.old }
    ensures of { IsOfPart part found.new }
    ensures right { IsTrue F.tells → AllRight (F.files tree.now) root.now found.new }
    ensures adds { IsTrue F.tells
        → OnOk result (AddsEntry (F.files tree.now) root.now part file_name.now found.old
        found.new) }
    ensures told { IfErr result (IsFaultIn root.now part) }
{
    let path = in_memory(joined(alloc, folder_of(part), file_name))?;
    match part {
        Part::Branches | Part::Tags => add_refs(tree, alloc, root, part, path.as_str(), found),
        _ => add_file(tree, alloc, root, part, path.as_str(), found),
    }
}

/// The objects of the part that these names in its folder are or hold.
fn found_in<F: Folder>(
    tree: &F,
    alloc: Global,
    root: &str,
    part: Part,
    names: &[String],
) -> Result<Found, ListFault>
    ensures of { IfOk result (IsOfPart part) }
    ensures right { IsTrue F.tells → IfOk result (AllRight (F.files tree.now) root.now) }
    ensures all { IsTrue F.tells
        → IfOk result (AllFound (F.files tree.now) root.now part (map string_bytes names.now)) }
    ensures told { IfErr result (IsFaultIn root.now part) }
{
    let mut found = Found::new(alloc);
    for name in names {
        add_found(tree, alloc, root, part, name.as_str(), &mut found)?;
    }
    Ok(found)
}

/// Entries in the order of their keys.
fn entries_of(alloc: Global, found: Found) -> Result<Entries, AllocError>
    ensures { IfOk result (λ entries. entries ≡ map entry_of found.entries) }
{
    let mut entries = Entries::new(alloc);
    for (key, measures) in found {
        entries.push(Entry {
            key,
            size: measures.size,
            created: measures.changed,
        })?;
    }
    Ok(entries)
}

/// The names in a part's folder, if it is there.
fn names_in<F: Folder>(
    tree: &F,
    alloc: Global,
    root: &str,
    part: Part,
) -> Result<Option<Vec<String>>, FileFault>
    ensures { IsTrue F.tells
        → IfOk result
        (λ found. MatchOption found
        (HoldsNone (F.files tree.now) (root.now ++ codes "/" ++ folder_name part))
        (λ names. TellsNames (F.files tree.now) (root.now ++ codes "/" ++ folder_name part)
        (map string_bytes names.items))) }
{
    let path = in_memory(joined(alloc, root, folder_of(part)))?;
    tree.list(alloc, path.as_str())
}

/// The objects of a part, in the order of their ids or names, a tag before its tombstone. Names that
/// are no key are passed over; what has a key's name and is no plain file is a fault.
pub fn list_files<F: Folder>(
    tree: &F,
    alloc: Global,
    root: &str,
    part: Part,
) -> Result<Entries, ListFault>
    ensures listed { IfOk result (IsListed part) }
    ensures all { IsTrue F.tells
        → IfOk result (ListsAll (object_at (F.files tree.now) root.now) part) }
    ensures told { IfErr result (IsFaultIn root.now part) }
{
    let Some(names) = names_in(tree, alloc, root, part)? else {
        return Ok(Entries::new(alloc));
    };
    let found = found_in(tree, alloc, root, part, names.as_slice())?;
    match entries_of(alloc, found) {
        Ok(entries) => Ok(entries),
        Err(_) => Err(ListFault::from(FileFault::NoMemory)),
    }
}
