//! Names of objects in a directory, and their reading.

ghost use Rattle.std.specs.Prelude.{◌≡◌, ◌≢◌, ◌<◌, ◌⊎◌, ◌↔◌, ◌++◌, List, ℕ, IfOk, IsTrue, MatchOption, length, slice_index, string_bytes};
ghost use Rattle.ice_base.specs.Names.{IsRefName};
ghost use Rattle.ice_ids.specs.declared.Id12.{Id12};
ghost use Rattle.ice_ids.specs.Text.{IsId12, id12_text};
ghost use Rattle.object_files.specs.Paths.{NamesKey, aside_folder_in, path_in, IsAsideName};

use ice_base::{NameFault, RefName};
use ice_ids::Id12;
use object_store::Key;
use std::alloc::{AllocError, Global};

/// Where the folder of files aside lies in a directory.
const ASIDE: &str = "/icerepo.new";

/// What stands behind this start of a text.
fn after<'a>(text: &'a str, start: &str) -> Option<&'a str>
    ensures { MatchOption result ((rest : List ℕ) → text.now ≢ start.now ++ rest)
        (λ rest. text.now ≡ start.now ++ rest.now) }
{
    text.strip_prefix(start)
}

/// What stands before this end of a text.
fn before<'a>(text: &'a str, end: &str) -> Option<&'a str>
    ensures { MatchOption result ((front : List ℕ) → text.now ≢ front ++ end.now)
        (λ front. text.now ≡ front.now ++ end.now) }
{
    text.strip_suffix(end)
}

/// The id whose text stands behind this start.
fn id_after(text: &str, start: &str) -> Option<Id12>
    ensures { MatchOption result ((id : Id12) → IsId12 id → text.now ≢ start.now ++ id12_text id)
        (λ id. IsId12 id × (text.now ≡ start.now ++ id12_text id)) }
{
    let rest = after(text, start)?;
    match Id12::read(rest.as_bytes()) {
        Ok(id) => Some(id),
        Err(_) => None,
    }
}

/// The text between this start and this end.
fn between<'a>(text: &'a str, start: &str, end: &str) -> Option<&'a str>
    ensures { MatchOption result ((middle : List ℕ) → text.now ≢ start.now ++ middle ++ end.now)
        (λ middle. text.now ≡ start.now ++ middle.now ++ end.now) }
{
    before(after(text, start)?, end)
}

/// The name of a ref, if the text is one.
fn name_in(alloc: Global, text: &str) -> Result<Option<RefName>, AllocError>
    ensures { IfOk result (λ found. MatchOption found (¬ IsRefName text.now)
        (λ name. (name ≡ text.now) × IsRefName text.now)) }
{
    match RefName::read(alloc, text) {
        Ok(name) => Ok(Some(name)),
        Err(NameFault::NoMemory) => Err(AllocError),
        Err(_) => Ok(None),
    }
}

/// The name of a ref that stands between this start and this end.
fn name_between(
    alloc: Global,
    text: &str,
    start: &str,
    end: &str,
) -> Result<Option<RefName>, AllocError>
    ensures { IfOk result (λ found. MatchOption found ((name : List ℕ) → IsRefName name
        → text.now ≢ start.now ++ name ++ end.now) (λ name. IsRefName name
        × (text.now ≡ start.now ++ name ++ end.now))) }
{
    match between(text, start, end) {
        Some(name) => name_in(alloc, name),
        None => Ok(None),
    }
}

/// The key that a file's name in the directory is the name of, if any (Icechunk specification
/// version 1, "File layout").
pub fn key_of(alloc: Global, name: &str) -> Result<Option<Key>, AllocError>
    ensures { IfOk result (NamesKey name.now) }
{
    if let Some(id) = id_after(name, "snapshots/") {
        return Ok(Some(Key::Snapshot(id)));
    }
    if let Some(id) = id_after(name, "manifests/") {
        return Ok(Some(Key::Manifest(id)));
    }
    if let Some(id) = id_after(name, "transactions/") {
        return Ok(Some(Key::Txn(id)));
    }
    if let Some(id) = id_after(name, "chunks/") {
        return Ok(Some(Key::Chunk(id)));
    }
    if let Some(id) = id_after(name, "leases/") {
        return Ok(Some(Key::Lease(id)));
    }
    if let Some(found) = name_between(alloc, name, "refs/branch.", "/ref.json")? {
        return Ok(Some(Key::Branch(found)));
    }
    if let Some(found) = name_between(alloc, name, "refs/tag.", "/ref.json")? {
        return Ok(Some(Key::Tag(found)));
    }
    let gone = name_between(alloc, name, "refs/tag.", "/ref.json.deleted")?;
    Ok(gone.map(Key::Tombstone))
}

/// The path of an object in this directory.
pub fn path_of(alloc: Global, root: &str, key: &Key) -> Result<String, AllocError>
    ensures { IfOk result (λ path. string_bytes path ≡ path_in root.now key.now) }
{
    let mut path = String::from_str(alloc, root)?;
    path.push_str("/")?;
    write!(path, "{key}")?;
    Ok(path)
}

/// The folder in this directory in which files are written before they are moved to their places.
pub fn aside_folder(alloc: Global, root: &str) -> Result<String, AllocError>
    ensures { IfOk result (λ folder. string_bytes folder ≡ aside_folder_in root.now) }
{
    let mut folder = String::from_str(alloc, root)?;
    folder.push_str(ASIDE)?;
    Ok(folder)
}

/// Whether a name begins with a plus or with a needless zero.
fn is_dressed(name: &str) -> bool
    ensures { IsTrue result ↔ ((slice_index name.now 0 ≡ 43)
        ⊎ ((slice_index name.now 0 ≡ 48) × (1 < length name.now))) }
{
    matches!(name.as_bytes(), [b'+', ..] | [b'0', _, ..])
}

/// Whether a name in the folder of files aside is one that is given there: a number below 2^32, without
/// a sign or needless zeros.
pub fn is_aside(name: &str) -> bool
    ensures { IsTrue result ↔ IsAsideName name.now }
{
    if is_dressed(name) {
        return false;
    }
    name.parse::<u32>().is_ok()
}
