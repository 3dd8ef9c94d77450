//! The files of snapshots: which one is put in the target, and what is fine there.

ghost use Rattle.std.specs.Prelude.{◌≡◌, length, IfErr, false};
ghost use Rattle.flat_tables.specs.File.{Writes};
ghost use Rattle.snapshot_file.specs.Layout.{snapshot_bytes};
ghost use Rattle.repo_read.specs.Answers.{Answers};
ghost use Rattle.repo_objects.specs.Readings.{snapshot_by};
ghost use Rattle.mirror_reports.specs.Told.{file_of, file_under, same_parent, same_but_parent, if_read, is_fine};

use flat_tables::{Kind, WriteFault};
use ice_base::{Bytes, Text};
use ice_ids::Id12;
use repo_objects::{Loaded, Unread};
use snapshot_file::{SnapshotHead, write_rows};
use std::alloc::Global;
use store_api::Refusal;

/// The file of a snapshot that names this parent, and says all else as another one.
fn write_under(alloc: Global, parent: Option<Id12>, loaded: &Loaded) -> Result<Vec<u8>, WriteFault>
    ensures { let file = snapshot_bytes (record (loaded.now) { parent = parent }) in Writes result
        file (length file) }
{
    let file = loaded.file();
    let head = SnapshotHead {
        id: file.id(),
        parent,
        flushed_at: file.flushed_at(),
        message: &Text::of(alloc, file.message())?,
        props: &file.props().copy(alloc)?,
        manifest_files: &file.manifest_files().copy(alloc)?,
    };
    write_rows(alloc, &head, &file.nodes())
}

/// The same as bytes. Refusals: `TooLarge` exactly where that file would be longer than a file may be, or `NoMemory`.
fn file_with(alloc: Global, parent: Option<Id12>, loaded: &Loaded) -> Result<Bytes, Refusal>
    ensures { Answers (file_of (record (loaded.now) { parent = parent })) result }
{
    match write_under(alloc, parent, loaded) {
        Ok(bytes) => Ok(Bytes::from_vec(bytes)),
        Err(WriteFault::TooLarge(_)) => Err(Refusal::TooLarge(Kind::Snapshot)),
        Err(WriteFault::NoMemory) => Err(Refusal::NoMemory),
    }
}

/// Whether two parents are the same.
fn same_parent(a: Option<Id12>, b: Option<Id12>) -> bool
    ensures { result ≡ same_parent a b }
{
    match (a, b) {
        (None, None) => true,
        (Some(a), Some(b)) => a == b,
        _ => false,
    }
}

/// The file of a snapshot with this parent: the bytes that were got, where they name it. Refusals: `TooLarge`, `NoMemory`.
pub fn file_under(
    alloc: Global,
    parent: Option<Id12>,
    bytes: Bytes,
    loaded: &Loaded,
) -> Result<Bytes, Refusal>
    ensures { Answers (file_under parent bytes loaded.now) result }
{
    if same_parent(loaded.file().parent(), parent) {
        Ok(bytes)
    } else {
        file_with(alloc, parent, loaded)
    }
}

/// The snapshot that was read, if there is one; `NoMemory` where memory was wanting for that. It takes none itself.
fn if_read(read: Result<Loaded, Unread>) -> Result<Option<Loaded>, Refusal>
    ensures { result ≡ if_read read }
{
    match read {
        Ok(loaded) => Ok(Some(loaded)),
        Err(Unread::Bad(_)) => Ok(None),
        Err(Unread::NoMemory) => Err(Refusal::NoMemory),
    }
}

/// A snapshot of this id, if the bytes stand for one; `NoMemory` without memory.
fn read_of(alloc: Global, id: Id12, bytes: &Bytes) -> Result<Option<Loaded>, Refusal>
    ensures { Answers (Ok (snapshot_by id bytes.now)) result }
{
    let Ok(copy) = bytes.copy(alloc) else {
        return Err(Refusal::NoMemory);
    };
    if_read(Loaded::read(alloc, id, copy))
}

/// Whether two snapshots differ in the parent alone. Refusals: `TooLarge`, `NoMemory`.
fn same_but_parent(alloc: Global, a: &Loaded, b: &Loaded) -> Result<bool, Refusal>
    ensures { Answers (same_but_parent (Some a.now) (Some b.now)) result }
{
    let first = file_with(alloc, None, a)?;
    let second = file_with(alloc, None, b)?;
    Ok(first == second)
}

/// Whether the target's bytes are fine for a snapshot of this id: they are the source's, or both are snapshots that differ in the parent
/// alone. Refusals: `TooLarge`, `NoMemory`.
pub fn is_fine(alloc: Global, id: Id12, bytes: &Bytes, there: &Bytes) -> Result<bool, Refusal>
    ensures { Answers (is_fine id bytes.now there.now) result }
{
    if bytes == there {
        return Ok(true);
    }
    let (Some(ours), Some(theirs)) = (read_of(alloc, id, bytes)?, read_of(alloc, id, there)?) else {
        return Ok(false);
    };
    same_but_parent(alloc, &ours, &theirs)
}
