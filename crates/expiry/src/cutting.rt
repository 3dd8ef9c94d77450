//! Which refs are dropped, where histories are cut, and what a cut puts.

ghost use Rattle.std.specs.Prelude.{◌≡◌, length, IfErr, false};
ghost use Rattle.flat_tables.specs.File.{Writes};
ghost use Rattle.ice_base.specs.Names.{main_name, same_name};
ghost use Rattle.store_api.specs.Program.{is_fault};
ghost use Rattle.repo_read.specs.Answers.{Answers};
ghost use Rattle.expiry.specs.Verdicts.{is_older, may_drop};
ghost use Rattle.expiry.specs.Looks.{but_initial, next_of, cut_bytes, cuts, MayRefuseLook};

use crate::look::{Decision, Seen};
use crate::terms::Terms;
use flat_tables::{Kind, WriteFault};
use ice_base::{Bytes, RefName, Text};
use ice_ids::Id12;
use repo_objects::Loaded;
use snapshot_file::{SnapshotHead, write_rows};
use std::alloc::Global;
use store_api::{Key, Refusal};

/// Whether it is the branch `main`.
fn is_main(name: &RefName) -> bool
    ensures { result ≡ same_name name.now main_name }
{
    name.as_str() == "main"
}

/// Whether this ref may be dropped; the branch `main` never.
pub(crate) fn may_drop(terms: Terms, key: &Key) -> bool
    ensures { result ≡ may_drop terms key.now }
{
    match key {
        Key::Branch(name) => terms.drop_branches && !is_main(name),
        Key::Tag(_) => terms.drop_tags,
        Key::Snapshot(_) | Key::Manifest(_) | Key::Txn(_) | Key::Chunk(_) => false,
        Key::Tombstone(_) | Key::Lease(_) => false,
    }
}

/// Whether a snapshot was flushed before the cutoff.
pub(crate) fn is_older(cutoff: u64, loaded: &Loaded) -> bool
    ensures { result ≡ is_older cutoff loaded.now }
{
    loaded.file().flushed_at() < cutoff
}

/// The initial snapshot isn't read as a parent.
fn but_initial(parent: Option<Id12>) -> Option<Id12>
    ensures { result ≡ but_initial parent }
{
    match parent {
        None => None,
        Some(id) => {
            if id == Id12::INITIAL {
                return None;
            }
            Some(id)
        }
    }
}

/// The parent that is read next.
pub(crate) fn next_of(loaded: &Loaded) -> Option<Id12>
    ensures { result ≡ next_of loaded.now }
{
    let file = loaded.file();
    if file.id() == Id12::INITIAL {
        return None;
    }
    but_initial(file.parent())
}

/// The file of the cut of a history at this snapshot.
fn cut_file(alloc: Global, loaded: &Loaded) -> Result<Vec<u8>, WriteFault>
    ensures { let file = cut_bytes loaded.now in Writes result file (length file) }
{
    let file = loaded.file();
    let head = SnapshotHead {
        id: file.id(),
        parent: Some(Id12::INITIAL),
        flushed_at: file.flushed_at(),
        message: &Text::of(alloc, file.message())?,
        props: &file.props().copy(alloc)?,
        manifest_files: &file.manifest_files().copy(alloc)?,
    };
    write_rows(alloc, &head, &file.nodes())
}

/// The cut of a history at this snapshot: it is put over with the initial snapshot as its parent, and all else as it was.
/// Refusals: `TooLarge` exactly where that file would be longer than a file may be, or `NoMemory`.
pub(crate) fn cut(alloc: Global, last: &Seen) -> Result<Decision, Refusal>
    ensures told { Answers (cuts last.now) result }
    ensures calm { IfErr result (λ why. is_fault why ≡ false) }
    ensures listed { IfErr result MayRefuseLook }
{
    match cut_file(alloc, &last.file) {
        Ok(bytes) => Ok(Decision::Cuts {
            id: last.file.file().id(),
            version: last.version,
            bytes: Bytes::from_vec(bytes),
        }),
        Err(WriteFault::TooLarge(_)) => Err(Refusal::TooLarge(Kind::Snapshot)),
        Err(WriteFault::NoMemory) => Err(Refusal::NoMemory),
    }
}
