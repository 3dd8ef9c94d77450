//! A ref that is dropped while all are read.

use ice_base::RefName;
use ice_ids::Id12;
use play_outcome::{RefLine, RefLines};
use ref_file::ref_write;
use repository::read_refs;
use std::alloc::Global;
use std::test::Fail;
use store_api::{Key, ObjectStore, Polite, Refusal, Why};
use test_ends::holds;
use untold_store::{Untold, begun};

/// The key of the branch `late`.
fn late(alloc: Global) -> Option<Key> {
    match RefName::read(alloc, "late") {
        Ok(name) => Some(Key::Branch(name)),
        Err(_) => None,
    }
}

/// Whether a branch was put.
fn puts(store: &mut Untold, key: &Key) -> bool {
    let put = ObjectStore::<Polite>::put_new(store, key, &ref_write(Id12::INITIAL), Why::Create);
    put.is_ok()
}

/// Whether a branch with the key `late` was put.
fn puts_late(alloc: Global, store: &mut Untold) -> bool {
    let Some(key) = late(alloc) else {
        return false;
    };
    let put = puts(store, &key);
    drop(key);
    put
}

/// A repository with the branches `late` and `main`, the first of which is dropped behind a listing.
fn two_branches(alloc: Global) -> Option<Untold> {
    let mut store = begun(alloc, Untold::dropping(alloc, late(alloc)?))?;
    let put = puts_late(alloc, &mut store);
    put.then_some(store)
}

fn is_main(lines: &[RefLine]) -> bool {
    match lines {
        [line] => !line.tag && line.name.as_str() == "main" && line.id == Id12::INITIAL,
        _ => false,
    }
}

fn are_main(lines: Result<RefLines, Refusal>) -> bool {
    let are = match &lines {
        Ok(lines) => is_main(lines.as_slice()),
        Err(_) => false,
    };
    drop(lines);
    are
}

/// Whether `main` alone is read.
fn reads_main(alloc: Global) -> Option<bool> {
    let mut store = two_branches(alloc)?;
    let lines = read_refs(alloc, &mut store);
    drop(store);
    Some(are_main(lines))
}

#[test]
fn a_ref_that_is_gone_is_passed_over(rt: HostRuntime) -> Result<(), Fail> {
    holds(reads_main(rt.alloc()) == Some(true), "main alone")
}
