//! The directory as a store, its claims, and its opening.

use crate::calls::{Call, branch, fails, told};
use crate::folders::{made, removed};
use crate::stores::{HostStore, claim_at};
use dir_store::{Claim, OpenFault};
use ice_base::TickClock;
use ice_ids::Id12;
use std::test::Fail;
use std::{fs, io};
use store_api::{Key, Part, StoreFault};
use test_ends::{holds, says};

/// What operations on a key answer in the directory at this path.
pub(crate) fn told_at(
    rt: HostRuntime,
    path: &str,
    key: &Key,
    calls: &[Call<'_>],
) -> Option<String> {
    let mut store = HostStore::at(rt, path, TickClock::new()).ok()?;
    let told = told(rt.alloc(), &mut store, key, calls);
    drop(store);
    told
}

/// What operations on a branch answer in a fresh directory.
fn played(rt: HostRuntime, path: &str, calls: &[Call<'_>]) -> Option<String> {
    if !made(rt, path) {
        return None;
    }
    let main = branch(rt.alloc(), "main")?;
    let told = told_at(rt, path, &main, calls);
    drop(main);
    told
}

/// A version is the first 8 bytes of the SHA-256 of the bytes, as Python's `hashlib` tells them.
#[test]
fn a_key_is_put_once(rt: HostRuntime) -> Result<(), Fail> {
    let calls = [Call::New(b"one"), Call::New(b"two"), Call::Get];
    let want = "Ok(New(Done { version: Version(8544106591765445504), now: 0 }))\n\
        Ok(New(Present { version: Version(8544106591765445504), now: 1 }))\n\
        Ok(Got(Found { bytes: Bytes { items: [111, 110, 101] }, version: Version(8544106591765445504), now: 2 }))\n";
    says(played(rt, "put_once", &calls), want)?;
    removed(rt, "put_once")
}

#[test]
fn a_key_moves_at_its_version(rt: HostRuntime) -> Result<(), Fail> {
    let calls = [
        Call::New(b"one"),
        Call::Over(b"two", b"one"),
        Call::Over(b"three", b"one"),
    ];
    let want = "Ok(New(Done { version: Version(8544106591765445504), now: 0 }))\n\
        Ok(Over(Done { version: Version(4595022913070461154), now: 1 }))\n\
        Ok(Over(Moved { found: Some(Version(4595022913070461154)), now: 2 }))\n";
    says(played(rt, "moves", &calls), want)?;
    removed(rt, "moves")
}

#[test]
fn a_key_is_removed_at_its_version(rt: HostRuntime) -> Result<(), Fail> {
    let calls = [
        Call::New(b"one"),
        Call::RemoveAt(b"two"),
        Call::RemoveAt(b"one"),
        Call::Remove,
    ];
    let want = "Ok(New(Done { version: Version(8544106591765445504), now: 0 }))\n\
        Ok(GoneAt(Moved { found: Some(Version(8544106591765445504)), now: 1 }))\n\
        Ok(GoneAt(Done { now: 2 }))\n\
        Ok(Gone(Absent { now: 3 }))\n";
    says(played(rt, "removed", &calls), want)?;
    removed(rt, "removed")
}

/// What is listed behind two puts of snapshots.
fn snapshots_listed(rt: HostRuntime, path: &str) -> Option<String> {
    let first = Key::Snapshot(Id12::INITIAL);
    drop(told_at(rt, path, &first, &[Call::New(b"first")])?);
    drop(first);
    let late = Key::Snapshot(Id12([2; 12]));
    let calls = [Call::New(b"late"), Call::List(Part::Snapshots)];
    let told = told_at(rt, path, &late, &calls);
    drop(late);
    told
}

#[test]
fn listings_are_in_order(rt: HostRuntime) -> Result<(), Fail> {
    holds(made(rt, "listed"), "a folder")?;
    let want = "Ok(New(Done { version: Version(616994949991867198), now: 0 }))\n\
        snapshots/081040G2081040G20810 4\nsnapshots/1CECHNKREP0F1RSTCMT0 5\n--\n";
    says(snapshots_listed(rt, "listed"), want)?;
    removed(rt, "listed")
}

/// Lays files and a folder that are no objects.
fn litter(rt: HostRuntime) -> io::Result<()> {
    let aside = "passed_over/refs/branch.main/ref.json.0.new";
    fs::write(&rt, aside, "cut off")?;
    fs::write(&rt, "passed_over/refs/readme", "no object")?;
    fs::create_dir_all(&rt, "passed_over/refs/branch.empty")
}

/// What is listed of a branch beside what is no object.
fn listed_beside_litter(rt: HostRuntime, path: &str, main: &Key) -> Option<String> {
    drop(told_at(rt, path, main, &[Call::New(b"one")])?);
    litter(rt).ok()?;
    let calls = [
        Call::List(Part::Branches),
        Call::List(Part::Tags),
        Call::List(Part::Chunks),
    ];
    told_at(rt, path, main, &calls)
}

fn passed_over(rt: HostRuntime, path: &str) -> Option<String> {
    let main = branch(rt.alloc(), "main")?;
    let listed = listed_beside_litter(rt, path, &main);
    drop(main);
    listed
}

#[test]
fn listings_pass_over_what_is_no_object(rt: HostRuntime) -> Result<(), Fail> {
    holds(made(rt, "passed_over"), "a folder")?;
    let want = "refs/branch.main/ref.json 3\n--\n--\n--\n";
    says(passed_over(rt, "passed_over"), want)?;
    removed(rt, "passed_over")
}

/// Whether a put and a listing fail, and are counted.
fn both_fail(store: &mut HostStore, key: &Key) -> bool {
    fails(store, key, &Call::New(b"one"))
        && fails(store, key, &Call::List(Part::Branches))
        && store.counts.faults == 2
}

/// Whether both fail in this store where a file is in the place of a folder.
fn fail_where_blocked(rt: HostRuntime, store: &mut HostStore) -> bool {
    let blocked = fs::write(&rt, "failing/refs", "a file in the place of the folder");
    let Some(main) = branch(rt.alloc(), "main") else {
        return false;
    };
    let fail = both_fail(store, &main);
    drop(main);
    blocked.is_ok() && fail
}

/// Whether both fail where a file is in the place of a folder.
fn fail_at(rt: HostRuntime, path: &str) -> bool {
    let Ok(mut store) = HostStore::at(rt, path, TickClock::new()) else {
        return false;
    };
    let fail = fail_where_blocked(rt, &mut store);
    drop(store);
    fail
}

#[test]
fn failures_are_counted(rt: HostRuntime) -> Result<(), Fail> {
    let missing = HostStore::at(rt, "not_there", TickClock::new()).err();
    holds(missing == Some(StoreFault::Failed), "not_there")?;
    holds(made(rt, "failing") && fail_at(rt, "failing"), "failing")?;
    removed(rt, "failing")
}

fn opening_fault(rt: HostRuntime, path: &str) -> Option<OpenFault> {
    claim_at(rt, path).err()
}

fn is_taken(fault: Option<OpenFault>) -> bool {
    matches!(fault, Some(OpenFault::Taken))
}

/// Whether a second claim of a claimed directory, and an opening, are refused, since it is taken.
fn refuses(rt: HostRuntime, path: &str) -> bool {
    let Ok(claim) = Claim::of(&rt, path) else {
        return false;
    };
    let claiming = is_taken(Claim::of(&rt, path).err());
    let opening = is_taken(opening_fault(rt, path));
    drop(claim);
    claiming && opening
}

#[test]
fn one_claim_at_a_time(rt: HostRuntime) -> Result<(), Fail> {
    holds(made(rt, "claimed"), "a folder")?;
    holds(refuses(rt, "claimed"), "refused")?;
    holds(Claim::of(&rt, "claimed").is_ok(), "claimed again")?;
    removed(rt, "claimed")
}

const NO_DIRECTORIES: [(&str, OpenFault); 4] = [
    ("not_there", OpenFault::Missing),
    ("", OpenFault::Missing),
    ("a_file", OpenFault::NotDirectory),
    ("a_file/beneath", OpenFault::NotDirectory),
];

/// Fails where another fault is found than each of those, beside a file.
fn are_refused(rt: HostRuntime) -> Result<(), Fail> {
    for (path, fault) in &NO_DIRECTORIES {
        holds(opening_fault(rt, path) == Some(*fault), path)?;
    }
    Ok(())
}

#[test]
fn what_is_no_directory_is_not_opened(rt: HostRuntime) -> Result<(), Fail> {
    holds(fs::write(&rt, "a_file", "no directory").is_ok(), "a file")?;
    are_refused(rt)?;
    holds(
        matches!(fs::exists(&rt, "not_there"), Ok(false)),
        "not_there",
    )?;
    holds(fs::remove_file(&rt, "a_file").is_ok(), "a file")
}

/// A store that may go to another thread.
fn sent<S: Send>(store: &S) -> &S {
    store
}

fn is_drawn(seed: &[u8; 32]) -> bool {
    seed.as_slice() != [0; 32].as_slice()
}

/// What three operations answer, how many are counted, and whether a seed was drawn.
fn counted(rt: HostRuntime, path: &str, key: &Key) -> Option<String> {
    let mut claimed = claim_at(rt, path).ok()?;
    let calls = [Call::New(b"one"), Call::Get, Call::List(Part::Tags)];
    let told = told(rt.alloc(), &mut claimed.store, key, &calls);
    let counted = sent(&claimed.store).counts.operations;
    let drawn = is_drawn(&claimed.seed);
    drop(claimed);
    let mut told = told?;
    write!(told, "{counted} {drawn}").ok()?;
    Some(told)
}

fn counted_at(rt: HostRuntime, path: &str) -> Option<String> {
    let main = branch(rt.alloc(), "main")?;
    let counted = counted(rt, path, &main);
    drop(main);
    counted
}

#[test]
fn operations_are_counted(rt: HostRuntime) -> Result<(), Fail> {
    holds(made(rt, "counted"), "a folder")?;
    let want = "Ok(New(Done { version: Version(8544106591765445504), now: 0 }))\n\
        Ok(Got(Found { bytes: Bytes { items: [111, 110, 101] }, version: Version(8544106591765445504), now: 1 }))\n\
        --\n3 true";
    says(counted_at(rt, "counted"), want)?;
    removed(rt, "counted")
}
