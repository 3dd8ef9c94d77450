//! A program that is killed at each call of one commit that changes something, over a folder in memory.

use crate::folders::MemoryStore;
use crate::runs::{report, script};
use folder::MemoryFolder;
use ice_ids::Draw;
use play_at_once::OpenGate;
use std::alloc::{AllocError, Global};
use std::sync::Wait;
use std::test::Fail;
use std::thread::Threads;
use test_ends::holds;
use top_call::{Ended, run};

/// The first commit.
const FIRST: &str = "task a write main 0 fail\n\
    group /\n\
    array /x uint8 2048 1024 0\n\
    fill /x 0 01\n\
    commit first\n\
    turns\n";

/// The commit that is cut off: of two chunks, one of them new, and a group.
const SECOND: &str = "task b write main 0 fail\n\
    fill /x 0 02\n\
    fill /x 1 03\n\
    group /y\n\
    commit second\n\
    turns\n";

/// All is read.
const READS: &str = "task r read branch main\n\
    list /\n\
    chunk /x 0\n\
    chunk /x 1\n\
    turns\n";

/// Plays a script over the store in a folder: what it reports, and the folder.
fn played<R: Threads + Wait + Sync>(
    rt: &R,
    alloc: Global,
    seed: u8,
    text: &str,
    tree: MemoryFolder,
) -> Result<(String, MemoryFolder), AllocError> {
    let mut asked = script(alloc, text).ok_or(AllocError)?;
    let store = MemoryStore::over(alloc, tree)?;
    let Ended { store, .. } = run(
        rt,
        alloc,
        asked.words.as_slice(),
        Draw::Stream([seed; 32]),
        &mut asked.input,
        store,
        &OpenGate,
        &mut asked.output,
    );
    let report = report(alloc, &asked);
    drop(asked);
    let tree = store.into_tree();
    match report {
        Some(report) => Ok((report, tree)),
        None => Err(AllocError),
    }
}

/// What became of the second commit: whether it was answered as done, what is read then, and whether it was cut off.
#[derive(Drop)]
struct Came {
    committed: bool,
    seen: String,
    cut_off: bool,
}

/// Cuts the second commit off after so many calls.
fn cut<R: Threads + Wait + Sync>(rt: &R, alloc: Global, calls: u64) -> Result<Came, AllocError> {
    let (_, mut tree) = played(rt, alloc, 1, FIRST, MemoryFolder::new(alloc))?;
    tree.cut_after(calls);
    let (told, mut tree) = played(rt, alloc, 2, SECOND, tree)?;
    let cut_off = tree.calls_left() == 0;
    tree.cut_after(u64::MAX);
    let (seen, tree) = played(rt, alloc, 3, READS, tree)?;
    drop(tree);
    Ok(Came {
        committed: told.contains(" committed "),
        seen,
        cut_off,
    })
}

/// More calls than the second commit makes.
const MOST: u64 = 200;

/// After how many calls the second commit is seen, and after how many it is answered as done.
#[derive(Clone, Copy)]
struct Cuts {
    seen: u64,
    told: u64,
}

/// Adds to what is known of cuts one after so many calls: where it was, it is new, and where it is answered, it was.
fn add_cut(cuts: &mut Cuts, came: &Came, old: &str, new: &str, calls: u64) -> bool {
    let is_new = came.seen.as_str() == new;
    if !is_new {
        cuts.seen = calls.saturating_add(1);
    }
    if !came.committed {
        cuts.told = calls.saturating_add(1);
    }
    (is_new || came.seen.as_str() == old) && (is_new || !came.committed)
}

/// Cuts the second commit off after each number of calls: all is read as it was before, or as it is after the commit, and so where
/// it was answered as done.
fn cut_each<R: Threads + Wait + Sync>(
    rt: &R,
    alloc: Global,
    old: &str,
    new: &str,
) -> Result<Cuts, Fail> {
    let mut cuts = Cuts { seen: 0, told: 0 };
    for calls in 0..MOST {
        let came = cut(rt, alloc, calls)?;
        let right = add_cut(&mut cuts, &came, old, new, calls);
        let cut_off = came.cut_off;
        drop(came);
        if !right {
            return Err(Fail::new("a cut left something else"));
        }
        if !cut_off {
            return Ok(cuts);
        }
    }
    Err(Fail::new("too many calls"))
}

/// Whether the first commit is read, and nothing of the second one.
fn is_first(came: &Came) -> bool {
    let seen = came.seen.as_str();
    !came.committed && seen.contains("chunk 0101") && !seen.contains("/y")
}

/// Whether both are read.
fn is_second(came: &Came) -> bool {
    let seen = came.seen.as_str();
    came.committed
        && seen.contains("list group /y")
        && seen.contains("chunk 0202")
        && seen.contains("chunk 0303")
}

/// What is known of all cuts, where the first one and a run that isn't cut off are read as they are to be.
fn all_cuts<R: Threads + Wait + Sync>(rt: &R, alloc: Global) -> Result<Cuts, Fail> {
    let old = cut(rt, alloc, 0)?;
    let new = cut(rt, alloc, MOST)?;
    let right = is_first(&old) && is_second(&new);
    let cuts = cut_each(rt, alloc, old.seen.as_str(), new.seen.as_str());
    drop(old);
    drop(new);
    let cuts = cuts?;
    if !right {
        return Err(Fail::new("the whole runs aren't read as they are to be"));
    }
    Ok(cuts)
}

/// Five calls put a file: it is made, written, flushed and moved, and its folder is flushed. The commit puts two chunks, a manifest,
/// a log, a snapshot and then the branch. It is seen once the branch is moved, and answered as done once the branch's folder is
/// flushed.
#[test]
fn a_commit_that_is_cut_off(rt: HostRuntime) -> Result<(), Fail> {
    let cuts = all_cuts(&rt, rt.alloc())?;
    holds(
        cuts.seen == 29 && cuts.told == 30,
        "another call than before",
    )
}
