//! Tasks at once: two workers that meet, and sixty-four that commit on one branch.

use crate::gates::Meeting;
use crate::runs::{Asked, perform, report, script};
use ice_base::{Bytes, TickClock};
use ice_ids::{Draw, Id12};
use mem_store::{EventRef, MemStore, ReplyRef};
use ref_file::ref_read;
use snapshot_file::SnapshotFile;
use std::alloc::{AllocError, Global};
use std::sync::Wait;
use std::test::Fail;
use std::thread::Threads;
use store_api::{Got, Key, ObjectStore, Op, Over, Polite, StoreFault, Version};
use test_ends::{holds, says};
use untold_store::Untold;

const TWO: &str = "task a write main 0 fail\ngroup /\ntask b write main 0 fail\ngroup /\n";

/// What the run of two tasks that meet writes.
fn report_of_two<R: Threads + Wait + Sync>(
    rt: &R,
    alloc: Global,
    gate: &Meeting,
) -> Option<String> {
    let mut asked = script(alloc, TWO)?;
    let store = Untold::new(alloc);
    drop(perform(rt, alloc, Draw::Count, &mut asked, store, gate));
    let report = report(alloc, &asked);
    drop(asked);
    report
}

#[test]
fn two_workers_meet(rt: HostRuntime) -> Result<(), Fail> {
    let gate = Meeting::new(true);
    let report = report_of_two(&rt, rt.alloc(), &gate);
    let met = gate.met();
    drop(gate);
    says(report, "a done\nb done\nbranch main 1CECHNKREP0F1RSTCMT0\n")?;
    holds(met == 2, "two have met")
}

/// A commit on `main`: whose it is, the version that it was put over, its own, and the snapshot.
#[derive(Clone, Copy)]
struct Entry {
    client: u32,
    old: Version,
    version: Version,
    snapshot: Id12,
}

/// The bytes that an operation puts over a version of a branch.
fn put_of(op: &Op) -> Option<(&Bytes, Version)> {
    match op {
        Op::PutOver {
            key: Key::Branch(_),
            bytes,
            old,
            ..
        } => Some((bytes, *old)),
        _ => None,
    }
}

/// The version that was put.
fn version_of(reply: ReplyRef<'_>) -> Option<Version> {
    match reply {
        ReplyRef::Over(Over::Done { version, .. }) => Some(version),
        _ => None,
    }
}

/// The commit that this event is, if it is one.
fn entry_of(alloc: Global, event: EventRef<'_>) -> Option<Entry> {
    let (bytes, old) = put_of(event.op)?;
    let version = version_of(event.reply)?;
    let snapshot = ref_read(alloc, bytes.as_slice()).ok()?;
    Some(Entry {
        client: event.client,
        old,
        version,
        snapshot,
    })
}

/// The commits of a journal whose one branch is `main`, in their order.
fn entries(alloc: Global, memory: &MemStore<TickClock>) -> Result<Vec<Entry>, AllocError> {
    let mut entries = Vec::new(alloc);
    for place in 0..memory.number_of_events() {
        if let Some(event) = memory.event(place)
            && let Some(entry) = entry_of(alloc, event)
        {
            entries.push(entry)?;
        }
    }
    Ok(entries)
}

/// The bytes that were found.
fn found(got: Result<Got, StoreFault>) -> Option<Bytes> {
    match got {
        Ok(Got::Found { bytes, .. }) => Some(bytes),
        _ => None,
    }
}

/// The bytes of the snapshot under this id.
fn snapshot_bytes(memory: &mut MemStore<TickClock>, id: Id12) -> Option<Bytes> {
    let key = Key::Snapshot(id);
    let got = ObjectStore::<Polite>::get(memory, &key);
    drop(key);
    found(got)
}

/// Whether the nodes of a snapshot stand at exactly these paths.
fn has_paths(snapshot: &SnapshotFile, paths: &[String]) -> bool {
    let nodes = snapshot.nodes.as_slice();
    if nodes.len() != paths.len() {
        return false;
    }
    for (node, path) in nodes.iter().zip(paths.iter()) {
        if node.path.as_str() != path.as_str() {
            return false;
        }
    }
    true
}

/// Whether a commit was put over the one before it, if there is one, which is its snapshot's parent.
fn follows(snapshot: &SnapshotFile, entry: &Entry, last: Option<&Entry>) -> bool {
    match last {
        Some(last) => entry.old == last.version && snapshot.parent == Some(last.snapshot),
        None => true,
    }
}

/// Whether these are the bytes of a snapshot that follows on the one before it, and whose tree has exactly these paths.
fn has_snapshot(
    alloc: Global,
    bytes: &Bytes,
    entry: &Entry,
    last: Option<&Entry>,
    paths: &[String],
) -> bool {
    let Ok(snapshot) = snapshot_file::read(alloc, bytes.as_slice()) else {
        return false;
    };
    let has = follows(&snapshot, entry, last) && has_paths(&snapshot, paths);
    drop(snapshot);
    has
}

/// Whether a commit follows on the one before it, and its tree has exactly these paths.
fn is_in_line(
    alloc: Global,
    memory: &mut MemStore<TickClock>,
    entry: &Entry,
    last: Option<&Entry>,
    paths: &[String],
) -> bool {
    let Some(bytes) = snapshot_bytes(memory, entry.snapshot) else {
        return false;
    };
    let is = has_snapshot(alloc, &bytes, entry, last, paths);
    drop(bytes);
    is
}

/// Adds the path of the group that a task of this client adds, in order.
fn add_path(alloc: Global, paths: &mut Vec<String>, client: u32) -> Result<(), AllocError> {
    paths.push(format!(in alloc; "/{client}")?)?;
    paths.sort()
}

/// A list of the root's path.
fn root_path(alloc: Global) -> Result<Vec<String>, AllocError> {
    let mut paths = Vec::new(alloc);
    paths.push(String::from_str(alloc, "/")?)?;
    Ok(paths)
}

/// Whether each commit follows on the one before it, and adds its task's group to that one's tree. The first one, of the root
/// alone, isn't of these tasks.
fn follow_on(
    alloc: Global,
    memory: &mut MemStore<TickClock>,
    entries: &[Entry],
    paths: &mut Vec<String>,
) -> Result<bool, AllocError> {
    let mut last: Option<&Entry> = None;
    for entry in entries {
        if last.is_some() {
            add_path(alloc, paths, entry.client)?;
        }
        if !is_in_line(alloc, memory, entry, last, paths.as_slice()) {
            return Ok(false);
        }
        last = Some(entry);
    }
    Ok(true)
}

/// Whether the commits are one list, from the root's on.
fn are_one_list(alloc: Global, memory: &mut MemStore<TickClock>, entries: &[Entry]) -> bool {
    let Ok(mut paths) = root_path(alloc) else {
        return false;
    };
    let are = follow_on(alloc, memory, entries, &mut paths);
    drop(paths);
    are == Ok(true)
}

/// Adds the lines of a task that adds a group that bears its number, and commits.
fn add_task(alloc: Global, script: &mut String, task: u32) -> Result<(), AllocError> {
    write!(
        script,
        "task t{task} write main 9 fail\ngroup /{task}\ncommit c\n"
    )
}

/// A script of so many such tasks.
fn commits(alloc: Global, tasks: u32) -> Result<String, AllocError> {
    let mut script = String::new(alloc);
    for task in 1..=tasks {
        add_task(alloc, &mut script, task)?;
    }
    Ok(script)
}

/// A run of that script.
fn committing(alloc: Global, tasks: u32) -> Option<Asked> {
    let text = commits(alloc, tasks).ok()?;
    let asked = script(alloc, text.as_str());
    drop(text);
    asked
}

const ROOT: &str = "task a write main 0 fail\ngroup /\ncommit root\n";

/// What a run leaves in this store.
pub(crate) fn left<R: Threads + Wait + Sync>(
    rt: &R,
    alloc: Global,
    draw: Draw,
    asked: &mut Asked,
    store: Untold,
) -> Untold {
    let gate = Meeting::new(false);
    perform(rt, alloc, draw, asked, store, &gate).store
}

/// A store on which the root was committed.
fn with_root<R: Threads + Wait + Sync>(rt: &R, alloc: Global) -> Option<Untold> {
    let mut asked = script(alloc, ROOT)?;
    let store = Untold::new(alloc);
    let store = left(rt, alloc, Draw::Count, &mut asked, store);
    drop(asked);
    Some(store)
}

/// What a run leaves in the store on which the root was committed.
fn played<R: Threads + Wait + Sync>(
    rt: &R,
    alloc: Global,
    asked: &mut Asked,
) -> Option<MemStore<TickClock>> {
    let store = with_root(rt, alloc)?;
    let store = left(rt, alloc, Draw::Stream([7; 32]), asked, store);
    Some(store.into_memory())
}

/// How many tasks committed, as their report tells, where each of so many was committed or refused.
fn committed_in(report: &str, tasks: usize) -> Option<usize> {
    let committed = report.matches(" committed ").count();
    let refused = report.matches(" refused ").count();
    (committed.checked_add(refused) == Some(tasks)).then_some(committed)
}

/// How many tasks committed, as is told.
fn committed(alloc: Global, asked: &Asked, tasks: usize) -> Option<usize> {
    let report = report(alloc, asked)?;
    let committed = committed_in(report.as_str(), tasks);
    drop(report);
    committed
}

/// Whether the journal behind the root's commit has so many commits, in one list.
fn has_one_list(alloc: Global, memory: &mut MemStore<TickClock>, committed: usize) -> bool {
    let Ok(entries) = entries(alloc, memory) else {
        return false;
    };
    let is = entries.len().checked_sub(1) == Some(committed)
        && are_one_list(alloc, memory, entries.as_slice());
    drop(entries);
    is
}

/// Plays so many tasks: whether the journal has one list of as many as have committed, as is told.
fn are_listed<R: Threads + Wait + Sync>(
    rt: &R,
    alloc: Global,
    asked: &mut Asked,
    tasks: usize,
) -> Option<bool> {
    let mut memory = played(rt, alloc, asked)?;
    let is = match committed(alloc, asked, tasks) {
        Some(committed) => has_one_list(alloc, &mut memory, committed),
        None => false,
    };
    drop(memory);
    Some(is)
}

/// Plays sixty-four tasks.
fn are_sixty_four_listed<R: Threads + Wait + Sync>(rt: &R, alloc: Global) -> Option<bool> {
    let mut asked = committing(alloc, 64)?;
    let are = are_listed(rt, alloc, &mut asked, 64);
    drop(asked);
    are
}

/// The journal has one list for the branch, as long as the report tells.
#[test]
fn sixty_four_commit_at_once(rt: HostRuntime) -> Result<(), Fail> {
    holds(
        are_sixty_four_listed(&rt, rt.alloc()) == Some(true),
        "one list",
    )
}
