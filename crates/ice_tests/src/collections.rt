//! A collection, and an expiry, at once beside eight tasks that commit on one branch.

use crate::at_once::left;
use crate::runs::{report, script};
use ice_ids::Draw;
use std::alloc::Global;
use std::sync::Wait;
use std::test::Fail;
use std::thread::Threads;
use test_ends::holds;
use untold_store::Untold;

/// A commit of an array with a chunk, and a chunk that is set and given up, whose object nothing reaches: fifteen operations.
const BEGUN: &str =
    "task a write main 0 fail\ngroup /\narray /x uint8 1026 513 0\nfill /x 0 01\ncommit base\ntask g write main 0 fail\nfill /x 1 02\nturns\n";

/// Eight tasks that commit, and one that collects what was put before all of them.
const AT_ONCE: &str =
    "task t0 write main 9 fail\ngroup /g0\ncommit c\ntask t1 write main 9 fail\ngroup /g1\ncommit c\ntask t2 write main 9 fail\ngroup /g2\ncommit c\ntask t3 write main 9 fail\ngroup /g3\ncommit c\ntask t4 write main 9 fail\ngroup /g4\ncommit c\ntask t5 write main 9 fail\ngroup /g5\ncommit c\ntask t6 write main 9 fail\ngroup /g6\ncommit c\ntask t7 write main 9 fail\ngroup /g7\ncommit c\ntask c collect 15\n";

/// The same tasks, and one that cuts what was flushed before all of them.
const EXPIRED: &str =
    "task t0 write main 9 fail\ngroup /g0\ncommit c\ntask t1 write main 9 fail\ngroup /g1\ncommit c\ntask t2 write main 9 fail\ngroup /g2\ncommit c\ntask t3 write main 9 fail\ngroup /g3\ncommit c\ntask t4 write main 9 fail\ngroup /g4\ncommit c\ntask t5 write main 9 fail\ngroup /g5\ncommit c\ntask t6 write main 9 fail\ngroup /g6\ncommit c\ntask t7 write main 9 fail\ngroup /g7\ncommit c\ntask e expire 15 both\n";

/// All that the branch's head has.
const READ: &str = "task r read branch main\nlist /\nchunk /x 0\nturns\n";

/// What a run of a script prints over a store, beside the store.
fn told<R: Threads + Wait + Sync>(
    rt: &R,
    alloc: Global,
    draw: Draw,
    text: &str,
    store: Untold,
) -> (Untold, Option<String>) {
    let Some(mut asked) = script(alloc, text) else {
        return (store, None);
    };
    let store = left(rt, alloc, draw, &mut asked, store);
    let report = report(alloc, &asked);
    drop(asked);
    (store, report)
}

/// Whether a report has this line, and this word so often.
fn has(report: Option<String>, line: &str, word: &str, times: usize) -> bool {
    let Some(report) = report else {
        return false;
    };
    let has = report.contains(line) && report.matches(word).count() == times;
    drop(report);
    has
}

/// Whether all commit, the collection takes the one object that nothing reaches, and the head can be read behind it, whole.
fn are_kept<R: Threads + Wait + Sync>(rt: &R, alloc: Global) -> bool {
    let store = Untold::new(alloc);
    let (store, begun) = told(rt, alloc, Draw::Count, BEGUN, store);
    let (store, beside) = told(rt, alloc, Draw::Stream([7; 32]), AT_ONCE, store);
    let (store, read) = told(rt, alloc, Draw::Stream([8; 32]), READ, store);
    drop(store);
    drop(begun);
    let took = has(beside, "c collected 0 0 0 1\n", " committed ", 8);
    has(read, "r 3 chunk 0101", " list ", 9) && took
}

#[test]
fn collected_at_once(rt: HostRuntime) -> Result<(), Fail> {
    holds(are_kept(&rt, rt.alloc()), "eight commits, one object less")
}

/// How often a report has a word.
fn count(report: &Option<String>, word: &str) -> usize {
    match report {
        Some(report) => report.matches(word).count(),
        None => 0,
    }
}

/// Whether each task commits or finds that its base was cut off, `main` stays, and its head has the group of each commit that
/// was told, and no other.
fn are_cut<R: Threads + Wait + Sync>(rt: &R, alloc: Global) -> bool {
    let store = Untold::new(alloc);
    let (store, begun) = told(rt, alloc, Draw::Count, BEGUN, store);
    let (store, beside) = told(rt, alloc, Draw::Stream([7; 32]), EXPIRED, store);
    let (store, read) = told(rt, alloc, Draw::Stream([8; 32]), READ, store);
    drop(store);
    drop(begun);
    let committed = count(&beside, " committed ");
    let refused = count(&beside, " notancestor ");
    let stays = count(&beside, "e 25 branch main ") == 1 && count(&beside, "e done\n") == 1;
    let listed = count(&read, " list ");
    drop(beside);
    let whole = has(read, "r 3 chunk 0101", " list ", listed);
    stays
        && whole
        && committed.saturating_add(refused) == 8
        && listed == committed.saturating_add(1)
}

#[test]
fn expired_at_once(rt: HostRuntime) -> Result<(), Fail> {
    holds(are_cut(&rt, rt.alloc()), "as many groups as commits")
}
