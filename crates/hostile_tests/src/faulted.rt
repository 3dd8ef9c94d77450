//! Machines over a store that answers anything: what is wrong with a file that isn't read, and how many snapshots a walk gets
//! that has no end. A run's report tells neither.

ghost use Rattle.std.specs.Prelude.{◌≡◌, IfSome};
ghost use Rattle.store_api.specs.Program.{IsAsk};
ghost use Rattle.session.specs.Getting.{get_rest};
ghost use Rattle.session.specs.Opening.{open_rest};
ghost use Rattle.session.specs.declared.getting.Getting.TheVariants.{Again};
ghost use Rattle.rebase.specs.Rebasing.{rebase_rest};

use crate::hostile::{AWAY, FIRST, MANIFEST, NO_MEMBER, NOBODYS, SECOND, left};
use crate::lying::{Lie, Lying};
use conflicts::{Pick, Policy};
use ice_base::RefName;
use ice_ids::{Draw, Id12};
use rebase::Rebase;
use repo_read::{At, Chain, ReadSnapshot, Resolve};
use session::{GetChunk, Getting, Open, Session};
use settle::{Doubt, Settle};
use std::alloc::Global;
use std::sync::Wait;
use std::test::Fail;
use std::thread::Threads;
use store_api::{Part, Refusal, run_machine};
use test_ends::{holds, says};
use zarr_path::{Index, Path};

/// What reads a file.
#[derive(Clone, Copy)]
enum Reader {
    /// The opening of a session to write on `main`.
    Opening,
    /// The resolution of `main`.
    Naming,
    /// The settling of a doubt on `main`.
    Doubt,
    /// The rebase of a session whose base is the first of two commits.
    Rebase,
    /// The read of the first chunk of `/x`.
    Chunk,
    /// The read of nobody's snapshot.
    Snapshot,
    /// The walk from nobody's snapshot that keeps what it reads.
    Chain,
}

/// A script, what reads a file behind it, the lies that hold then, and what is wrong with the file.
struct Row {
    script: &'static str,
    reader: Reader,
    lies: &'static [Lie],
    wrong: &'static str,
}

/// What is wrong with the file of which a machine tells that it is bad.
fn wrong<T: Drop>(alloc: Global, ended: Result<T, Refusal>) -> Option<String> {
    let wrong = match &ended {
        Err(Refusal::BadFile(key, bad)) => format!(in alloc; "{key} {bad:?}").ok(),
        _ => None,
    };
    drop(ended);
    wrong
}

/// The opening of a session to write on `main`.
fn opening(alloc: Global) -> Option<Open>
    ensures { IfSome result (λ machine. IsAsk (open_rest machine)) }
{
    let main = RefName::main(alloc).ok()?;
    Open::write(alloc, main, Draw::Count.ids(9)).ok()
}

/// What is wrong with a file that an opening gets.
fn opened(alloc: Global, store: &mut Lying) -> Option<String> {
    let mut open = opening(alloc)?;
    let opened = run_machine(&mut open, store);
    drop(open);
    wrong(alloc, opened)
}

/// What is wrong with the file of `main` where it is resolved.
fn named(alloc: Global, store: &mut Lying) -> Option<String> {
    let main = RefName::main(alloc).ok()?;
    let mut resolve = Resolve::new(alloc, At::Branch(main));
    let named = run_machine(&mut resolve, store);
    drop(resolve);
    wrong(alloc, named)
}

/// What is wrong with a file that a settling gets.
fn settled(alloc: Global, store: &mut Lying) -> Option<String> {
    let main = RefName::main(alloc).ok()?;
    let doubt = Doubt {
        snapshot: FIRST,
        base: Id12::INITIAL,
    };
    let mut settle = Settle::new(alloc, main, doubt);
    let settled = run_machine(&mut settle, store);
    drop(settle);
    wrong(alloc, settled)
}

/// What is wrong with the file of nobody's snapshot.
fn read(alloc: Global, store: &mut Lying) -> Option<String> {
    let mut reading = ReadSnapshot::new(alloc, NOBODYS);
    let read = run_machine(&mut reading, store);
    drop(reading);
    wrong(alloc, read)
}

/// What is wrong with a file that a walk gets.
fn walked(alloc: Global, store: &mut Lying) -> Option<String> {
    let mut chain = Chain::new(alloc, NOBODYS);
    let walked = run_machine(&mut chain, store);
    drop(chain);
    wrong(alloc, walked)
}

/// A session to write on `main`, before any of these lies holds.
fn session(alloc: Global, store: &mut Lying) -> Option<Session> {
    let mut open = opening(alloc)?;
    let session = run_machine(&mut open, store);
    drop(open);
    session.ok()
}

/// `main` names the first commit.
const BEHIND: &[Lie] = &[Lie::Bytes(
    "refs/branch.main/ref.json",
    br#"{"snapshot":"0000008000000000000G"}"#,
)];

const POLICY: Policy = Policy {
    chunks: Pick::Fail,
    drop_arrays: false,
    drop_groups: false,
};

/// A rebase that has begun.
fn rebasing(alloc: Global, session: Session) -> Option<Rebase>
    ensures { IfSome result (λ r. IsAsk (rebase_rest r)) }
{
    Rebase::start(alloc, session, POLICY).ok()
}

/// What is wrong with a file that a rebase gets.
fn rebased(alloc: Global, lies: &'static [Lie], store: &mut Lying) -> Option<String> {
    store.lie(BEHIND);
    let session = session(alloc, store)?;
    store.lie(lies);
    let mut rebase = rebasing(alloc, session)?;
    let rebased = run_machine(&mut rebase, store);
    drop(rebase);
    wrong(alloc, rebased)
}

/// The index of an array's first chunk.
fn first_index(alloc: Global) -> Option<Index> {
    let numbers = vec![in alloc; 0].ok()?;
    Some(Index::from_parts(numbers))
}

/// The machine of a read that has anything to get.
fn machine_of(getting: Getting) -> Option<GetChunk>
    ensures { IfSome result (λ machine. getting ≡ Again machine) }
{
    match getting {
        Getting::Again(machine) => Some(machine),
        Getting::Ready(session, value) => {
            drop(session);
            drop(value);
            None
        }
    }
}

/// The read of a chunk, if it has anything to get.
fn getting(session: Session, path: &Path, index: &Index) -> Option<GetChunk>
    ensures { IfSome result (λ getting. IsAsk (get_rest getting)) }
{
    machine_of(session.get_chunk(path, index).ok()?)
}

/// The path of `/x`, and the index of its first chunk.
fn first_chunk(alloc: Global) -> Option<(Path, Index)> {
    let path = Path::read(alloc, "/x").ok()?;
    Some((path, first_index(alloc)?))
}

/// The read of the first chunk of `/x`.
fn getting_first(alloc: Global, session: Session) -> Option<GetChunk>
    ensures { IfSome result (λ getting. IsAsk (get_rest getting)) }
{
    let Some((path, index)) = first_chunk(alloc) else {
        drop(session);
        return None;
    };
    let getting = getting(session, &path, &index);
    drop(path);
    drop(index);
    getting
}

/// What is wrong with a file that a read of a chunk gets.
fn got(alloc: Global, lies: &'static [Lie], store: &mut Lying) -> Option<String> {
    let session = session(alloc, store)?;
    store.lie(lies);
    let mut getting = getting_first(alloc, session)?;
    let got = run_machine(&mut getting, store);
    drop(getting);
    wrong(alloc, got)
}

/// What a row's reader tells.
fn told(alloc: Global, row: &Row, store: &mut Lying) -> Option<String> {
    match row.reader {
        Reader::Rebase => return rebased(alloc, row.lies, store),
        Reader::Chunk => return got(alloc, row.lies, store),
        _ => store.lie(row.lies),
    }
    match row.reader {
        Reader::Opening => opened(alloc, store),
        Reader::Naming => named(alloc, store),
        Reader::Doubt => settled(alloc, store),
        Reader::Snapshot => read(alloc, store),
        _ => walked(alloc, store),
    }
}

/// What a row's reader tells behind its script.
fn told_behind<R: Threads + Wait + Sync>(rt: &R, alloc: Global, row: &Row) -> Option<String> {
    let mut store = left(rt, alloc, row.script)?;
    let told = told(alloc, row, &mut store);
    drop(store);
    told
}

/// A commit.
const ONE: &str = "task a write main 0 fail\ngroup /\ncommit one\n";

/// Two commits.
const TWO: &str =
    "task a write main 0 fail\ngroup /\ncommit one\ntask b write main 0 fail\ngroup /b\ncommit two\nturns\n";

/// A commit of an array with a chunk of 513 bytes in an object, and one of an array with a chunk in its manifest.
const CHUNKS: &str =
    "task a write main 0 fail\ngroup /\narray /x uint8 1026 513 0\nfill /x 0 01\ncommit one\ntask b write main 0 fail\narray /y uint8 4 2 0\nset /y 0 0102\ncommit two\nturns\n";

/// Nobody's snapshot has the file of the first commit's one.
const OTHERS: Lie = Lie::Other(Part::Snapshots, NOBODYS, FIRST);

/// What is wrong with it.
const OF_FIRST: &str =
    "snapshots/ZW000000000000000000 WrongId(Id12([0, 0, 0, 1, 0, 0, 0, 0, 0, 0, 0, 1]))";

/// What is wrong with a reference without a member.
const MEMBER: &str = "refs/branch.main/ref.json Ref(Member)";

const ROWS: [Row; 13] = [
    Row {
        script: ONE,
        reader: Reader::Opening,
        lies: &[AWAY, OTHERS],
        wrong: OF_FIRST,
    },
    Row {
        script: ONE,
        reader: Reader::Doubt,
        lies: &[AWAY, OTHERS],
        wrong: OF_FIRST,
    },
    Row {
        script: TWO,
        reader: Reader::Rebase,
        lies: &[AWAY, OTHERS],
        wrong: OF_FIRST,
    },
    Row {
        script: ONE,
        reader: Reader::Snapshot,
        lies: &[OTHERS],
        wrong: OF_FIRST,
    },
    Row {
        script: ONE,
        reader: Reader::Chain,
        lies: &[OTHERS],
        wrong: OF_FIRST,
    },
    Row {
        script: TWO,
        reader: Reader::Rebase,
        lies: &[Lie::Other(Part::Txns, SECOND, FIRST)],
        wrong: "transactions/000000G000000000000G WrongId(Id12([0, 0, 0, 1, 0, 0, 0, 0, 0, 0, 0, 1]))",
    },
    Row {
        script: CHUNKS,
        reader: Reader::Chunk,
        lies: &[Lie::Other(Part::Manifests, MANIFEST, SECOND)],
        wrong: "manifests/0000008000000000001G WrongId(Id12([0, 0, 0, 2, 0, 0, 0, 0, 0, 0, 0, 1]))",
    },
    Row {
        script: CHUNKS,
        reader: Reader::Chunk,
        lies: &[Lie::Bytes("chunks/00000080000000000010", &[1; 512])],
        wrong: "chunks/00000080000000000010 Chunk { want: 513, got: 512 }",
    },
    Row {
        script: CHUNKS,
        reader: Reader::Chunk,
        lies: &[Lie::Bytes("chunks/00000080000000000010", &[])],
        wrong: "chunks/00000080000000000010 Chunk { want: 513, got: 0 }",
    },
    Row {
        script: ONE,
        reader: Reader::Naming,
        lies: &[NO_MEMBER],
        wrong: MEMBER,
    },
    Row {
        script: ONE,
        reader: Reader::Opening,
        lies: &[NO_MEMBER],
        wrong: MEMBER,
    },
    Row {
        script: ONE,
        reader: Reader::Doubt,
        lies: &[NO_MEMBER],
        wrong: MEMBER,
    },
    Row {
        script: TWO,
        reader: Reader::Rebase,
        lies: &[NO_MEMBER],
        wrong: MEMBER,
    },
];

#[test]
fn faults_of_files(rt: HostRuntime) -> Result<(), Fail> {
    for row in &ROWS {
        says(told_behind(&rt, rt.alloc(), row), row.wrong)?;
    }
    Ok(())
}

/// How many snapshots the walk gets that keeps what it reads, if it ends as too deep.
fn depth(alloc: Global, lies: &'static [Lie]) -> Option<u64> {
    let mut store = Lying::new(alloc, lies, 0);
    let mut chain = Chain::new(alloc, NOBODYS);
    let walked = run_machine(&mut chain, &mut store);
    drop(chain);
    let is_too_deep = matches!(&walked, Err(Refusal::TooDeep));
    drop(walked);
    let depth = store.snapshots();
    drop(store);
    is_too_deep.then_some(depth)
}

/// No run has this walk.
#[test]
fn whole_chains(rt: HostRuntime) -> Result<(), Fail> {
    holds(
        depth(rt.alloc(), &[Lie::Endless]) == Some(65_536),
        "endless",
    )?;
    holds(
        depth(rt.alloc(), &[Lie::Own]) == Some(65_536),
        "its own parent",
    )
}
