//! Runs over a store that answers anything: each reading path, with bytes and listings that no store with these objects has.
//! What bytes a file may have is shown by rows of `ice_show`.

use crate::lying::{Lie, Lying};
use crate::playing::{Asked, report, script};
use ice_ids::{Draw, Id12};
use play_at_once::OpenGate;
use std::alloc::Global;
use std::sync::Wait;
use std::test::Fail;
use std::thread::Threads;
use store_api::Part;
use test_ends::{holds, says};
use top_call::{Ended, run};

/// A script, the lies of its store and the call from which on they hold, and the report.
struct Row {
    script: &'static str,
    from: u64,
    lies: &'static [Lie],
    told: &'static str,
}

/// The run of a row's script.
fn perform<R: Threads + Wait + Sync>(
    rt: &R,
    alloc: Global,
    asked: &mut Asked,
    store: Lying,
) -> Ended<Lying> {
    run(
        rt,
        alloc,
        asked.words.as_slice(),
        Draw::Count,
        &mut asked.input,
        store,
        &OpenGate,
        &mut asked.output,
    )
}

/// What a run of this script leaves in a store without lies.
pub(crate) fn left<R: Threads + Wait + Sync>(rt: &R, alloc: Global, text: &str) -> Option<Lying> {
    let mut asked = script(alloc, text)?;
    let store = perform(rt, alloc, &mut asked, Lying::new(alloc, &[], 0)).store;
    drop(asked);
    Some(store)
}

/// What a row's run leaves in its store.
fn lied<R: Threads + Wait + Sync>(rt: &R, alloc: Global, row: &Row, asked: &mut Asked) -> Lying {
    perform(rt, alloc, asked, Lying::new(alloc, row.lies, row.from)).store
}

/// What a row's run tells, and how many gets of snapshots it makes.
fn counted<R: Threads + Wait + Sync>(rt: &R, alloc: Global, row: &Row) -> (Option<String>, u64) {
    let Some(mut asked) = script(alloc, row.script) else {
        return (None, 0);
    };
    let store = lied(rt, alloc, row, &mut asked);
    let gets = store.snapshots();
    drop(store);
    let report = report(alloc, &asked);
    drop(asked);
    (report, gets)
}

/// What a row's run tells.
fn told<R: Threads + Wait + Sync>(rt: &R, alloc: Global, row: &Row) -> Option<String> {
    counted(rt, alloc, row).0
}

/// Whether each row's run tells what is wanted.
fn are_told<R: Threads + Wait + Sync>(rt: &R, alloc: Global, rows: &[Row]) -> Result<(), Fail> {
    for row in rows {
        says(told(rt, alloc, row), row.told)?;
    }
    Ok(())
}

/// Whether each row's run tells what is wanted, and makes so many gets of snapshots.
fn are_counted<R: Threads + Wait + Sync>(
    rt: &R,
    alloc: Global,
    rows: &[(Row, u64)],
) -> Result<(), Fail> {
    for (row, want) in rows {
        let (told, gets) = counted(rt, alloc, row);
        says(told, row.told)?;
        holds(gets == *want, "gets of snapshots")?;
    }
    Ok(())
}

/// The snapshots of the first two commits of a group, by the first two clients.
pub(crate) const FIRST: Id12 = Id12([0, 0, 0, 1, 0, 0, 0, 0, 0, 0, 0, 1]);

pub(crate) const SECOND: Id12 = Id12([0, 0, 0, 2, 0, 0, 0, 0, 0, 0, 0, 1]);

/// The manifest of a chunk that is an object.
pub(crate) const MANIFEST: Id12 = Id12([0, 0, 0, 1, 0, 0, 0, 0, 0, 0, 0, 3]);

/// A snapshot of no run: its text is `ZW000000000000000000`.
pub(crate) const NOBODYS: Id12 = Id12([255, 0, 0, 0, 0, 0, 0, 0, 0, 0, 0, 0]);

/// A commit, and a task that reads it.
const READ: &str =
    "task a write main 0 fail\ngroup /\ncommit one\ntask r read branch main\nlist /\nturns\n";

/// Three commits, the last of which is carried over the second one.
const CARRIED: &str =
    "task a write main 0 fail\ngroup /\ncommit one\ntask b write main 0 fail\ngroup /b\ncommit two\ntask c write main 1 fail\ngroup /c\ncommit three\nturns a*5 c*2 b*5\n";

/// A chunk in an object and one in a manifest, which are read.
const CHUNKS: &str =
    "task a write main 0 fail\ngroup /\narray /x uint8 1026 513 0\nfill /x 0 01\ncommit one\ntask b write main 0 fail\narray /y uint8 4 2 0\nset /y 0 0102\ncommit two\ntask r read branch main\nchunk /x 0\nturns\n";

/// The same chunks. Then one more of the first manifest's array is committed, or a collection reads all.
const MERGED: &str =
    "task a write main 0 fail\ngroup /\narray /x uint8 1026 513 0\nfill /x 0 01\ncommit one\ntask b write main 0 fail\narray /y uint8 4 2 0\nset /y 0 0102\ncommit two\ntask d write main 0 fail\nfill /x 1 02\ncommit three\nturns\n";

const MARKED: &str =
    "task a write main 0 fail\ngroup /\narray /x uint8 1026 513 0\nfill /x 0 01\ncommit one\ntask b write main 0 fail\narray /y uint8 4 2 0\nset /y 0 0102\ncommit two\ntask c collect 0\nturns\n";

/// The log of nobody's snapshot.
const LOG: &str = "task r refs\nlog id ZW000000000000000000\n";

/// Nobody's snapshot has the file of the initial one.
const NOT_NOBODYS: Lie = Lie::Other(Part::Snapshots, NOBODYS, Id12::INITIAL);

/// Bytes of chunks, one too few and one too many.
const FEW: &[u8] = &[1; 512];

const MANY: &[u8] = &[1; 514];

/// Objects under ids that aren't their own, and of other lengths.
const FILES: [Row; 13] = [
    Row {
        script: READ,
        from: 0,
        lies: &[Lie::Other(Part::Snapshots, FIRST, Id12::INITIAL)],
        told: "a committed 0000008000000000000G\nr refused 4 badfile snapshots/0000008000000000000G\nbranch main 0000008000000000000G\n",
    },
    Row {
        script: CARRIED,
        from: 0,
        lies: &[Lie::Other(Part::Snapshots, SECOND, FIRST)],
        told: "a committed 0000008000000000000G\nb committed 000000G000000000000G\nc refused 9 badfile snapshots/000000G000000000000G\nbranch main 000000G000000000000G\n",
    },
    Row {
        script: CARRIED,
        from: 0,
        lies: &[Lie::Other(Part::Txns, SECOND, FIRST)],
        told: "a committed 0000008000000000000G\nb committed 000000G000000000000G\nc refused 9 badfile transactions/000000G000000000000G\nbranch main 000000G000000000000G\n",
    },
    Row {
        script: CHUNKS,
        from: 0,
        lies: &[Lie::Other(Part::Manifests, MANIFEST, SECOND)],
        told: "a committed 00000080000000000020\nb committed 000000G0000000000010\nr refused 11 badfile manifests/0000008000000000001G\nbranch main 000000G0000000000010\n",
    },
    Row {
        script: CHUNKS,
        from: 0,
        lies: &[Lie::Bytes("chunks/00000080000000000010", FEW)],
        told: "a committed 00000080000000000020\nb committed 000000G0000000000010\nr refused 11 badfile chunks/00000080000000000010\nbranch main 000000G0000000000010\n",
    },
    Row {
        script: LOG,
        from: 0,
        lies: &[NOT_NOBODYS],
        told: "r refused 2 badfile snapshots/ZW000000000000000000\nbranch main 1CECHNKREP0F1RSTCMT0\n",
    },
    Row {
        script: "task r refs\nbranch side id ZW000000000000000000\n",
        from: 0,
        lies: &[NOT_NOBODYS],
        told: "r refused 2 badfile snapshots/ZW000000000000000000\nbranch main 1CECHNKREP0F1RSTCMT0\n",
    },
    Row {
        script: "task r refs\ntag v1 id ZW000000000000000000\n",
        from: 0,
        lies: &[NOT_NOBODYS],
        told: "r refused 2 badfile snapshots/ZW000000000000000000\nbranch main 1CECHNKREP0F1RSTCMT0\n",
    },
    Row {
        script: "task r refs\nreset main id ZW000000000000000000\n",
        from: 0,
        lies: &[NOT_NOBODYS],
        told: "r refused 2 badfile snapshots/ZW000000000000000000\nbranch main 1CECHNKREP0F1RSTCMT0\n",
    },
    Row {
        script: MERGED,
        from: 0,
        lies: &[Lie::Other(Part::Manifests, MANIFEST, SECOND)],
        told: "a committed 00000080000000000020\nb committed 000000G0000000000010\nd refused 12 badfile manifests/0000008000000000001G\nbranch main 000000G0000000000010\n",
    },
    Row {
        script: MARKED,
        from: 0,
        lies: &[Lie::Other(Part::Manifests, MANIFEST, SECOND)],
        told: "a committed 00000080000000000020\nb committed 000000G0000000000010\nc refused 10 badfile manifests/0000008000000000001G\nbranch main 000000G0000000000010\n",
    },
    Row {
        script: COLLECT,
        from: 0,
        lies: &[Lie::Other(Part::Snapshots, FIRST, Id12::INITIAL)],
        told: "a committed 0000008000000000000G\nb refused 6 conflict 1 10\nc refused 7 badfile snapshots/0000008000000000000G\nbranch main 0000008000000000000G\n",
    },
    Row {
        script: EXPIRE,
        from: 0,
        lies: &[Lie::Other(Part::Snapshots, SECOND, FIRST)],
        told: "a committed 0000008000000000000G\nb committed 000000G000000000000G\ne refused 7 badfile snapshots/000000G000000000000G\nbranch main 000000G000000000000G\n",
    },
];

#[test]
fn other_files(rt: HostRuntime) -> Result<(), Fail> {
    are_told(&rt, rt.alloc(), &FILES)
}

/// A chunk's object with no lie, and with one byte more than the manifest says.
const WHOLE: Row = Row {
    script: CHUNKS,
    from: 0,
    lies: &[],
    told: "",
};

const LONGER: Row = Row {
    script: CHUNKS,
    from: 0,
    lies: &[Lie::Bytes("chunks/00000080000000000010", MANY)],
    told: "",
};

/// Of a longer object the part is read that the manifest names.
#[test]
fn a_longer_object(rt: HostRuntime) -> Result<(), Fail> {
    match told(&rt, rt.alloc(), &WHOLE) {
        Some(whole) => {
            let alike = says(told(&rt, rt.alloc(), &LONGER), whole.as_str());
            drop(whole);
            alike
        }
        None => holds(false, "nothing was told"),
    }
}

/// A commit whose put over of the branch is call 6.
const COMMIT: &str = "task a write main 0 fail\ngroup /\ncommit one\n";

/// The branch has a reference without a member.
pub(crate) const NO_MEMBER: Lie = Lie::Bytes("refs/branch.main/ref.json", b"{}");

/// A tag has such a reference.
const NO_TAG: Lie = Lie::Bytes("refs/tag.v1/ref.json", b"{}");

/// The branch names a snapshot whose id begins with 255.
pub(crate) const AWAY: Lie = Lie::Bytes(
    "refs/branch.main/ref.json",
    br#"{"snapshot":"ZW000000000000000000"}"#,
);

/// References without a member `snapshot`.
const REFS: [Row; 14] = [
    Row {
        script: "task r read branch main\nlist /\n",
        from: 0,
        lies: &[NO_MEMBER],
        told: "r refused 1 badfile refs/branch.main/ref.json\nrefs refused badfile refs/branch.main/ref.json\n",
    },
    Row {
        script: "task r refs\nlog branch main\n",
        from: 0,
        lies: &[NO_MEMBER],
        told: "r refused 2 badfile refs/branch.main/ref.json\nrefs refused badfile refs/branch.main/ref.json\n",
    },
    Row {
        script: "task s refs\ntag v1 branch main\ntask r read tag v1\nlist /\nturns\n",
        from: 0,
        lies: &[NO_TAG],
        told: "s done\nr refused 3 badfile refs/tag.v1/ref.json\nrefs refused badfile refs/tag.v1/ref.json\n",
    },
    Row {
        script: COMMIT,
        from: 6,
        lies: &[Lie::Fails, NO_MEMBER],
        told: "a indoubt 0000008000000000000G unsettled badfile refs/branch.main/ref.json\nrefs refused badfile refs/branch.main/ref.json\n",
    },
    Row {
        script: COMMIT,
        from: 6,
        lies: &[
            Lie::Fails,
            AWAY,
            Lie::Other(Part::Snapshots, NOBODYS, Id12::INITIAL),
        ],
        told: "a indoubt 0000008000000000000G unsettled badfile snapshots/ZW000000000000000000\nbranch main ZW000000000000000000\n",
    },
    Row {
        script: "task c collect 0\n",
        from: 0,
        lies: &[NO_MEMBER],
        told: "c refused 1 badfile refs/branch.main/ref.json\nrefs refused badfile refs/branch.main/ref.json\n",
    },
    Row {
        script: "task e expire 0 keep\n",
        from: 0,
        lies: &[NO_MEMBER],
        told: "e refused 1 badfile refs/branch.main/ref.json\nrefs refused badfile refs/branch.main/ref.json\n",
    },
    Row {
        script: CARRIED,
        from: 17,
        lies: &[NO_MEMBER],
        told: "a committed 0000008000000000000G\nb committed 000000G000000000000G\nc refused 9 badfile refs/branch.main/ref.json\nrefs refused badfile refs/branch.main/ref.json\n",
    },
    Row {
        script: "task r refs\nbranch side branch main\n",
        from: 0,
        lies: &[NO_MEMBER],
        told: "r refused 2 badfile refs/branch.main/ref.json\nrefs refused badfile refs/branch.main/ref.json\n",
    },
    Row {
        script: "task r refs\nreset main id 1CECHNKREP0F1RSTCMT0\n",
        from: 0,
        lies: &[NO_MEMBER],
        told: "r refused 2 badfile refs/branch.main/ref.json\nrefs refused badfile refs/branch.main/ref.json\n",
    },
    Row {
        script: "task r refs\nunbranch main\n",
        from: 0,
        lies: &[NO_MEMBER],
        told: "r refused 2 badfile refs/branch.main/ref.json\nrefs refused badfile refs/branch.main/ref.json\n",
    },
    Row {
        script: "task s refs\ntag v1 branch main\nuntag v1\n",
        from: 0,
        lies: &[NO_TAG],
        told: "s refused 3 badfile refs/tag.v1/ref.json\nrefs refused badfile refs/tag.v1/ref.json\n",
    },
    Row {
        script: "task s refs\ntag v1 branch main\ntask c collect 0\nturns\n",
        from: 0,
        lies: &[NO_TAG],
        told: "s done\nc refused 3 badfile refs/tag.v1/ref.json\nrefs refused badfile refs/tag.v1/ref.json\n",
    },
    Row {
        script: "task s refs\ntag v1 branch main\ntask e expire 0 keep\nturns\n",
        from: 0,
        lies: &[NO_TAG],
        told: "s done\ne 3 branch main kept\ne refused 3 badfile refs/tag.v1/ref.json\nrefs refused badfile refs/tag.v1/ref.json\n",
    },
];

#[test]
fn other_references(rt: HostRuntime) -> Result<(), Fail> {
    are_told(&rt, rt.alloc(), &REFS)
}

/// Two branches.
const BRANCHES: &str = "task r refs\nbranch side branch main\n";

/// Two commits, one of which is lost, and a collection of what it left.
const COLLECT: &str =
    "task a write main 0 fail\ngroup /\ncommit one\ntask b write main 0 fail\ngroup /\ncommit two\ntask c collect 12\nturns a b a b a b a b a b\n";

/// Two commits, and an expiry that cuts between them.
const EXPIRE: &str =
    "task a write main 0 fail\ngroup /\ncommit one\ntask b write main 0 fail\ngroup /b\ncommit two\ntask e expire 9 keep\nturns\n";

/// What is told of a collection and a lost commit.
const COLLECTED: &str =
    "a committed 0000008000000000000G\nb refused 6 conflict 1 10\nc collected 1 1 0 0\nbranch main 0000008000000000000G\n";

/// Two commits of a chunk in an object, the second of which is lost, and a collection of what it left.
const SWEPT: &str =
    "task a write main 0 fail\ngroup /\narray /x uint8 1026 513 0\nfill /x 0 01\ncommit one\ntask b write main 0 fail\ngroup /\narray /x uint8 1026 513 0\nfill /x 0 02\ncommit two\ntask c collect 16\nturns b*2 a*7 b*5\n";

/// What is told of them.
const OF_SWEPT: &str =
    "a committed 00000080000000000020\nb refused 10 conflict 1 10\nc collected 1 1 1 1\nbranch main 00000080000000000020\n";

/// Listings with keys of other parts, the same keys twice, and keys out of order.
const LISTINGS: [Row; 15] = [
    Row {
        script: "",
        from: 0,
        lies: &[Lie::Listing(Part::Branches, &[Part::Branches, Part::Branches])],
        told: "branch main 1CECHNKREP0F1RSTCMT0\nbranch main 1CECHNKREP0F1RSTCMT0\n",
    },
    Row {
        script: "",
        from: 0,
        lies: &[Lie::Listing(Part::Branches, &[Part::Snapshots])],
        told: "refs refused badfile snapshots/1CECHNKREP0F1RSTCMT0\n",
    },
    Row {
        script: "",
        from: 0,
        lies: &[Lie::Listing(Part::Tags, &[Part::Branches])],
        told: "branch main 1CECHNKREP0F1RSTCMT0\nbranch main 1CECHNKREP0F1RSTCMT0\n",
    },
    Row {
        script: BRANCHES,
        from: 0,
        lies: &[Lie::Backwards(Part::Branches)],
        told: "r done\nbranch side 1CECHNKREP0F1RSTCMT0\nbranch main 1CECHNKREP0F1RSTCMT0\n",
    },
    Row {
        script: COLLECT,
        from: 0,
        lies: &[
            Lie::Listing(Part::Snapshots, &[Part::Snapshots, Part::Snapshots]),
            Lie::Listing(Part::Txns, &[Part::Txns, Part::Txns]),
        ],
        told: COLLECTED,
    },
    Row {
        script: COLLECT,
        from: 0,
        lies: &[Lie::Backwards(Part::Snapshots), Lie::Backwards(Part::Txns)],
        told: COLLECTED,
    },
    Row {
        script: COLLECT,
        from: 0,
        lies: &[Lie::Listing(Part::Snapshots, &[Part::Branches])],
        told: "a committed 0000008000000000000G\nb refused 6 conflict 1 10\nc collected 0 1 0 0\nbranch main 0000008000000000000G\n",
    },
    Row {
        script: COLLECT,
        from: 0,
        lies: &[Lie::Listing(Part::Branches, &[Part::Snapshots])],
        told: "a committed 0000008000000000000G\nb refused 6 conflict 1 10\nc refused 7 badfile snapshots/0000008000000000000G\nrefs refused badfile snapshots/0000008000000000000G\n",
    },
    Row {
        script: COLLECT,
        from: 0,
        lies: &[Lie::Listing(Part::Branches, &[Part::Branches, Part::Branches])],
        told: "a committed 0000008000000000000G\nb refused 6 conflict 1 10\nc collected 1 1 0 0\nbranch main 0000008000000000000G\nbranch main 0000008000000000000G\n",
    },
    Row {
        script: EXPIRE,
        from: 0,
        lies: &[Lie::Listing(Part::Branches, &[Part::Branches, Part::Branches])],
        told: "a committed 0000008000000000000G\nb committed 000000G000000000000G\ne 7 branch main cut 000000G000000000000G\ne 7 branch main kept\ne done\nbranch main 000000G000000000000G\nbranch main 000000G000000000000G\n",
    },
    Row {
        script: EXPIRE,
        from: 0,
        lies: &[Lie::Listing(Part::Branches, &[Part::Snapshots])],
        told: "a committed 0000008000000000000G\nb committed 000000G000000000000G\ne refused 7 badfile snapshots/0000008000000000000G\nrefs refused badfile snapshots/0000008000000000000G\n",
    },
    Row {
        script: "task r refs\nbranch side branch main\ntask e expire 0 keep\nturns\n",
        from: 0,
        lies: &[Lie::Backwards(Part::Branches)],
        told: "r done\ne 3 branch side kept\ne 3 branch main kept\ne done\nbranch side 1CECHNKREP0F1RSTCMT0\nbranch main 1CECHNKREP0F1RSTCMT0\n",
    },
    Row {
        script: SWEPT,
        from: 0,
        lies: &[
            Lie::Listing(Part::Snapshots, &[Part::Snapshots, Part::Snapshots]),
            Lie::Listing(Part::Txns, &[Part::Txns, Part::Txns]),
            Lie::Listing(Part::Manifests, &[Part::Manifests, Part::Manifests]),
            Lie::Listing(Part::Chunks, &[Part::Chunks, Part::Chunks]),
        ],
        told: OF_SWEPT,
    },
    Row {
        script: SWEPT,
        from: 0,
        lies: &[
            Lie::Listing(Part::Snapshots, &[Part::Chunks, Part::Manifests]),
            Lie::Listing(Part::Txns, &[Part::Snapshots]),
            Lie::Listing(Part::Manifests, &[Part::Branches, Part::Txns]),
            Lie::Listing(Part::Chunks, &[Part::Leases]),
        ],
        told: OF_SWEPT,
    },
    Row {
        script: SWEPT,
        from: 0,
        lies: &[
            Lie::Backwards(Part::Manifests),
            Lie::Backwards(Part::Chunks),
        ],
        told: OF_SWEPT,
    },
];

#[test]
fn other_listings(rt: HostRuntime) -> Result<(), Fail> {
    are_told(&rt, rt.alloc(), &LISTINGS)
}

/// A tag names a snapshot that isn't there.
const TAG_AWAY: Lie = Lie::Bytes(
    "refs/tag.v1/ref.json",
    br#"{"snapshot":"ZW000000000000000000"}"#,
);

/// Listings of leases with keys of other parts: what these name is kept, what isn't there is passed over, and what is no
/// reference refuses.
const LEASES: [Row; 3] = [
    Row {
        script: COLLECT,
        from: 0,
        lies: &[Lie::Listing(Part::Leases, &[Part::Branches])],
        told: COLLECTED,
    },
    Row {
        script: COLLECT,
        from: 0,
        lies: &[Lie::Listing(Part::Leases, &[Part::Snapshots])],
        told: "a committed 0000008000000000000G\nb refused 6 conflict 1 10\nc refused 7 badfile snapshots/0000008000000000000G\nbranch main 0000008000000000000G\n",
    },
    Row {
        script: "task s refs\ntag v1 branch main\ntask c collect 0\nturns\n",
        from: 0,
        lies: &[
            Lie::Listing(Part::Tags, &[]),
            Lie::Listing(Part::Leases, &[Part::Tags]),
            TAG_AWAY,
        ],
        told: "s done\nc collected 0 0 0 0\nbranch main 1CECHNKREP0F1RSTCMT0\n",
    },
];

#[test]
fn other_leases(rt: HostRuntime) -> Result<(), Fail> {
    are_told(&rt, rt.alloc(), &LEASES)
}

/// A branch that is set to such a snapshot beneath a session, which is to be carried over it.
const BENEATH: &str =
    "task a write main 1 fail\ngroup /\ncommit one\ntask r refs\nreset main id ZW000000000000000000\nturns a*2 r*9\n";

/// A branch at such a snapshot, and a collection or an expiry.
const KEEPS: &str = "task r refs\nbranch side id ZW000000000000000000\ntask c collect 0\nturns\n";

const CUTS: &str =
    "task r refs\nbranch side id ZW000000000000000000\ntask e expire 0 keep\nturns\n";

/// The parent of nobody's snapshot.
const NEXT: Id12 = Id12([255, 0, 0, 0, 0, 0, 0, 0, 0, 0, 0, 1]);

/// It has the file of the initial snapshot.
const NEXT_IS_ANOTHER: Lie = Lie::Other(Part::Snapshots, NEXT, Id12::INITIAL);

const BELOW: &[Lie] = &[NEXT_IS_ANOTHER, Lie::Endless];

/// A log whose chain has no first snapshot: each parent has the next id, or is the snapshot itself; or the second one has
/// another one's file. Beside each row stands how many gets of snapshots its run makes.
const LOGS: [(Row, u64); 3] = [
    (
        Row {
            script: LOG,
            from: 0,
            lies: &[Lie::Endless],
            told: "r refused 2 toodeep\nbranch main 1CECHNKREP0F1RSTCMT0\n",
        },
        65_536,
    ),
    (
        Row {
            script: LOG,
            from: 0,
            lies: &[Lie::Own],
            told: "r refused 2 toodeep\nbranch main 1CECHNKREP0F1RSTCMT0\n",
        },
        65_536,
    ),
    (
        Row {
            script: LOG,
            from: 0,
            lies: BELOW,
            told: "r refused 2 badfile snapshots/ZW00000000000000000G\nbranch main 1CECHNKREP0F1RSTCMT0\n",
        },
        2,
    ),
];

#[test]
fn logs_without_end(rt: HostRuntime) -> Result<(), Fail> {
    are_counted(&rt, rt.alloc(), &LOGS)
}

/// The same beneath a session that is to be carried over it.
const REBASES: [(Row, u64); 3] = [
    (
        Row {
            script: BENEATH,
            from: 0,
            lies: &[Lie::Endless],
            told: "a refused 3 toodeep\nr done\nbranch main ZW000000000000000000\n",
        },
        65_538,
    ),
    (
        Row {
            script: BENEATH,
            from: 0,
            lies: &[Lie::Own],
            told: "a refused 3 toodeep\nr done\nbranch main ZW000000000000000000\n",
        },
        65_538,
    ),
    (
        Row {
            script: BENEATH,
            from: 0,
            lies: BELOW,
            told: "a refused 3 badfile snapshots/ZW00000000000000000G\nr done\nbranch main ZW000000000000000000\n",
        },
        4,
    ),
];

#[test]
fn rebases_without_end(rt: HostRuntime) -> Result<(), Fail> {
    are_counted(&rt, rt.alloc(), &REBASES)
}

/// The same where a doubt is settled.
const DOUBTS: [(Row, u64); 3] = [
    (
        Row {
            script: COMMIT,
            from: 6,
            lies: &[Lie::Fails, AWAY, Lie::Endless],
            told: "a indoubt 0000008000000000000G unsettled toodeep\nbranch main ZW000000000000000000\n",
        },
        65_537,
    ),
    (
        Row {
            script: COMMIT,
            from: 6,
            lies: &[Lie::Fails, AWAY, Lie::Own],
            told: "a indoubt 0000008000000000000G unsettled toodeep\nbranch main ZW000000000000000000\n",
        },
        65_537,
    ),
    (
        Row {
            script: COMMIT,
            from: 6,
            lies: &[Lie::Fails, AWAY, NEXT_IS_ANOTHER, Lie::Endless],
            told: "a indoubt 0000008000000000000G unsettled badfile snapshots/ZW00000000000000000G\nbranch main ZW000000000000000000\n",
        },
        3,
    ),
];

#[test]
fn doubts_without_end(rt: HostRuntime) -> Result<(), Fail> {
    are_counted(&rt, rt.alloc(), &DOUBTS)
}

/// The same where a branch reaches it, and a collection marks it: it reads each snapshot once.
const COLLECTIONS: [(Row, u64); 3] = [
    (
        Row {
            script: KEEPS,
            from: 0,
            lies: &[Lie::Endless],
            told: "r done\nc refused 3 toodeep\nbranch main 1CECHNKREP0F1RSTCMT0\nbranch side ZW000000000000000000\n",
        },
        65_537,
    ),
    (
        Row {
            script: KEEPS,
            from: 0,
            lies: &[Lie::Own],
            told: "r done\nc collected 0 0 0 0\nbranch main 1CECHNKREP0F1RSTCMT0\nbranch side ZW000000000000000000\n",
        },
        3,
    ),
    (
        Row {
            script: KEEPS,
            from: 0,
            lies: BELOW,
            told: "r done\nc refused 3 badfile snapshots/ZW00000000000000000G\nbranch main 1CECHNKREP0F1RSTCMT0\nbranch side ZW000000000000000000\n",
        },
        4,
    ),
];

#[test]
fn collections_without_end(rt: HostRuntime) -> Result<(), Fail> {
    are_counted(&rt, rt.alloc(), &COLLECTIONS)
}

/// The same where an expiry looks down a branch.
const EXPIRIES: [(Row, u64); 3] = [
    (
        Row {
            script: CUTS,
            from: 0,
            lies: &[Lie::Endless],
            told: "r done\ne 3 branch main kept\ne refused 3 toodeep\nbranch main 1CECHNKREP0F1RSTCMT0\nbranch side ZW000000000000000000\n",
        },
        65_538,
    ),
    (
        Row {
            script: CUTS,
            from: 0,
            lies: &[Lie::Own],
            told: "r done\ne 3 branch main kept\ne refused 3 toodeep\nbranch main 1CECHNKREP0F1RSTCMT0\nbranch side ZW000000000000000000\n",
        },
        65_538,
    ),
    (
        Row {
            script: CUTS,
            from: 0,
            lies: BELOW,
            told: "r done\ne 3 branch main kept\ne refused 3 badfile snapshots/ZW00000000000000000G\nbranch main 1CECHNKREP0F1RSTCMT0\nbranch side ZW000000000000000000\n",
        },
        4,
    ),
];

#[test]
fn expiries_without_end(rt: HostRuntime) -> Result<(), Fail> {
    are_counted(&rt, rt.alloc(), &EXPIRIES)
}
