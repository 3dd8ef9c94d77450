//! What runs of mirrors write, and how they end.

use crate::looking::{Anything, Free};
use crate::playing::{USUAL, made};
use ice_base::{ByteSink, TickClock};
use ice_ids::{Draw, Id12};
use mem_store::{FaultStore, MemStore};
use run_mirror::{MirrorEnded, MirrorStatus, run_mirror};
use std::alloc::{AllocError, Global};
use std::test::Fail;
use store_api::{Base, Key, ObjectStore, Why};

/// A store in memory.
type Memory = MemStore<TickClock>;

/// A store in memory of which planned calls fail.
type Failing = FaultStore<Memory>;

/// A store with no objects.
fn nothing(alloc: Global) -> Memory {
    MemStore::new(alloc, TickClock::new())
}

/// An output of which the first write may fail.
fn output(alloc: Global, fails: bool) -> Result<ByteSink, AllocError> {
    let mut writes = Vec::new(alloc);
    if fails {
        writes.push(0)?;
    }
    ByteSink::new(alloc, 1_000, writes)
}

/// What a mirror wrote.
fn text_of(alloc: Global, output: &ByteSink) -> Option<String> {
    String::from_utf8_lossy(alloc, output.written()).ok()
}

/// A mirror of these stores, and what it wrote.
fn mirrored<S: Base, T: Base>(
    alloc: Global,
    from: S,
    to: T,
    fails: bool,
) -> (Option<String>, MirrorEnded<S, T>) {
    match output(alloc, fails) {
        Ok(mut output) => {
            let ended = run_mirror(alloc, from, to, &mut output);
            let text = text_of(alloc, &output);
            drop(output);
            (text, ended)
        }
        Err(_) => {
            let status = MirrorStatus::NoMemory;
            (None, MirrorEnded { status, from, to })
        }
    }
}

/// Fails where there is no text, or another one than is wanted.
fn says(told: Option<String>, want: &str) -> Result<(), Fail> {
    let Some(told) = told else {
        return Err(Fail::new("nothing was told"));
    };
    if told.as_str() == want {
        drop(told);
        Ok(())
    } else {
        Err(Fail::new(told))
    }
}

/// What a first mirror of the usual day writes, and what a second one of the same stores does.
fn twice(alloc: Global) -> (Option<String>, Option<String>) {
    let mut source = nothing(alloc);
    made(alloc, USUAL, Draw::Count, &mut source);
    let (first, ended) = mirrored(alloc, source, nothing(alloc), false);
    let MirrorEnded {
        status: _,
        from,
        to,
    } = ended;
    let (second, ended) = mirrored(alloc, from, to, false);
    drop(ended);
    (first, second)
}

#[test]
fn first_and_second_mirror(rt: HostRuntime) -> Result<(), Fail> {
    let (first, second) = twice(rt.alloc());
    says(
        first,
        "branch main 000000R0000000000020 put\ntag v1 000000R0000000000020 put\nmirrored 4 3 2 3\n",
    )?;
    says(
        second,
        "branch main 000000R0000000000020 kept\ntag v1 000000R0000000000020 kept\nmirrored 0 0 0 0\n",
    )
}

/// What goes wrong, and how a mirror ends then.
struct Case {
    /// The first operation of the source fails.
    from: bool,
    /// That of the target does.
    to: bool,
    /// The first write does.
    write: bool,
    /// The target has other bytes under a key of the source.
    other: bool,
    status: MirrorStatus,
    text: &'static str,
}

const CASES: [Case; 7] = [
    Case {
        from: true,
        to: false,
        write: false,
        other: false,
        status: MirrorStatus::StoreFault,
        text: "mirror refused storefault\n",
    },
    Case {
        from: false,
        to: true,
        write: false,
        other: false,
        status: MirrorStatus::StoreFault,
        text: "mirror refused targetfault\n",
    },
    Case {
        from: false,
        to: true,
        write: true,
        other: true,
        status: MirrorStatus::StoreFault,
        text: "",
    },
    Case {
        from: false,
        to: false,
        write: true,
        other: false,
        status: MirrorStatus::WriteFault,
        text: "",
    },
    Case {
        from: false,
        to: false,
        write: true,
        other: true,
        status: MirrorStatus::WriteFault,
        text: "",
    },
    Case {
        from: false,
        to: false,
        write: false,
        other: true,
        status: MirrorStatus::Refused,
        text: "mirror refused differs snapshots/1CECHNKREP0F1RSTCMT0\n",
    },
    Case {
        from: false,
        to: false,
        write: false,
        other: false,
        status: MirrorStatus::Done,
        text: "branch main 1CECHNKREP0F1RSTCMT0 put\nmirrored 1 0 0 0\n",
    },
];

/// Puts bytes that are no snapshot under the initial one's key.
fn put_other<S: Free>(store: &mut S) {
    let key = Key::Snapshot(Id12::INITIAL);
    let _ = ObjectStore::<Anything>::put_new(store, &key, b"other", Why::Set);
}

/// The first call fails, or none does.
fn plan(alloc: Global, fails: bool) -> Result<Vec<(u64, bool)>, AllocError> {
    let mut plan = Vec::new(alloc);
    if fails {
        plan.push((0, false))?;
    }
    Ok(plan)
}

/// A store of which the next operation may fail.
fn failing(alloc: Global, memory: Memory, fails: bool) -> Option<Failing> {
    match plan(alloc, fails) {
        Ok(plan) => Some(FaultStore::new(memory, plan)),
        Err(_) => {
            drop(memory);
            None
        }
    }
}

/// The source of a case: a new repository.
fn source(alloc: Global, case: &Case) -> Option<Failing> {
    let mut memory = nothing(alloc);
    made(alloc, "", Draw::Count, &mut memory);
    failing(alloc, memory, case.from)
}

/// The target of a case.
fn target(alloc: Global, case: &Case) -> Option<Failing> {
    let mut memory = nothing(alloc);
    if case.other {
        put_other(&mut memory);
    }
    failing(alloc, memory, case.to)
}

/// What a mirror of these stores writes, where it ends as it should.
fn written(alloc: Global, case: &Case, from: Failing, to: Failing) -> Option<String> {
    let (text, ended) = mirrored(alloc, from, to, case.write);
    let is = ended.status == case.status;
    drop(ended);
    if is { text } else { None }
}

/// What the mirror of a case writes.
fn told(alloc: Global, case: &Case) -> Option<String> {
    let from = source(alloc, case)?;
    match target(alloc, case) {
        Some(to) => written(alloc, case, from, to),
        None => {
            drop(from);
            None
        }
    }
}

/// A failure of either store comes first, then a failed write, then another refusal.
#[test]
fn ends_in_order(rt: HostRuntime) -> Result<(), Fail> {
    for case in &CASES {
        says(told(rt.alloc(), case), case.text)?;
    }
    Ok(())
}
