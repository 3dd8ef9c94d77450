//! Runs of scripts over stores of which planned calls fail.

use crate::heads::{Head, Planned};
use crate::journals::add_journal;
use crate::pages::Page;
use command_words::Word;
use ice_base::{ByteSource, TickClock};
use ice_ids::Draw;
use mem_store::{FaultStore, MemStore};
use play_at_once::OpenGate;
use play_script::{Script, ScriptFault};
use std::alloc::{AllocError, Global};
use std::sync::Wait;
use std::thread::Threads;
use store_api::CountingStore;
use top_call::{Ended, Status, run};

/// A store in memory of which planned calls fail.
type Store = FaultStore<MemStore<TickClock>>;

/// Whether the tasks of a script would run at once: it has more than one, and no line of turns.
pub fn is_at_once(alloc: Global, script: &[u8]) -> Result<bool, AllocError> {
    match Script::read(alloc, script) {
        Ok(script) => Ok(script.turns.is_none() && script.tasks.len() > 1),
        Err(ScriptFault::At { .. }) => Ok(false),
        Err(ScriptFault::NoMemory) => Err(AllocError),
    }
}

/// Plays a script over a store that is empty at first, and writes its report.
fn played<R: Threads + Wait + Sync>(
    rt: &R,
    alloc: Global,
    words: &[Word],
    plan: Vec<Planned>,
    script: Vec<u8>,
    page: &mut Page,
) -> Ended<Store> {
    let mut input = ByteSource::new(script, Vec::new(alloc));
    let memory = MemStore::new(alloc, TickClock::new());
    let store = FaultStore::new(memory, plan);
    run(
        rt,
        alloc,
        words,
        Draw::Count,
        &mut input,
        store,
        &OpenGate,
        page,
    )
}

/// Appends the last line of a case.
fn add_end(page: &mut Page, alloc: Global, status: Status, calls: u64) -> Result<(), AllocError> {
    page.add_counted(alloc, "== status ", status.number() as u64)?;
    page.add_counted(alloc, " calls ", calls)?;
    page.add("\n")
}

/// Appends what is told of a run besides its report.
fn add_told(
    page: &mut Page,
    alloc: Global,
    journal: bool,
    ended: &Ended<Store>,
) -> Result<(), AllocError> {
    if page.faults > 0 {
        return Err(AllocError);
    }
    if journal {
        add_journal(page, alloc, ended.store.inner())?;
    }
    add_end(page, alloc, ended.status, ended.store.operations())
}

/// Plays a case and appends what it came to.
pub fn play<R: Threads + Wait + Sync>(
    rt: &R,
    alloc: Global,
    words: &[Word],
    head: Head,
    script: &[u8],
    page: &mut Page,
) -> Result<(), AllocError> {
    let Head { journal, plan } = head;
    let script = script.to_vec(alloc)?;
    let ended = played(rt, alloc, words, plan, script, page);
    add_told(page, alloc, journal, &ended)
}
