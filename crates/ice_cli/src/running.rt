//! Runs of the program over a store.

ghost use Rattle.std.specs.Prelude.{◌≡◌, true};
ghost use Rattle.store_api.specs.Journal.{IsGoodJournal};
ghost use Rattle.ice_cli.specs.Ending.{DidWords, EndsInMemory};

use crate::progress::Progress;
use crate::telling::end_with_words;
use command_words::{Word, shows_progress};
use ice_base::{StdSink, StdSource, TickClock};
use ice_ids::Draw;
use mem_store::MemStore;
use std::process::ExitCode;
use std::sync::Wait;
use std::thread::Threads;
use store_api::Counting;
use top_call::{Ended, run};

/// Does what the words say over this store, with the system's input and output.
pub fn run_over<
    R: Input + Print + Eprint + AllocGlobal + Threads + Wait + Sync + Copy + Drop,
    S: Counting + Send + Drop,
>(rt: &R, words: &[Word], draw: Draw, store: S) -> Ended<S>
    requires good { S.tells ≡ true → IsGoodJournal (S.view store).seen }
    ensures { DidWords draw words.now (S.view store) result.status }
{
    let mut input = StdSource::new(*rt);
    let mut output = StdSink::new(*rt);
    let gate = Progress::new(*rt, shows_progress(words));
    run(
        rt,
        rt.alloc(),
        words,
        draw,
        &mut input,
        store,
        &gate,
        &mut output,
    )
}

/// Does what the words say over an empty store in memory.
pub fn in_memory<R: Input + Print + Eprint + AllocGlobal + Threads + Wait + Sync + Copy + Drop>(
    rt: &R,
    words: &[Word],
) -> ExitCode
    ensures { EndsInMemory words.now result }
{
    let store = MemStore::new(rt.alloc(), TickClock::new());
    let ended = run_over(rt, words, Draw::Count, store);
    end_with_words(rt, words, &ended.status)
}
