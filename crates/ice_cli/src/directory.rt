//! Runs of the program over a directory.

ghost use Rattle.std.specs.Prelude.{◌≡◌, ◌⊎◌};
ghost use Rattle.std.specs.Process.{exit_status};
ghost use Rattle.ice_ids.specs.declared.drawing.Draw.TheVariants.{Stream};
ghost use Rattle.ice_cli.specs.Ending.{EndsByRun, EndsInDirectory, EndsUnopened, IsSilent};

use crate::running::run_over;
use crate::system_store::SystemStore;
use command_words::Word;
use dir_store::{OpenFault, Opened, open};
use ice_ids::Draw;
use moments::WallClock;
use std::process::ExitCode;
use std::sync::Wait;
use std::thread::Threads;
use top_call::{Status, end};

/// Says on standard error that there is no store to work on, at which path and why, and gives the exit code.
pub fn end_without_store<R: Eprint>(rt: &R, path: &str, fault: OpenFault) -> ExitCode
    ensures { exit_status result ≡ 8 }
{
    let _ = eprintln!(rt; "icerepo: no store: {path:?}: {fault}");
    ExitCode::from(8)
}

/// Says on standard error that the branch `main` isn't there, where that is so of a used repository.
pub fn tell_loss<R: Eprint>(rt: &R, main_is_lost: bool) {
    if main_is_lost {
        let _ = eprintln!(rt;
            "icerepo: the branch main isn't there, but other refs or snapshots are"
        );
    }
}

/// Says on standard error which call on files failed first, if one did.
pub fn tell_fault<R: Eprint>(rt: &R, store: &SystemStore) {
    if let Some(first) = store.first_fault() {
        let _ = eprintln!(rt; "icerepo: {first}");
    }
}

/// A directory of the system that is opened.
pub type Directory = Opened<HostRuntime, WallClock<HostRuntime>>;

/// Does what the words say over an opened directory, with ids by the random bytes that were drawn for it.
fn over_opened<R: Input + Print + Eprint + AllocGlobal + Threads + Wait + Sync + Copy + Drop>(
    rt: &R,
    words: &[Word],
    opened: Directory,
) -> ExitCode
    ensures { EndsByRun (Stream opened.seed) IsSilent words.now result }
{
    let Opened {
        claim: _claim,
        store,
        seed,
        main_is_lost,
    } = opened;
    tell_loss(rt, main_is_lost);
    let ended = run_over(rt, words, Draw::Stream(seed), SystemStore::new(store));
    tell_fault(rt, &ended.store);
    end(rt, &ended.status)
}

/// Does what the words say over the directory of the system at this path.
pub fn in_directory<R: Input + Print + Eprint + AllocGlobal + Threads + Wait + Sync + Copy + Drop>(
    rt: &R,
    system: HostRuntime,
    words: &[Word],
    path: &str,
) -> ExitCode
    ensures { EndsUnopened result ⊎ EndsInDirectory words.now result }
{
    match open(system, path, WallClock::new(system)) {
        Ok(opened) => over_opened(rt, words, opened),
        Err(OpenFault::NoMemory) => end(rt, &Status::NoMemory),
        Err(fault) => end_without_store(rt, path, fault),
    }
}
