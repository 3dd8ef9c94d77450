//! Repositories that scripts make.

ghost use Rattle.std.specs.Prelude.{◌≡◌, Some};
ghost use Rattle.play_script.specs.Well.{IsWell};

use ice_ids::Draw;
use play_outcome::{End, Outcome};
use play_run::run_tasks;
use play_script::{Script, Turn};
use repository::begin;
use std::alloc::{AllocError, Global};
use store_api::Base;

/// Three commits and a tag, an expiry and a collection.
pub(crate) const USUAL: &str =
    "task a write main 0 fail\ngroup /\narray /t int32 100,100 50,50 0\narray /p int32 100,100 50,50 0\ncommit layout\ntask b write main 3 fail\nfill /t 0,0 01\nfill /t 1,1 02\ncommit temperatures\ntask c write main 3 fail\nfill /p 0,1 03\ncommit pressures\ntask d refs\ntag v1 branch main\ntask e expire 0 keep\ntask f collect 0\nturns a*5 b*2 c*2\n";

/// Whether a task ended well.
fn ended_well(outcome: &Outcome) -> bool {
    match &outcome.end {
        End::Committed(_) | End::Collected(_) | End::Done => true,
        End::Expired { result, .. } => result.is_ok(),
        End::Checked { result, .. } => result.is_ok(),
        End::Refused { .. } | End::Stopped { .. } | End::InDoubt { .. } => false,
    }
}

/// Whether tasks ended well.
fn are_well(outcomes: &[Outcome]) -> bool {
    let mut well = true;
    for outcome in outcomes {
        well = ended_well(outcome) && well;
    }
    well
}

/// Whether there are outcomes, and all are well.
fn all_well(played: Result<Vec<Outcome>, AllocError>) -> bool {
    match played {
        Ok(outcomes) => {
            let well = are_well(outcomes.as_slice());
            drop(outcomes);
            well
        }
        Err(_) => false,
    }
}

/// Whether the tasks of a script end well by these turns.
fn by_turns<S: Base>(
    alloc: Global,
    script: &Script,
    turns: &[Turn],
    draw: Draw,
    store: &mut S,
) -> bool
    requires well { IsWell script.now }
    requires turns { script.now.turns ≡ Some turns.now }
{
    all_well(run_tasks(alloc, script.tasks.as_slice(), draw, turns, store))
}

/// Whether the tasks of a script end well: by its turns, or one after the other.
fn in_order<S: Base>(alloc: Global, script: &Script, draw: Draw, store: &mut S) -> bool
    requires { IsWell script.now }
{
    match &script.turns {
        Some(turns) => by_turns(alloc, script, turns.as_slice(), draw, store),
        None => all_well(run_tasks(alloc, script.tasks.as_slice(), draw, &[], store)),
    }
}

/// Whether a script is read, and its tasks end well.
pub(crate) fn played<S: Base>(alloc: Global, text: &str, draw: Draw, store: &mut S) -> bool {
    match Script::read(alloc, text.as_bytes()) {
        Ok(script) => {
            let well = in_order(alloc, &script, draw, store);
            drop(script);
            well
        }
        Err(_) => false,
    }
}

/// Whether a repository is there, made where there is none, in which a script is played and its tasks end well.
pub(crate) fn made<S: Base>(alloc: Global, text: &str, draw: Draw, store: &mut S) -> bool {
    match begin(alloc, store) {
        Ok(()) => played(alloc, text, draw, store),
        Err(why) => {
            drop(why);
            false
        }
    }
}
