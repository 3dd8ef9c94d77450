//! A repository to be checked.

ghost use Rattle.play_script.specs.Well.{IsWell};

use ice_ids::Draw;
use play_run::run_tasks;
use play_script::Script;
use repository::begin;
use std::alloc::Global;
use store_api::{Base, ObjectStore, Rule};

/// What a test may do: anything.
pub(crate) struct Anything;

impl Rule for Anything {
    ghost may = { λ journal op. Unit {0} };
}

/// A store on which a repository is made, and then damaged.
pub(crate) trait Damaged: Base + ObjectStore<Anything> {}

impl<S: Base + ObjectStore<Anything>> Damaged for S {}

/// Two commits: two arrays, each with an object with a chunk, of unlike lengths; and one with a chunk in its manifest, in a group.
const TWO: &str =
    "task a write main 0 fail\ngroup /\narray /x uint8 600 600 0\narray /z uint8 700 700 0\nfill /x 0 01\nfill /z 0 02\ncommit one\ntask b write main 0 fail\ngroup /g\narray /g/y uint8 4 2 7\nset /g/y 0 0102\ncommit two\ntask t refs\ntag v branch main\nturns\n";

/// Whether the tasks of a script were played, one after the other.
fn played<S: Base>(alloc: Global, script: &Script, store: &mut S) -> bool
    requires { IsWell script.now }
{
    match run_tasks(alloc, script.tasks.as_slice(), Draw::Count, &[], store) {
        Ok(outcomes) => {
            drop(outcomes);
            true
        }
        Err(_) => false,
    }
}

/// Whether the script was read and played.
fn two_played<S: Base>(alloc: Global, store: &mut S) -> bool {
    match Script::read(alloc, TWO.as_bytes()) {
        Ok(script) => {
            let played = played(alloc, &script, store);
            drop(script);
            played
        }
        Err(_) => false,
    }
}

/// Whether the repository with two commits was made.
pub(crate) fn made<S: Base>(alloc: Global, store: &mut S) -> bool {
    match begin(alloc, store) {
        Ok(()) => two_played(alloc, store),
        Err(why) => {
            drop(why);
            false
        }
    }
}
