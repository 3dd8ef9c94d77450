//! The program `icerepo`: it reads the words of its command line, and plays the script that comes on standard input, or one
//! that is made from a number, over a store in memory or in a directory; or it copies one directory into another, or says what
//! it is.
#![tactic(auto)]

mod directory;
mod mirroring;
mod progress;
mod running;
mod streams;
mod system_store;
mod telling;

ghost use Rattle.ice_cli.specs.Ending.{EndsByWords};

use command_words::{Location, Word, location_of};
use directory::in_directory;
use mirroring::between;
use running::in_memory;
use std::process::ExitCode;
use std::sync::Wait;
use std::thread::Threads;
use streams::keep_numbers;
use telling::end_without_words;
use top_call::{Status, end, given_words};

/// Does what the words say, where the repository lies that they name, and gives the exit code.
fn end_by<R: Input + Print + Eprint + AllocGlobal + Threads + Wait + Sync + Copy + Drop>(
    rt: &R,
    system: HostRuntime,
    words: &[Word],
) -> ExitCode
    ensures { EndsByWords words.now result }
{
    match location_of(rt.alloc(), words) {
        Ok(Location::Memory) => in_memory(rt, words),
        Ok(Location::Dir(path)) => match keep_numbers(&system) {
            Ok(_kept) => in_directory(rt, system, words, path),
            Err(status) => end(rt, &status),
        },
        Ok(Location::Pair(from, to)) => match keep_numbers(&system) {
            Ok(_kept) => between(rt, system, from, to),
            Err(status) => end(rt, &status),
        },
        Err(_) => end(rt, &Status::NoMemory),
    }
}

fn main(rt: HostRuntime) -> ExitCode {
    match given_words(&rt) {
        Ok(words) => end_by(&rt, rt, &words),
        Err(status) => end_without_words(&rt, &status),
    }
}
