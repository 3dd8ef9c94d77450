//! The program `ice_model`: it compares `ChangeSet` and `detect` with the plain model over cases
//! that are made from numbers. README.md says how.
#![tactic(auto)]

mod arrays;
mod asking;
mod bases;
mod cases;
mod chunks;
mod counts;
mod dice;
mod drawing;
mod entering;
mod found;
mod listing;
mod looking;
mod nodes;
mod places;
mod sides;
mod stops;
mod telling;
mod trees;
mod walking;
mod words;

use cases::compare_all;
use std::process::ExitCode;
use words::read_words;

/// The status where the words aren't two numbers, or nothing could be compared.
const BAD_CALL: u8 = 2;

fn main(rt: HostRuntime) -> ExitCode {
    let Some(range) = read_words(&rt) else {
        let _ = eprintln!(rt; "ice_model FIRST [COUNT]");
        return ExitCode::from(BAD_CALL);
    };
    match compare_all(&rt, range) {
        Ok(true) => ExitCode::from(0),
        Ok(false) => ExitCode::from(1),
        Err(_) => ExitCode::from(BAD_CALL),
    }
}
