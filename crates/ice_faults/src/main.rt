//! The program `ice_faults`: it plays scripts over a store in memory of which planned calls fail, and prints what became of
//! each, with the journal of the store where that is asked for. README.md has the form of its cases.
#![tactic(auto)]

mod cases;
mod heads;
mod journals;
mod pages;
mod playing;
mod showing;

use showing::show;
use std::process::ExitCode;
use top_call::end;

fn main(rt: HostRuntime) -> ExitCode {
    let status = show(&rt);
    end(&rt, &status)
}
