//! The program `ice_show`: it reads cases from standard input, a line each, calls the readers and writers of this
//! repository on them, and prints each case with the whole answer. README.md has the kinds of cases.
#![tactic(auto)]

mod answering;
mod counted;
mod kept;
mod kinds;
mod parts;
mod ref_calls;
mod storing;

use answering::answer;
use kept::Kept;
use std::io;
use std::io::{BufRead, BufReader, Write};

fn main(rt: HostRuntime) -> io::Result<()> {
    let alloc = rt.alloc();
    let mut kept = Kept::new(alloc);
    let input = BufReader::new(alloc, rt.reader())?;
    for line in input.lines(alloc) {
        if let Some(answer) = answer(alloc, &mut kept, line?.as_str())? {
            println!(rt; "{answer}")?;
        }
    }
    Ok(())
}
