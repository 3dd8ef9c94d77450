//! All cases of the input, and what is printed of them.

ghost use Rattle.std.specs.Prelude.{◌<◌, length};

use crate::cases::{cut_case, cut_head, has_head};
use crate::heads::{Head, read_head};
use crate::pages::Page;
use crate::playing::{is_at_once, play};
use command_words::Word;
use ice_base::{Sink, StdSink, StdSource, read_input, write_whole};
use std::alloc::{AllocError, Global};
use std::sync::Wait;
use std::thread::Threads;
use top_call::Status;

/// How many bytes are kept before they are printed.
const ENOUGH: usize = 65_536;

/// The words behind the program's name of `icerepo play`.
fn play_words(alloc: Global) -> Result<Vec<Word>, AllocError> {
    let mut words = Vec::new(alloc);
    words.push(Word::new(String::from_str(alloc, "play")?))?;
    Ok(words)
}

/// What is told of a case whose first line says nothing as a head.
fn refusal_of(case: &[u8]) -> &'static str {
    if has_head(case) {
        "== bad head\n"
    } else {
        "== no head\n"
    }
}

/// Plays a case whose tasks take turns, and says whether it was played.
fn play_turns<R: Threads + Wait + Sync>(
    rt: &R,
    alloc: Global,
    words: &[Word],
    head: Head,
    script: &[u8],
    page: &mut Page,
) -> Result<bool, AllocError> {
    if is_at_once(alloc, script)? {
        page.add("== no turns\n")?;
        return Ok(false);
    }
    play(rt, alloc, words, head, script, page)?;
    Ok(true)
}

/// Appends the first line of a case and what the case comes to, and says whether it was played.
fn answer<R: Threads + Wait + Sync>(
    rt: &R,
    alloc: Global,
    words: &[Word],
    case: &[u8],
    page: &mut Page,
) -> Result<bool, AllocError>
    requires { 0 < length case.now }
{
    let (line, script) = cut_head(case);
    page.add_bytes(line)?;
    page.add("\n")?;
    match read_head(alloc, line)? {
        Some(head) => play_turns(rt, alloc, words, head, script, page),
        None => {
            page.add(refusal_of(case))?;
            Ok(false)
        }
    }
}

/// Prints what stands on the page, and leaves it empty.
fn print<K: Sink>(page: &mut Page, out: &mut K) -> Result<(), Status> {
    let written = write_whole(out, page.as_slice());
    page.clear();
    match written {
        Ok(()) => Ok(()),
        Err(_) => Err(Status::WriteFault),
    }
}

/// Answers all cases of a text; what isn't printed of it stands on the page.
fn answer_all<R: Threads + Wait + Sync, K: Sink>(
    rt: &R,
    alloc: Global,
    text: &[u8],
    page: &mut Page,
    out: &mut K,
) -> Result<Status, Status> {
    let words = play_words(alloc)?;
    let mut status = Status::Ok;
    let mut rest = text;
    while !rest.is_empty() {
        let (case, behind) = cut_case(rest);
        rest = behind;
        if !answer(rt, alloc, words.as_slice(), case, page)? {
            status = Status::Refused;
        }
        if page.as_slice().len() >= ENOUGH {
            print(page, out)?;
        }
    }
    Ok(status)
}

/// Answers all cases of a text, and prints all of it.
fn show_cases<R: Threads + Wait + Sync, K: Sink>(
    rt: &R,
    alloc: Global,
    text: &[u8],
    out: &mut K,
) -> Status {
    let mut page = Page::new(alloc);
    let came = answer_all(rt, alloc, text, &mut page, out);
    match (came, print(&mut page, out)) {
        (Ok(status), Ok(())) => status,
        (Err(status), _) => status,
        (Ok(_), Err(status)) => status,
    }
}

/// Answers all cases of standard input on standard output. The status is `Refused` where some case wasn't played.
pub fn show<R: Input + Print + AllocGlobal + Threads + Wait + Sync + Copy + Drop>(
    rt: &R,
) -> Status {
    let alloc = rt.alloc();
    let mut input = StdSource::new(*rt);
    let mut output = StdSink::new(*rt);
    match read_input(alloc, &mut input, usize::MAX) {
        Ok(text) => show_cases(rt, alloc, text.as_slice(), &mut output),
        Err(fault) => Status::from(fault),
    }
}
