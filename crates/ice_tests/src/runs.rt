//! Runs over an empty store in memory that no case of `ice_faults` shows: ends that fail, and other words than `play`.

use crate::gates::Meeting;
use command_words::{UsageFault, Word, words_of};
use ice_base::{ByteSink, ByteSource};
use ice_ids::Draw;
use script_values::ScriptKind;
use std::alloc::{AllocError, Global};
use std::sync::Wait;
use std::test::Fail;
use std::thread::Threads;
use test_ends::{holds, says};
use top_call::{Ended, Status, run};
use untold_store::Untold;

/// What a run is given: the words behind the program's name, and its ends.
#[derive(Drop)]
pub(crate) struct Asked {
    pub(crate) words: Vec<Word>,
    pub(crate) input: ByteSource,
    pub(crate) output: ByteSink,
}

/// The program's name and these words.
fn texts(alloc: Global, said: &[&str]) -> Result<Vec<String>, AllocError> {
    let mut texts = Vec::new(alloc);
    texts.push(String::from_str(alloc, "icerepo")?)?;
    for word in said {
        texts.push(String::from_str(alloc, word)?)?;
    }
    Ok(texts)
}

/// The words behind the program's name.
fn words(alloc: Global, said: &[&str]) -> Result<Vec<Word>, AllocError> {
    words_of(alloc, texts(alloc, said)?.into_iter())
}

/// An input of this text, of which these reads fail.
fn input(alloc: Global, text: &str, reads: &[u64]) -> Result<ByteSource, AllocError> {
    let text = text.as_bytes().to_vec(alloc)?;
    Ok(ByteSource::new(text, reads.to_vec(alloc)?))
}

/// An empty output with room for these tests' reports, of which these writes fail.
fn output(alloc: Global, writes: &[u64]) -> Result<ByteSink, AllocError> {
    ByteSink::new(alloc, 10_000, writes.to_vec(alloc)?)
}

/// A run with these words behind the program's name and this input, of which these reads fail, and these writes of the output.
fn asking(
    alloc: Global,
    said: &[&str],
    script: &str,
    reads: &[u64],
    writes: &[u64],
) -> Option<Asked> {
    let input = input(alloc, script, reads).ok()?;
    let output = output(alloc, writes).ok()?;
    let words = words(alloc, said).ok()?;
    Some(Asked {
        words,
        input,
        output,
    })
}

/// A run of a script, of which nothing fails.
pub(crate) fn script(alloc: Global, script: &str) -> Option<Asked> {
    asking(alloc, &["play"], script, &[], &[])
}

/// Does what is asked.
pub(crate) fn perform<R: Threads + Wait + Sync>(
    rt: &R,
    alloc: Global,
    draw: Draw,
    asked: &mut Asked,
    store: Untold,
    gate: &Meeting,
) -> Ended<Untold> {
    run(
        rt,
        alloc,
        asked.words.as_slice(),
        draw,
        &mut asked.input,
        store,
        gate,
        &mut asked.output,
    )
}

/// What was written.
pub(crate) fn report(alloc: Global, asked: &Asked) -> Option<String> {
    String::from_utf8_lossy(alloc, asked.output.written()).ok()
}

/// The status of a run over an empty store.
fn status<R: Threads + Wait + Sync>(rt: &R, alloc: Global, asked: &mut Asked) -> Status {
    let gate = Meeting::new(false);
    let store = Untold::new(alloc);
    let ended = perform(rt, alloc, Draw::Count, asked, store, &gate);
    let status = ended.status;
    drop(ended);
    status
}

/// What a run writes that has this status.
fn written<R: Threads + Wait + Sync>(
    rt: &R,
    alloc: Global,
    asked: Option<Asked>,
    want: Status,
) -> Option<String> {
    let mut asked = asked?;
    let status = status(rt, alloc, &mut asked);
    let report = report(alloc, &asked);
    drop(asked);
    if status == want { report } else { None }
}

/// The smallest commit.
const COMMIT: &str = "task a write main 0 fail\ngroup /\ncommit first\n";

#[test]
fn ends_that_fail(rt: HostRuntime) -> Result<(), Fail> {
    let no_read = asking(rt.alloc(), &["play"], COMMIT, &[0], &[]);
    says(written(&rt, rt.alloc(), no_read, Status::ReadFault), "")?;
    let no_write = asking(rt.alloc(), &["play"], COMMIT, &[], &[0]);
    says(written(&rt, rt.alloc(), no_write, Status::WriteFault), "")
}

const REFUSED: [(&str, u32, ScriptKind); 2] = [
    ("task a refs\n", 1, ScriptKind::Misplaced),
    (
        "task a write main 0 fail\ngroup /\ngroop /b\ncommit x\n",
        3,
        ScriptKind::Word,
    ),
];

/// The line that is refused, and why; the report and the number of the status alone are a case of `ice_faults`.
#[test]
fn refused_lines(rt: HostRuntime) -> Result<(), Fail> {
    for (text, line, kind) in &REFUSED {
        let status = Status::Script {
            line: *line,
            kind: *kind,
        };
        says(
            written(&rt, rt.alloc(), script(rt.alloc(), text), status),
            "",
        )?;
    }
    Ok(())
}

const WRONG: [(&[&str], UsageFault); 8] = [
    (&[], UsageFault::NoCommand),
    (&["Play"], UsageFault::Unknown),
    (&["pla", "--dir"], UsageFault::Unknown),
    (&["play", ""], UsageFault::Words),
    (&["play", "--dir"], UsageFault::Words),
    (&["grow", "61"], UsageFault::Words),
    (&["cells", "main", "/a b", "0", "1"], UsageFault::Words),
    (&["cells", "main", "/x", "0\n", "1"], UsageFault::Words),
];

#[test]
fn wrong_words(rt: HostRuntime) -> Result<(), Fail> {
    for (said, fault) in &WRONG {
        let asked = asking(rt.alloc(), said, COMMIT, &[], &[]);
        says(written(&rt, rt.alloc(), asked, Status::Usage(*fault)), "")?;
    }
    Ok(())
}

const OTHER: [(&[&str], &str); 2] = [
    (&["grow", "1"], "tasks 2 committed 2 refused 0 events 16\n"),
    (&["--version"], "icerepo 0.1.0\n"),
];

/// What `grow` and `--version` print, and that neither reads its input.
#[test]
fn other_commands(rt: HostRuntime) -> Result<(), Fail> {
    for (said, line) in &OTHER {
        let asked = asking(rt.alloc(), said, "", &[0], &[]);
        says(written(&rt, rt.alloc(), asked, Status::Ok), line)?;
    }
    Ok(())
}

/// `cells` plays two lines, and reads no input; a word that its line doesn't take is refused as one of a script.
#[test]
fn boxes_by_words(rt: HostRuntime) -> Result<(), Fail> {
    let asked = asking(
        rt.alloc(),
        &["cells", "main", "/x", "0", "1"],
        "",
        &[0],
        &[],
    );
    says(
        written(&rt, rt.alloc(), asked, Status::Refused),
        "cells refused 2 nonode\nbranch main 1CECHNKREP0F1RSTCMT0\n",
    )?;
    let asked = asking(
        rt.alloc(),
        &["cells", "main", "/x", "0", "one"],
        "",
        &[0],
        &[],
    );
    let status = Status::Script {
        line: 2,
        kind: ScriptKind::Number,
    };
    says(written(&rt, rt.alloc(), asked, status), "")
}

/// What `grow 60` prints.
fn grown<R: Threads + Wait + Sync>(rt: &R, alloc: Global) -> Option<String> {
    let asked = asking(alloc, &["grow", "60"], COMMIT, &[], &[]);
    written(rt, alloc, asked, Status::Ok)
}

/// `grow 60` prints the same line each time.
#[test]
fn grown_runs_agree(rt: HostRuntime) -> Result<(), Fail> {
    match grown(&rt, rt.alloc()) {
        Some(first) => {
            let agree = says(grown(&rt, rt.alloc()), first.as_str());
            drop(first);
            agree
        }
        None => holds(false, "nothing was told"),
    }
}
