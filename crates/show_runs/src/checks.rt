//! How a check ended, as `7 absent snapshot 1CECHNKREP0F1RSTCMT0, bad branch main ! Unsound 2`: its line, each fault with its object,
//! and behind ` ! ` its refusal, or `checked 4 3` with the numbers of snapshots and of objects with chunks. `-` in the place of the
//! faults is none.

use crate::refusals::refusal_of;
use crate::store_keys::key_of;
use check_reports::{CheckFault, CheckFaults, Checked, FaultKind};
use play_outcome::End;
use ref_file::RefFault;
use repo_objects::Bad;
use show_files::{NoAnswer, first_word, number_of, parted, small_number_of};
use std::alloc::Global;
use store_api::Refusal;

/// What is wrong with an object, by its word in a report. Of a node that is not well it is the first one.
fn kind_of(word: &str) -> Result<FaultKind, NoAnswer> {
    match word {
        "absent" => Ok(FaultKind::Absent),
        "bad" => Ok(FaultKind::Bad(Bad::Ref(RefFault::Json))),
        "ring" => Ok(FaultKind::Ring),
        "notwell" => Ok(FaultKind::NotWell { at: 0 }),
        _ => Err(NoAnswer::Words),
    }
}

/// A fault, and its object.
fn fault_of(alloc: Global, words: &str) -> Result<CheckFault, NoAnswer> {
    let (kind, key) = first_word(words);
    let kind = kind_of(kind)?;
    let key = key_of(alloc, key)?;
    Ok(CheckFault { key, kind })
}

/// Faults with commas between them.
fn faults_of(alloc: Global, words: &str) -> Result<CheckFaults, NoAnswer> {
    let mut faults = CheckFaults::new(alloc);
    if words == "-" {
        return Ok(faults);
    }
    for word in words.split(", ") {
        faults.push(fault_of(alloc, word)?)?;
    }
    Ok(faults)
}

/// How many objects were found.
fn counts_of(words: &str) -> Result<Checked, NoAnswer> {
    let (snapshots, chunks) = first_word(words);
    Ok(Checked {
        snapshots: number_of(snapshots)?,
        chunks: number_of(chunks)?,
    })
}

/// What a check answered.
fn answer_of(alloc: Global, words: &str) -> Result<Result<Checked, Refusal>, NoAnswer> {
    let (kind, rest) = first_word(words);
    if kind == "checked" {
        return counts_of(rest).map(|counts| Ok(counts));
    }
    refusal_of(alloc, words).map(|why| Err(why))
}

/// How a check ended.
pub fn checked_of(alloc: Global, words: &str) -> Result<End, NoAnswer> {
    let (line, rest) = first_word(words);
    let line = small_number_of(line)?;
    let (faults, answer) = parted(rest, " ! ");
    let faults = faults_of(alloc, faults)?;
    let result = answer_of(alloc, answer)?;
    Ok(End::Checked {
        line,
        faults,
        result,
    })
}
