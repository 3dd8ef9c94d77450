//! Reports of runs. ` | ` stands between the opening, the tasks and the refs. A task is a name, what it showed and how it ended:
//! `c - refused 10 NoNode`; `a 2=/,13:array=/a/b done` showed a group and an array in the lines 2 and 13, and
//! `b 7:log=ID+unit=kelvin done` a snapshot of a log with a property, `b 8:cells=10+-1 done` numbers of cells, and `b 7:lease=ID,8:lease=ID+StoreFault done` a lease that was released and one that was left; `d - collected 3 2 1 40` collected, and `e - stopped 7 3 2 1 40 StoreFault` was refused in the line 7 behind so many removals; of `f - expired`
//! the rest is in `expiries`, and of `k - checked` in `checks`; `g - indoubt 1CECHNKREP0F1RSTCMT0 unsettled Missing ..` was left in doubt. `; ` stands between tasks, and `, ` between refs like `tag v 1=1CECHNKREP0F1RSTCMT0`. In the place of an
//! opening that went well stands `-`, and a refusal may stand in that of the refs, behind `!`.

use crate::checks::checked_of;
use crate::expiries::expired_of;
use crate::printed_texts::report_text;
use crate::refusals::{refusal_of, result_of};
use crate::store_keys::id_of;
use cleanup_reports::Removed;
use ice_base::Text;
use ice_items::Items;
use play_outcome::{End, How, Outcome, RefLine, RefLines, Shown, Shows};
use show_files::{
    NoAnswer, first_word, name_of, number_of, parted, path_of, props_of, small_number_of, text_of,
};
use std::alloc::{AllocError, Global};
use store_api::Refusal;

/// The snapshot of a log that is shown by its id and by properties like `+unit=kelvin+author=ann`; it was flushed at 4, and its
/// message is empty.
fn logged_of(alloc: Global, line: u32, words: &str) -> Result<Shown, NoAnswer> {
    let (id, props) = parted(words, "+");
    let id = id_of(id)?;
    let message = Text::of(alloc, "")?;
    let props = props_of(alloc, props)?;
    Ok(Shown::Log {
        line,
        id,
        flushed_at: 4,
        message,
        props,
    })
}

/// The number with a sign that a word says.
fn signed_of(word: &str) -> Result<i128, NoAnswer> {
    match word.parse::<i128>() {
        Ok(number) => Ok(number),
        Err(_) => Err(NoAnswer::Words),
    }
}

/// The numbers of cells between plus signs; `-` is none.
fn cells_of(alloc: Global, words: &str) -> Result<Items<i128>, NoAnswer> {
    let mut numbers = Items::new(alloc);
    if words == "-" {
        return Ok(numbers);
    }
    for word in words.split('+') {
        numbers.push(signed_of(word)?)?;
    }
    Ok(numbers)
}

/// A lease, by its id, and behind a plus sign why it was left, if it was.
fn lease_of(alloc: Global, line: u32, words: &str) -> Result<Shown, NoAnswer> {
    let (id, why) = parted(words, "+");
    let id = id_of(id)?;
    let left = match why {
        "" => None,
        why => Some(refusal_of(alloc, why)?),
    };
    Ok(Shown::Lease { line, id, left })
}

/// What a word shows: `13:array=/a/b` a node, `8:cells=10+-1` numbers of cells, `7:log=ID` a snapshot of a log, `7:lease=ID` a lease.
fn shown_of(alloc: Global, word: &str) -> Result<Shown, NoAnswer> {
    let (place, what) = parted(word, "=");
    let (line, kind) = parted(place, ":");
    let line = small_number_of(line)?;
    if kind == "log" {
        return logged_of(alloc, line, what);
    }
    if kind == "lease" {
        return lease_of(alloc, line, what);
    }
    if kind == "cells" {
        let numbers = cells_of(alloc, what)?;
        return Ok(Shown::Cells { line, numbers });
    }
    let array = kind == "array";
    let path = path_of(alloc, what)?;
    Ok(Shown::Node { line, array, path })
}

/// What words with commas between them show; `-` shows nothing.
fn shows_of(alloc: Global, words: &str) -> Result<Shows, NoAnswer> {
    let mut shows = Shows::new(alloc);
    if words == "-" {
        return Ok(shows);
    }
    for word in words.split(',') {
        shows.push(shown_of(alloc, word)?)?;
    }
    Ok(shows)
}

/// The refusal of a task, in a line.
fn refused_of(alloc: Global, words: &str) -> Result<End, NoAnswer> {
    let (line, rest) = first_word(words);
    let line = small_number_of(line)?;
    refusal_of(alloc, rest).map(|why| End::Refused { line, why })
}

/// How many objects of each kind were removed, and what stands behind these numbers.
fn removed_of(words: &str) -> Result<(Removed, &str), NoAnswer> {
    let (snapshots, rest) = first_word(words);
    let (logs, rest) = first_word(rest);
    let (manifests, rest) = first_word(rest);
    let (chunks, rest) = first_word(rest);
    let removed = Removed {
        snapshots: number_of(snapshots)?,
        logs: number_of(logs)?,
        manifests: number_of(manifests)?,
        chunks: number_of(chunks)?,
    };
    Ok((removed, rest))
}

/// A collection that ended well.
fn collected_of(words: &str) -> Result<End, NoAnswer> {
    let (removed, _) = removed_of(words)?;
    Ok(End::Collected(removed))
}

/// The refusal of a collection, in a line, behind what it removed.
fn stopped_of(alloc: Global, words: &str) -> Result<End, NoAnswer> {
    let (line, rest) = first_word(words);
    let line = small_number_of(line)?;
    let (removed, rest) = removed_of(rest)?;
    refusal_of(alloc, rest).map(|why| End::Stopped { line, why, removed })
}

/// What its branch told of a commit in doubt; a refusal stands behind `unsettled`.
fn how_of(alloc: Global, words: &str) -> Result<How, NoAnswer> {
    let (how, rest) = first_word(words);
    match how {
        "committed" => Ok(How::Committed),
        "notcommitted" => Ok(How::NotCommitted),
        "notancestor" => Ok(How::NotAncestor),
        "noref" => Ok(How::NoRef),
        "unsettled" => refusal_of(alloc, rest).map(|why| How::Unsettled(why)),
        _ => Err(NoAnswer::Words),
    }
}

/// A commit in doubt: its snapshot, and what its branch told of it.
fn doubt_of(alloc: Global, words: &str) -> Result<End, NoAnswer> {
    let (id, how) = first_word(words);
    let id = id_of(id)?;
    how_of(alloc, how).map(|how| End::InDoubt { id, how })
}

/// How a task ended.
fn end_of(alloc: Global, words: &str) -> Result<End, NoAnswer> {
    let (kind, rest) = first_word(words);
    match kind {
        "committed" => Ok(End::Committed(id_of(rest)?)),
        "collected" => collected_of(rest),
        "done" => Ok(End::Done),
        "expired" => expired_of(alloc, rest),
        "checked" => checked_of(alloc, rest),
        "indoubt" => doubt_of(alloc, rest),
        "refused" => refused_of(alloc, rest),
        "stopped" => stopped_of(alloc, rest),
        _ => Err(NoAnswer::Words),
    }
}

/// What a task showed, and how it ended.
fn outcome_of(alloc: Global, words: &str) -> Result<Outcome, NoAnswer> {
    let (shown, end) = first_word(words);
    let shown = shows_of(alloc, shown)?;
    let end = end_of(alloc, end)?;
    Ok(Outcome { shown, end })
}

/// What the tasks showed, and how they ended. Of one with nothing but a name there is nothing.
fn outcomes_of(alloc: Global, tasks: &str) -> Result<Vec<Outcome>, NoAnswer> {
    let mut outcomes = Vec::new(alloc);
    for task in tasks.split("; ") {
        let words = first_word(task).1;
        if !words.is_empty() {
            outcomes.push(outcome_of(alloc, words)?)?;
        }
    }
    Ok(outcomes)
}

/// The names of the tasks.
fn names_of<'a>(alloc: Global, tasks: &'a str) -> Result<Vec<&'a [u8]>, AllocError> {
    let mut names = Vec::new(alloc);
    for task in tasks.split("; ") {
        names.push(first_word(task).0.as_bytes())?;
    }
    Ok(names)
}

/// A ref, and the snapshot that it names.
fn ref_of(alloc: Global, words: &str) -> Result<RefLine, NoAnswer> {
    let (kind, rest) = first_word(words);
    let (name, id) = parted(rest, "=");
    let tag = kind == "tag";
    let id = id_of(id)?;
    let name = name_of(alloc, name)?;
    Ok(RefLine { tag, name, id })
}

/// Refs, and the snapshots that they name.
fn lines_of(alloc: Global, words: &str) -> Result<RefLines, NoAnswer> {
    let mut lines = RefLines::new(alloc);
    for word in words.split(", ") {
        lines.push(ref_of(alloc, word)?)?;
    }
    Ok(lines)
}

/// What came of the closing reading.
fn refs_of(alloc: Global, words: &str) -> Result<Result<RefLines, Refusal>, NoAnswer> {
    match words.strip_prefix('!') {
        Some(words) => refusal_of(alloc, words).map(Err),
        None => lines_of(alloc, words).map(Ok),
    }
}

/// The report with the refs of words.
fn text_of_refs(
    alloc: Global,
    names: &[&[u8]],
    opening: &Result<(), Refusal>,
    outcomes: &[Outcome],
    refs: &str,
) -> Result<Vec<u8>, NoAnswer> {
    let refs = refs_of(alloc, refs)?;
    let text = report_text(alloc, names, opening, outcomes, &refs);
    drop(refs);
    Ok(text?)
}

/// The report with the opening and the refs of words.
fn text_of_ends(
    alloc: Global,
    names: &[&[u8]],
    outcomes: &[Outcome],
    opening: &str,
    refs: &str,
) -> Result<Vec<u8>, NoAnswer> {
    let opening = result_of(alloc, opening)?;
    let text = text_of_refs(alloc, names, &opening, outcomes, refs);
    drop(opening);
    text
}

/// A report.
pub fn tell_report(alloc: Global, text: &str) -> Result<String, NoAnswer> {
    let (opening, rest) = parted(text, " | ");
    let (tasks, refs) = parted(rest, " | ");
    let names = names_of(alloc, tasks)?;
    let outcomes = outcomes_of(alloc, tasks)?;
    let bytes = text_of_ends(alloc, &names, &outcomes, opening, refs)?;
    let text = text_of(&bytes)?;
    Ok(format!(in alloc; "{text:?}")?)
}
