//! How an expiry ended, as `7 branch main=kept, tag v=cut 1CECHNKREP0F1RSTCMT0 ! StoreFault`: its line, what it made of each ref, and
//! behind ` ! ` its refusal, or `-` where it ended well. `-` in the place of the refs is none.

use crate::refusals::result_of;
use crate::store_keys::{id_of, key_of};
use cleanup_reports::{RefCase, RefCases, What};
use play_outcome::End;
use show_files::{NoAnswer, first_word, parted, small_number_of};
use std::alloc::Global;

/// What an expiry made of a ref.
fn what_of(words: &str) -> Result<What, NoAnswer> {
    let (what, rest) = first_word(words);
    match what {
        "kept" => Ok(What::Kept),
        "cut" => Ok(What::Cut(id_of(rest)?)),
        "dropped" => Ok(What::Dropped),
        "moved" => Ok(What::Moved),
        "absent" => Ok(What::Absent),
        _ => Err(NoAnswer::Words),
    }
}

/// A ref, and what an expiry made of it.
fn case_of(alloc: Global, words: &str) -> Result<RefCase, NoAnswer> {
    let (key, what) = parted(words, "=");
    let what = what_of(what)?;
    let key = key_of(alloc, key)?;
    Ok(RefCase { key, what })
}

/// Refs, and what an expiry made of each.
fn cases_of(alloc: Global, words: &str) -> Result<RefCases, NoAnswer> {
    let mut cases = RefCases::new(alloc);
    if words == "-" {
        return Ok(cases);
    }
    for word in words.split(", ") {
        cases.push(case_of(alloc, word)?)?;
    }
    Ok(cases)
}

/// How an expiry ended.
pub fn expired_of(alloc: Global, words: &str) -> Result<End, NoAnswer> {
    let (line, rest) = first_word(words);
    let line = small_number_of(line)?;
    let (cases, result) = parted(rest, " ! ");
    let cases = cases_of(alloc, cases)?;
    let result = result_of(alloc, result)?;
    Ok(End::Expired {
        line,
        cases,
        result,
    })
}
