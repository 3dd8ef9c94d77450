//! What reports print, written to memory.

use drafts::Draft;
use ice_base::ByteSink;
use play_outcome::{Outcome, RefLines};
use play_report::{add_refusal, add_report};
use std::alloc::{AllocError, Global};
use store_api::Refusal;

/// The most bytes that a row prints.
const MOST: usize = 65_536;

/// What is written of a draft that ends in a sink of memory.
fn text_in(alloc: Global, draft: Draft, sink: ByteSink) -> Result<Vec<u8>, AllocError> {
    let mut sink = sink;
    if draft.finish(&mut sink) {
        return Err(AllocError);
    }
    Vec::from_slice(alloc, sink.written())
}

/// The text of a refusal.
pub fn refusal_text(alloc: Global, why: &Refusal) -> Result<Vec<u8>, AllocError> {
    let mut draft = Draft::new(alloc)?;
    let mut sink = ByteSink::new(alloc, MOST, Vec::new(alloc))?;
    add_refusal(&mut draft, &mut sink, why);
    text_in(alloc, draft, sink)
}

/// A report.
pub fn report_text(
    alloc: Global,
    names: &[&[u8]],
    opening: &Result<(), Refusal>,
    outcomes: &[Outcome],
    refs: &Result<RefLines, Refusal>,
) -> Result<Vec<u8>, AllocError> {
    let mut draft = Draft::new(alloc)?;
    let mut sink = ByteSink::new(alloc, MOST, Vec::new(alloc))?;
    add_report(&mut draft, &mut sink, names, opening, outcomes, refs);
    text_in(alloc, draft, sink)
}
