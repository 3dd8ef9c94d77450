//! What was compared, counted.

ghost use Rattle.std.specs.Prelude.{◌≡◌, ◌<◌, if◌then◌else◌, replicate};
ghost use Rattle.ice_base.specs.Ends.{raised};

use std::alloc::{AllocError, Global};
use zarr_tree::Case;

/// What was compared so far. At its end a count stands still.
#[derive(Clone, Copy)]
pub struct Counts {
    /// The cases.
    pub cases: u64,
    /// The edits that were done.
    pub done: u64,
    /// The edits that were refused.
    pub refused: u64,
    /// The conflicts of each case of conflicts.
    pub conflicts: [u64; 10],
}

/// A count with one more. At its end it stands still.
fn one_more(count: u64) -> u64
    ensures { result ≡ raised count }
{
    count.saturating_add(1)
}

/// The place of a case of conflicts among all.
fn place_of(case: Case) -> usize
    ensures { result < 10 }
{
    match case {
        Case::NewNodeConflictsWithExistingNode => 0,
        Case::NewNodeInInvalidGroup => 1,
        Case::ZarrMetadataDoubleUpdate => 2,
        Case::ZarrMetadataUpdateOfDeletedArray => 3,
        Case::ZarrMetadataUpdateOfDeletedGroup => 4,
        Case::ChunkDoubleUpdate => 5,
        Case::ChunksUpdatedInDeletedArray => 6,
        Case::ChunksUpdatedInUpdatedArray => 7,
        Case::DeleteOfUpdatedArray => 8,
        Case::DeleteOfUpdatedGroup => 9,
    }
}

impl Counts {
    /// Nothing was compared.
    pub fn new() -> Counts
        ensures { result
            ≡ record { cases = 0; done = 0; refused = 0; conflicts = replicate 10 0 } }
    {
        Counts {
            cases: 0,
            done: 0,
            refused: 0,
            conflicts: [0; 10],
        }
    }

    /// One more case.
    pub fn count_case(&mut self)
        ensures { self.new ≡ record self.old { cases = raised self.old.cases } }
    {
        self.cases = one_more(self.cases);
    }

    /// One more edit.
    pub fn count_edit(&mut self, done: bool)
        ensures { self.new ≡ (if done then record self.old { done = raised self.old.done }
            else record self.old { refused = raised self.old.refused }) }
    {
        if done {
            self.done = one_more(self.done);
        } else {
            self.refused = one_more(self.refused);
        }
    }

    /// One more conflict. No other count changes.
    pub fn count_conflict(&mut self, case: Case)
        ensures { self.new ≡ record self.old { conflicts = self.new.conflicts } }
    {
        let at = place_of(case);
        let number = self.conflicts[at];
        self.conflicts[at] = one_more(number);
    }

    /// The counts in words.
    pub fn told(&self, alloc: Global) -> Result<String, AllocError> {
        let cases = self.cases;
        let done = self.done;
        let refused = self.refused;
        let mut told = format!(in alloc;
            "{cases} cases agree, edits {done}, refused {refused}, conflicts by case"
        )?;
        for count in &self.conflicts {
            write!(told, " {count}")?;
        }
        Ok(told)
    }
}
