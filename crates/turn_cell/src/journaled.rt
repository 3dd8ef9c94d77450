//! A value with a journal.
ghost use Rattle.std.specs.Prelude.{ℕ, List};

/// A value that tells a journal and a count. All three members exist in contracts alone.
///
/// Whether a value tells its journal is fixed by its type: a type that doesn't tell it has the empty journal, and an `Entry` of
/// any kind.
pub trait Journaled {
    /// What stands in the journal.
    type Entry;

    // The journal, from the first entry to the last.
    ghost journal: { Self → List Self.Entry };

    // The number of the one that made the entry.
    ghost owner: { Self.Entry → ℕ };

    // A number that the callers of a cell never let fall.
    ghost count: { Self → ℕ };
}
