//! The line that `grow` prints.

use std::fmt;

/// What a run came to.
#[derive(Clone, Copy, Debug, PartialEq, Eq)]
pub struct Summary {
    /// How many tasks there were.
    pub tasks: u64,
    /// How many committed.
    pub committed: u64,
    /// How many were refused.
    pub refused: u64,
    /// How many operations of the store the run made.
    pub events: u64,
}

/// The line, without its line feed.
impl fmt::Display for Summary {
    ghost use Rattle.std.specs.Prelude.{Some};
    ghost use Rattle.grow_script.specs.Summary.{summary_text};

    ghost output = { λ summary. Some (summary_text summary) };

    fn fmt<W: fmt::Write>(&self, f: &mut fmt::Formatter<W>) -> fmt::Result {
        let Summary {
            tasks,
            committed,
            refused,
            events,
        } = self;
        write!(
            f,
            "tasks {tasks} committed {committed} refused {refused} events {events}"
        )
    }
}
