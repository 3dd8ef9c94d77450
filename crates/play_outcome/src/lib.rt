//! Outcomes: what tasks of a script showed and how they ended, and the refs that stand behind them.
#![tactic(auto)]

mod outcome;

pub use outcome::{End, How, Outcome, RefLine, RefLines, Shown, Shows};
