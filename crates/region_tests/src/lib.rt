//! Boxes of numbers beside a list of all of an array's cells.
#![tactic(auto)]

#[cfg(test)]
mod boxes;
#[cfg(test)]
mod calls;
#[cfg(test)]
mod model;
