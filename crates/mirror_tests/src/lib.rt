//! Tests of mirrors: others act between the steps, and how a run of one ends.
#![tactic(auto)]

#[cfg(test)]
mod ends;
#[cfg(test)]
mod looking;
#[cfg(test)]
mod meanwhile;
#[cfg(test)]
mod playing;
