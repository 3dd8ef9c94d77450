//! Tests of checks: each object of a repository is damaged in turn.
#![tactic(auto)]

#[cfg(test)]
mod damages;
#[cfg(test)]
mod playing;
#[cfg(test)]
mod telling;
