//! Tests of sessions, rebases, settlings and refs over a store in memory that tells no journal: what takes many nodes, ids that
//! run out, or a change in the middle of a call.
#![tactic(auto)]

#[cfg(test)]
mod doubts;
#[cfg(test)]
mod rebases;
#[cfg(test)]
mod refs;
#[cfg(test)]
mod sessions;
