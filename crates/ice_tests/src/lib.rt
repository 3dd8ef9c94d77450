//! Tests of runs that no case of `ice_faults` can show: tasks at once, ends and words of a test's own, and a program that is killed
//! over a folder in memory.
#![tactic(auto)]

#[cfg(test)]
mod at_once;
#[cfg(test)]
mod collections;
#[cfg(test)]
mod cuts;
#[cfg(test)]
mod folders;
#[cfg(test)]
mod gates;
#[cfg(test)]
mod runs;
