//! Tests of what no row of `ice_show` can show, of the crates on which all stands: words, cutoffs, places of cells, nested tables,
//! a manifest of many chunks, standard ends, and threads that take turns. Each module has the tests of one crate.
#![tactic(auto)]

#[cfg(test)]
mod cutoffs;
#[cfg(test)]
mod ends;
#[cfg(test)]
mod grids;
#[cfg(test)]
mod grown;
#[cfg(test)]
mod manifests;
#[cfg(test)]
mod tables;
#[cfg(test)]
mod turns;
#[cfg(test)]
mod words;
