//! Tests of stores that no row of `ice_show` can show: directories of the system and folders in memory, calls of the system that
//! break, and a journal of many events.
#![tactic(auto)]

#[cfg(test)]
mod breaking;
#[cfg(test)]
mod calls;
#[cfg(test)]
mod directories;
#[cfg(test)]
mod folders;
#[cfg(test)]
mod memory;
#[cfg(test)]
mod once;
#[cfg(test)]
mod sizes;
#[cfg(test)]
mod stores;
