//! Tests over a store that answers anything: whole runs, and the machines of which a run tells less than they do.
#![tactic(auto)]

#[cfg(test)]
mod faulted;
#[cfg(test)]
mod hostile;
#[cfg(test)]
mod lying;
#[cfg(test)]
mod playing;
