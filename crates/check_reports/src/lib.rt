//! What checks report.
#![tactic(auto)]

mod faults;

pub use faults::{CheckFault, CheckFaults, Checked, FaultKind};
