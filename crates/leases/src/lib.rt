//! Leases: a session's base is kept for it, whatever becomes of its branch.
#![tactic(auto)]

mod laws;
mod lease;
mod placing;
mod releasing;
mod witness;

pub use laws::lease_law;
pub use lease::{Lease, Leased};
pub use releasing::release;
pub use witness::Witness;
