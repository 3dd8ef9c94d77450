//! Collections: what no ref reaches, and is older than a cutoff, is found and removed.
#![tactic(auto)]

mod collect;
mod laws;
mod mark;
mod queue;
mod removing;
mod standing;
mod telling;

pub use collect::Collect;
pub use laws::{collect_law, gone_law};
pub use mark::Mark;
pub use queue::Keys;
pub use standing::Collected;
