//! Branches and tags: machines that make, move and drop them, and the log of a snapshot's chain.
#![tactic(auto)]

mod answers;
mod branch_drop;
mod branch_new;
mod branch_reset;
mod calls;
mod init;
mod laws;
mod log;
mod tag_drop;
mod tag_new;

pub use branch_drop::BranchDrop;
pub use branch_new::BranchNew;
pub use branch_reset::BranchReset;
pub use calls::{
    drop_branch, drop_tag, make_branch, make_repository, make_tag, read_log, set_branch,
};
pub use init::Init;
pub use laws::{branch_histories_law, refs_law, stays_law, tag_states_law};
pub use log::{Log, LogLine, LogLines};
pub use tag_drop::TagDrop;
pub use tag_new::TagNew;
