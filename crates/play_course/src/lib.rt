//! A run of a script that was read: the opening, the tasks and the closing reading, over one store; and what it promises.
#![tactic(auto)]

mod course;
mod running;

ghost use Rattle.play_course.specs.Law.{PromiseLaw};

pub use course::{Played, play};
use rebase::means_law;
use repo_objects::initial_law;
use repository::refs_law;
use run_histories::{needed_law, run_law};

/// Where a script was played over a store that tells its journal, and that was sound and the clients' ids were new to it, each
/// branch's updates form one list, each commit that took effect is its session's solved changes on the entry before it, each
/// read sees its session's base under the session's own changes, and each task ends as it tells; and its collections remove
/// nothing that a ref or an anchored session reaches.
pub fn promise_law()
    ensures { PromiseLaw }
{
    initial_law();
    means_law();
    run_law();
    needed_law();
    refs_law();
}
