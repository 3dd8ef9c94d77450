//! Workers that check.

ghost use Rattle.std.specs.Prelude.{◌≡◌};
ghost use Rattle.play_check.specs.Playing.{end_by};

use play_outcome::{End, Outcome, Shows};
use repo_check::{Check, CheckReport};
use std::alloc::Global;
use store_api::Store;

/// One task that checks. Each step makes one operation of the store.
pub struct CheckWorker {
    alloc: Global,
    line: u32,
    check: Check,
}

// Written out, so that its proof stands here and not in each crate that drops a worker.
impl Drop for CheckWorker {
    fn drop(self) {
        let CheckWorker {
            alloc: _,
            line: _,
            check,
        } = self;
        drop(check);
    }
}

/// How a task on this line of the script ends by its check.
fn end_by(line: u32, report: CheckReport) -> End
    ensures { result ≡ end_by line report }
{
    let CheckReport { faults, result } = report;
    End::Checked {
        line,
        faults,
        result,
    }
}

impl CheckWorker {
    ghost use Rattle.std.specs.Prelude.{◌≡◌, ◌<◌, false, IsTrue};
    ghost use Rattle.store_api.specs.Plays.{Ended, IsLive, HasEnded, Acts};
    ghost use Rattle.play_outcome.specs.Ending.{is_failed};
    ghost use Rattle.play_check.specs.Playing.{check_task};
    ghost use Rattle.play_check.specs.Workers.{checking_rest, checking_left};

    /// A worker for the task on this line of the script. It takes no memory.
    pub fn new(alloc: Global, line: u32) -> CheckWorker
        ensures { checking_rest result ≡ check_task line }
    {
        CheckWorker {
            alloc,
            line,
            check: Check::new(alloc),
        }
    }

    /// Whether the worker has ended.
    pub fn has_ended(&self) -> bool
        ensures ended { IsTrue result → HasEnded (checking_rest self.now) }
        ensures live { result ≡ false → IsLive (checking_rest self.now) }
    {
        self.check.has_ended()
    }

    /// How the task ended.
    pub fn into_outcome(self) -> Outcome
        requires { HasEnded (checking_rest self) }
        ensures { checking_rest self ≡ Ended result }
    {
        let CheckWorker { alloc, line, check } = self;
        Outcome {
            shown: Shows::from_vec(Vec::new(alloc)),
            end: end_by(line, check.into_report()),
        }
    }

    /// One operation of the store.
    pub fn step<S: Store>(&mut self, store: &mut S)
        requires { IsLive (checking_rest self.old) }
        ensures acts { Acts is_failed (S.view store.old) (S.view store.new) (checking_rest self.old)
            (checking_rest self.new) }
        ensures falls { checking_left self.new < checking_left self.old }
    {
        self.check.step(store);
    }
}
