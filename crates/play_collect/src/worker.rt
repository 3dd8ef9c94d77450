//! Workers that collect.

ghost use Rattle.std.specs.Prelude.{◌≡◌};
ghost use Rattle.play_collect.specs.Playing.{end_by};

use chunk_gc::{Collect, Collected};
use play_outcome::{End, Outcome, Shows};
use std::alloc::Global;
use store_api::Store;

/// One task that collects. Each step makes one operation of the store.
pub struct CollectWorker {
    alloc: Global,
    line: u32,
    collect: Collect,
}

// Written out, so that its proof stands here and not in each crate that drops a worker.
impl Drop for CollectWorker {
    fn drop(self) {
        let CollectWorker {
            alloc: _,
            line: _,
            collect,
        } = self;
        drop(collect);
    }
}

/// How a task on this line of the script ends by its collection.
fn end_by(line: u32, collected: Collected) -> End
    ensures { result ≡ end_by line collected.removed collected.result }
{
    let Collected { removed, result } = collected;
    match result {
        Ok(()) => End::Collected(removed),
        Err(why) => End::Stopped { line, why, removed },
    }
}

impl CollectWorker {
    ghost use Rattle.std.specs.Prelude.{◌≡◌, ◌<◌, false, IsTrue};
    ghost use Rattle.store_api.specs.Plays.{Ended, IsLive, HasEnded, Acts, PlayIsPolite};
    ghost use Rattle.play_outcome.specs.Ending.{is_failed};
    ghost use Rattle.play_collect.specs.Playing.{collect_task};
    ghost use Rattle.play_collect.specs.Workers.{collecting_rest, collecting_left};

    /// A worker for the task on this line of the script, with a cutoff in microseconds. It takes no memory.
    pub fn new(alloc: Global, line: u32, cutoff: u64) -> CollectWorker
        ensures { collecting_rest result ≡ collect_task line cutoff }
    {
        CollectWorker {
            alloc,
            line,
            collect: Collect::new(alloc, cutoff),
        }
    }

    /// Whether the worker has ended.
    pub fn has_ended(&self) -> bool
        ensures ended { IsTrue result → HasEnded (collecting_rest self.now) }
        ensures live { result ≡ false → IsLive (collecting_rest self.now) }
    {
        self.collect.has_ended()
    }

    /// How the task ended.
    pub fn into_outcome(self) -> Outcome
        requires { HasEnded (collecting_rest self) }
        ensures { collecting_rest self ≡ Ended result }
    {
        let CollectWorker {
            alloc,
            line,
            collect,
        } = self;
        Outcome {
            shown: Shows::from_vec(Vec::new(alloc)),
            end: end_by(line, collect.into_outcome()),
        }
    }

    /// One operation of the store.
    pub fn step<S: Store>(&mut self, store: &mut S)
        requires live { IsLive (collecting_rest self.old) }
        requires polite { IsTrue (S.view store.old).caller.tells
            → PlayIsPolite (collecting_rest self.old) (S.view store.old).seen }
        ensures acts { Acts is_failed (S.view store.old) (S.view store.new)
            (collecting_rest self.old) (collecting_rest self.new) }
        ensures falls { collecting_left self.new < collecting_left self.old }
    {
        self.collect.step(store);
    }
}
