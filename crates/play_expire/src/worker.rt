//! Workers that expire.

ghost use Rattle.std.specs.Prelude.{◌≡◌};
ghost use Rattle.play_expire.specs.Playing.{end_by};

use expiry::{Expire, Expired, Terms};
use play_outcome::{End, Outcome, Shows};
use std::alloc::Global;
use store_api::Store;

/// One task that expires. Each step makes one operation of the store.
pub struct ExpireWorker {
    alloc: Global,
    line: u32,
    expire: Expire,
}

// Written out, so that its proof stands here and not in each crate that drops a worker.
impl Drop for ExpireWorker {
    fn drop(self) {
        let ExpireWorker {
            alloc: _,
            line: _,
            expire,
        } = self;
        drop(expire);
    }
}

/// How a task on this line of the script ends by its expiry.
fn end_by(line: u32, expired: Expired) -> End
    ensures { result ≡ end_by line expired }
{
    let Expired { cases, result } = expired;
    End::Expired {
        line,
        cases,
        result,
    }
}

impl ExpireWorker {
    ghost use Rattle.std.specs.Prelude.{◌≡◌, ◌<◌, false, IsTrue};
    ghost use Rattle.store_api.specs.Plays.{Ended, IsLive, HasEnded, Acts, PlayIsPolite};
    ghost use Rattle.play_outcome.specs.Ending.{is_failed};
    ghost use Rattle.play_expire.specs.Playing.{expire_task};
    ghost use Rattle.play_expire.specs.Workers.{expiring_rest, expiring_left};

    /// A worker for the task on this line of the script, that expires on these terms. It takes no memory.
    pub fn new(alloc: Global, line: u32, terms: Terms) -> ExpireWorker
        ensures { expiring_rest result ≡ expire_task line terms }
    {
        ExpireWorker {
            alloc,
            line,
            expire: Expire::new(alloc, terms),
        }
    }

    /// Whether the worker has ended.
    pub fn has_ended(&self) -> bool
        ensures ended { IsTrue result → HasEnded (expiring_rest self.now) }
        ensures live { result ≡ false → IsLive (expiring_rest self.now) }
    {
        self.expire.has_ended()
    }

    /// How the task ended.
    pub fn into_outcome(self) -> Outcome
        requires { HasEnded (expiring_rest self) }
        ensures { expiring_rest self ≡ Ended result }
    {
        let ExpireWorker {
            alloc,
            line,
            expire,
        } = self;
        Outcome {
            shown: Shows::from_vec(Vec::new(alloc)),
            end: end_by(line, expire.into_outcome()),
        }
    }

    /// One operation of the store.
    pub fn step<S: Store>(&mut self, store: &mut S)
        requires live { IsLive (expiring_rest self.old) }
        requires polite { IsTrue (S.view store.old).caller.tells
            → PlayIsPolite (expiring_rest self.old) (S.view store.old).seen }
        ensures acts { Acts is_failed (S.view store.old) (S.view store.new) (expiring_rest self.old)
            (expiring_rest self.new) }
        ensures falls { expiring_left self.new < expiring_left self.old }
    {
        self.expire.step(store);
    }
}
