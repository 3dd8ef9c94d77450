//! Workers.

use crate::session_worker::SessionWorker;
use crate::working::SessionTask;
use expiry::Terms;
use ice_ids::AnyIds;
use play_check::CheckWorker;
use play_collect::CollectWorker;
use play_expire::ExpireWorker;
use play_outcome::Outcome;
use play_refs::RefsWorker;
use play_script::Task;
use script_calls::Head;
use std::alloc::{AllocError, Global};
use store_api::Store;

/// A worker, by how its task begins.
#[derive(Drop)]
enum Player<'a> {
    Session(SessionWorker<'a>),
    Refs(RefsWorker<'a>),
    Collect(CollectWorker),
    Expire(ExpireWorker),
    Check(CheckWorker),
}

/// One task: it opens a session, plays the task's lines on it, and commits, or it calls on refs, collects, expires or checks. Each step
/// makes one operation of the store, and the local work that follows from its answer.
pub struct Worker<'a> {
    player: Player<'a>,
}

// Written out, so that its proof stands here and not in each crate that drops a worker.
impl Drop for Worker<'_> {
    fn drop(self) {
        let Worker { player } = self;
        drop(player);
    }
}

impl<'a> Worker<'a> {
    ghost use Rattle.std.specs.Prelude.{◌≡◌, ◌<◌, false, IsTrue, IfOk};
    ghost use Rattle.store_api.specs.Plays.{Ended, IsLive, HasEnded, Comes, Acts, PlayIsPolite};
    ghost use Rattle.play_outcome.specs.Ending.{is_failed};
    ghost use Rattle.play_tasks.specs.Playing.{task_play};
    ghost use Rattle.play_tasks.specs.Workers.{worker_rest, worker_left};

    /// A worker for a task. If it opens a session, that draws these ids.
    pub fn new(alloc: Global, task: &'a Task, ids: AnyIds) -> Result<Worker<'a>, AllocError>
        ensures { IfOk result (λ worker. Comes (task_play ids task.now) (worker_rest worker)) }
    {
        let body = task.body.as_slice();
        match &task.head {
            Head::Session(access) => {
                let task = SessionTask {
                    access,
                    line: task.line,
                    body,
                };
                let worker = SessionWorker::new(alloc, task, ids)?;
                Ok(Worker {
                    player: Player::Session(worker),
                })
            }
            Head::Refs => Ok(Worker {
                player: Player::Refs(RefsWorker::new(alloc, body)),
            }),
            Head::Collect { cutoff } => Ok(Worker {
                player: Player::Collect(CollectWorker::new(alloc, task.line, *cutoff)),
            }),
            Head::Expire {
                cutoff,
                drop_branches,
                drop_tags,
            } => {
                let terms = Terms {
                    cutoff: *cutoff,
                    drop_branches: *drop_branches,
                    drop_tags: *drop_tags,
                };
                Ok(Worker {
                    player: Player::Expire(ExpireWorker::new(alloc, task.line, terms)),
                })
            }
            Head::Check => Ok(Worker {
                player: Player::Check(CheckWorker::new(alloc, task.line)),
            }),
        }
    }

    /// Whether the worker has ended.
    pub fn has_ended(&self) -> bool
        ensures ended { IsTrue result → HasEnded (worker_rest self.now) }
        ensures live { result ≡ false → IsLive (worker_rest self.now) }
    {
        match &self.player {
            Player::Session(worker) => worker.has_ended(),
            Player::Refs(worker) => worker.has_ended(),
            Player::Collect(worker) => worker.has_ended(),
            Player::Expire(worker) => worker.has_ended(),
            Player::Check(worker) => worker.has_ended(),
        }
    }

    /// What the task showed and how it ended.
    pub fn into_outcome(self) -> Outcome
        requires { HasEnded (worker_rest self) }
        ensures { worker_rest self.entry ≡ Ended result }
    {
        let Worker { player } = self;
        match player {
            Player::Session(worker) => worker.into_outcome(),
            Player::Refs(worker) => worker.into_outcome(),
            Player::Collect(worker) => worker.into_outcome(),
            Player::Expire(worker) => worker.into_outcome(),
            Player::Check(worker) => worker.into_outcome(),
        }
    }

    /// One operation of the store.
    pub fn step<S: Store>(&mut self, store: &mut S)
        requires live { IsLive (worker_rest self.old) }
        requires polite { IsTrue (S.view store.old).caller.tells
            → PlayIsPolite (worker_rest self.old) (S.view store.old).seen }
        ensures acts { Acts is_failed (S.view store.old) (S.view store.new) (worker_rest self.old)
            (worker_rest self.new) }
        ensures falls { worker_left self.new < worker_left self.old }
    {
        match &mut self.player {
            Player::Session(worker) => worker.step(store),
            Player::Refs(worker) => worker.step(store),
            Player::Collect(worker) => worker.step(store),
            Player::Expire(worker) => worker.step(store),
            Player::Check(worker) => worker.step(store),
        }
    }
}
