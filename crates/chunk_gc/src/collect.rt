//! The player that collects: it marks, and then removes what is doomed.

ghost use Rattle.std.specs.Prelude.{◌≡◌, true};
ghost use Rattle.chunk_gc.specs.inside.Collecting.{is_standing};

use crate::mark::Mark;
use crate::removing::{NOTHING, step_on};
use crate::standing::{Collected, Collecting};
use std::alloc::Global;
use std::mem;
use store_api::Store;

/// A collection. It lists refs and leases, gets each, and marks what they reach; it lists all objects; and then it removes those that
/// are older than the cutoff and not marked, one after the other, snapshots first, then logs, manifests and objects with chunks.
/// Each step makes one operation of the store. What it removed it tells whatever its end.
///
/// Refusals: `CutoffAhead` at its first operation, where the cutoff is later than the store's time; `Missing`, `BadFile` and
/// `TooDeep` before anything is removed; `StoreFault` and `NoMemory` at any time.
#[derive(Drop)]
pub struct Collect {
    state: Collecting,
    ghost stands: { is_standing state ≡ true },
}

impl Collect {
    ghost use Rattle.std.specs.Prelude.{◌≡◌, ◌<◌, false, IsTrue};
    ghost use Rattle.store_api.specs.Plays.{Ended, IsLive, HasEnded, Acts, PlayIsPolite};
    ghost use Rattle.chunk_gc.specs.Plays.{collect_play, tells_failure};
    ghost use Rattle.chunk_gc.specs.Resting.{collect_rest, collect_left};

    /// Before its first operation, with a cutoff in microseconds. It takes no memory.
    pub fn new(alloc: Global, cutoff: u64) -> Collect
        ensures { collect_rest result ≡ collect_play cutoff }
    {
        Collect {
            state: Collecting::Marking(Mark::new(alloc, cutoff)),
        }
    }

    /// Whether it has ended.
    pub fn has_ended(&self) -> bool
        ensures ended { IsTrue result → HasEnded (collect_rest self.now) }
        ensures live { result ≡ false → IsLive (collect_rest self.now) }
    {
        match &self.state {
            Collecting::Ended(_) => true,
            Collecting::Marking(_) | Collecting::Removing { .. } => false,
        }
    }

    /// What it removed, and how it ended.
    pub fn into_outcome(self) -> Collected
        requires { HasEnded (collect_rest self) }
        ensures { collect_rest self ≡ Ended result }
    {
        let state = self.state;
        match state {
            Collecting::Ended(outcome) => outcome,
            _ => unreachable!(),
        }
    }

    /// One operation of the store.
    pub fn step<S: Store>(&mut self, store: &mut S)
        requires live { IsLive (collect_rest self.old) }
        requires polite { IsTrue (S.view store.old).caller.tells
            → PlayIsPolite (collect_rest self.old) (S.view store.old).seen }
        ensures acts { Acts tells_failure (S.view store.old) (S.view store.new)
            (collect_rest self.old) (collect_rest self.new) }
        ensures falls { collect_left self.new < collect_left self.old }
    {
        // The old state is taken out.
        let state = mem::replace(
            &mut self.state,
            Collecting::Ended(Collected {
                removed: NOTHING,
                result: Ok(()),
            }),
        );
        let next = step_on(state, store);
        match mem::replace(&mut self.state, next) {
            Collecting::Ended(_) => {}
            _ => unreachable!(),
        }
    }
}
