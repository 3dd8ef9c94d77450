//! The player that checks.

use crate::course::Course;
use crate::standing::{CheckReport, Checking};
use std::alloc::Global;
use std::mem;
use store_api::{Refusal, Store};

/// A check. It lists the branches and gets each, lists the tags and gets each that has no tombstone; a ref that is gone by then is
/// passed over. Then, ref by ref, it walks from the ref's snapshot along the parents. Of each snapshot that no walk has met before
/// it gets the log (the initial one has none), the manifests, each for the node that names it, and behind each manifest the
/// objects of the parts that the manifest names for that node; then it goes on to the parent. A manifest is got once for a node
/// and the length of its chunks, and an object once for a part and that length. Each step makes one operation of the store. The
/// faults it tells whatever its end; what has one leads no further.
///
/// Refusals: `Unsound` at its end, where there are faults; `TooDeep` where a walk has got 65,536 snapshots without its end;
/// `StoreFault` and `NoMemory` at any time.
#[derive(Drop)]
pub struct Check {
    course: Course,
    state: Checking,
}

impl Check {
    ghost use Rattle.std.specs.Prelude.{◌≡◌, ◌<◌, false, IsTrue};
    ghost use Rattle.store_api.specs.Plays.{Ended, IsLive, HasEnded, Acts};
    ghost use Rattle.repo_check.specs.Plays.{check_play, tells_failure};
    ghost use Rattle.repo_check.specs.Resting.{check_rest, check_left};

    /// Before its first operation. It takes no memory.
    pub fn new(alloc: Global) -> Check
        ensures { check_rest result ≡ check_play }
    {
        Check {
            course: Course::new(alloc),
            state: Checking::Branches,
        }
    }

    /// Whether it has ended.
    pub fn has_ended(&self) -> bool
        ensures ended { IsTrue result → HasEnded (check_rest self.now) }
        ensures live { result ≡ false → IsLive (check_rest self.now) }
    {
        match &self.state {
            Checking::Ended(_) => true,
            Checking::Branches | Checking::Branch(_) | Checking::Tags | Checking::Tag(_) => false,
            Checking::Snapshot(_) | Checking::Log(..) | Checking::File(..) | Checking::Part(..) => {
                false
            }
        }
    }

    /// The faults, and how it ended.
    pub fn into_report(self) -> CheckReport
        requires { HasEnded (check_rest self) }
        ensures { check_rest self ≡ Ended result }
    {
        let Check { course, state } = self;
        match state {
            Checking::Ended(result) => CheckReport {
                faults: course.into_faults(),
                result,
            },
            _ => unreachable!(),
        }
    }

    /// One operation of the store.
    pub fn step<S: Store>(&mut self, store: &mut S)
        requires { IsLive (check_rest self.old) }
        ensures acts { Acts tells_failure (S.view store.old) (S.view store.new)
            (check_rest self.old) (check_rest self.new) }
        ensures falls { check_left self.new < check_left self.old }
    {
        // The old state is taken out.
        let state = mem::replace(&mut self.state, Checking::Ended(Err(Refusal::NoMemory)));
        let next = self.course.step_on(state, store);
        drop(mem::replace(&mut self.state, next));
    }
}
