//! The player that expires.

ghost use Rattle.std.specs.Prelude.{◌≡◌, true};
ghost use Rattle.expiry.specs.inside.Expiring.{is_standing};

use crate::going::step_on;
use crate::register::Register;
use crate::standing::{Expired, Expiring};
use crate::terms::Terms;
use cleanup_reports::RefCases;
use std::alloc::Global;
use std::mem;
use store_api::Store;

/// An expiry. It lists the branches, and does each one wholly, in order; then it lists the tags, and does each that has no
/// tombstone. Of each it gets the ref, the snapshot that it names, and that one's parents, down to the first that was flushed
/// before the cutoff. A ref whose own snapshot was is dropped, where the terms say so; otherwise the last snapshot before the
/// first old one is put over, with the initial snapshot as its parent and all else as it was. What was done is conditional on
/// what was read. Each step makes one operation of the store. What became of the refs it tells whatever its end.
///
/// Refusals: `Missing`, `BadFile`, `TooDeep` and `TooLarge` of what a ref's history has, before anything of this ref is
/// changed; `StoreFault` and `NoMemory` at any time.
#[derive(Drop)]
pub struct Expire {
    alloc: Global,
    terms: Terms,
    state: Expiring,
    ghost stands: { is_standing state ≡ true },
}

impl Expire {
    ghost use Rattle.std.specs.Prelude.{◌≡◌, ◌<◌, false, IsTrue};
    ghost use Rattle.store_api.specs.Plays.{Ended, IsLive, HasEnded, Acts, PlayIsPolite};
    ghost use Rattle.expiry.specs.Plays.{expire_play, tells_failure};
    ghost use Rattle.expiry.specs.Resting.{expire_rest, expire_left};

    /// Before its first operation. It takes no memory.
    pub fn new(alloc: Global, terms: Terms) -> Expire
        ensures { expire_rest result ≡ expire_play terms }
    {
        Expire {
            alloc,
            terms,
            state: Expiring::Listing(Register::new(alloc)),
        }
    }

    /// Whether it has ended.
    pub fn has_ended(&self) -> bool
        ensures ended { IsTrue result → HasEnded (expire_rest self.now) }
        ensures live { result ≡ false → IsLive (expire_rest self.now) }
    {
        match &self.state {
            Expiring::Ended(_) => true,
            Expiring::Listing(_) | Expiring::Looking { .. } => false,
            Expiring::Dropping { .. } | Expiring::Cutting { .. } => false,
        }
    }

    /// What became of the refs, and how it ended.
    pub fn into_outcome(self) -> Expired
        requires { HasEnded (expire_rest self) }
        ensures { expire_rest self ≡ Ended result }
    {
        let state = self.state;
        match state {
            Expiring::Ended(outcome) => outcome,
            _ => unreachable!(),
        }
    }

    /// One operation of the store.
    pub fn step<S: Store>(&mut self, store: &mut S)
        requires live { IsLive (expire_rest self.old) }
        requires polite { IsTrue (S.view store.old).caller.tells
            → PlayIsPolite (expire_rest self.old) (S.view store.old).seen }
        ensures acts { Acts tells_failure (S.view store.old) (S.view store.new)
            (expire_rest self.old) (expire_rest self.new) }
        ensures falls { expire_left self.new < expire_left self.old }
    {
        // The old state is taken out.
        let state = mem::replace(
            &mut self.state,
            Expiring::Ended(Expired {
                cases: RefCases::new(self.alloc),
                result: Ok(()),
            }),
        );
        let next = step_on(self.alloc, self.terms, state, store);
        match mem::replace(&mut self.state, next) {
            Expiring::Ended(_) => {}
            _ => unreachable!(),
        }
    }
}
