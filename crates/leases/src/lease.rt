//! The player that puts a lease.

use crate::placing::{Leasing, step_on};
use crate::witness::Witness;
use ice_ids::Id12;
use session::Session;
use std::alloc::Global;
use std::mem;
use store_api::{Refusal, Store};

/// How a lease ended.
#[derive(Debug, Drop)]
pub struct Leased {
    /// Its id, exactly where it may stand in the store: where its put was done, or failed. It is to be released then.
    pub placed: Option<Id12>,
    /// Whether the session's ref confirmed it, or why it isn't a lease of the session's base.
    pub result: Result<(), Refusal>,
}

/// A lease of a session's base. It puts the lease, with a reference to the base, under an id that the session drew; and then it
/// gets the session's branch, which has to stand at the session's version still, or the tombstone of the session's tag, which
/// has to be absent. So at that moment the ref names the base, and the lease is there: from then on collections keep what the
/// base reaches, whatever becomes of the ref, until the lease is released. Each step makes one operation of the store, and takes
/// no memory of its own.
///
/// Refusals: `IdTaken` where the lease's key was taken; `Moved` where the branch stood at another version or was absent, or the
/// tag had a tombstone; `StoreFault`, `NoMemory`.
#[derive(Drop)]
pub struct Lease {
    id: Id12,
    state: Leasing,
}

impl Lease {
    ghost use Rattle.std.specs.Prelude.{◌≡◌, ◌<◌, false, None, Err, IsTrue, IfErr};
    ghost use Rattle.store_api.specs.Plays.{Ended, IsLive, HasEnded, Acts, PlayIsPolite};
    ghost use Rattle.leases.specs.Plays.{MayRefuseStart, tells_fault, witness_of};
    ghost use Rattle.leases.specs.Starting.{Starts};
    ghost use Rattle.leases.specs.Resting.{lease_rest, lease_left};

    /// Begins a lease of the session's base, under the next id that the session draws. It is refused by `Unnamed` where the
    /// session was opened by the snapshot's own id, so that no ref can confirm it, which takes no memory; by `IdsSpent`; or by
    /// `NoMemory`. Then the session is as it was.
    pub fn start(alloc: Global, session: &mut Session) -> Result<Lease, Refusal>
        ensures starts { Starts session.old result session.new }
        ensures unnamed { witness_of session.old.origin ≡ None → result ≡ Err Refusal.Unnamed }
        ensures listed { IfErr result MayRefuseStart }
    {
        let Ok(named) = Witness::of(alloc, session.origin()) else {
            return Err(Refusal::NoMemory);
        };
        let Some(witness) = named else {
            return Err(Refusal::Unnamed);
        };
        let Some(id) = session.draw() else {
            return Err(Refusal::IdsSpent);
        };
        let base = session.base();
        Ok(Lease {
            id,
            state: Leasing::Put { base, witness },
        })
    }

    /// Whether it has ended.
    pub fn has_ended(&self) -> bool
        ensures ended { IsTrue result → HasEnded (lease_rest self.now) }
        ensures live { result ≡ false → IsLive (lease_rest self.now) }
    {
        match &self.state {
            Leasing::Ended(_) => true,
            Leasing::Put { .. } | Leasing::Confirm(_) => false,
        }
    }

    /// How it ended.
    pub fn into_leased(self) -> Leased
        requires { HasEnded (lease_rest self) }
        ensures { lease_rest self ≡ Ended result }
    {
        let state = self.state;
        match state {
            Leasing::Ended(leased) => leased,
            _ => unreachable!(),
        }
    }

    /// One operation of the store.
    pub fn step<S: Store>(&mut self, store: &mut S)
        requires live { IsLive (lease_rest self.old) }
        requires polite { IsTrue (S.view store.old).caller.tells
            → PlayIsPolite (lease_rest self.old) (S.view store.old).seen }
        ensures acts { Acts tells_fault (S.view store.old) (S.view store.new) (lease_rest self.old)
            (lease_rest self.new) }
        ensures falls { lease_left self.new < lease_left self.old }
    {
        // The old state is taken out.
        let state = mem::replace(
            &mut self.state,
            Leasing::Ended(Leased {
                placed: None,
                result: Ok(()),
            }),
        );
        let next = step_on(self.id, state, store);
        match mem::replace(&mut self.state, next) {
            Leasing::Ended(_) => {}
            _ => unreachable!(),
        }
    }
}
