//! The steps of a lease.

ghost use Rattle.std.specs.Prelude.{◌≡◌, ◌<◌, false, None, Some, Ok, Err, IsTrue};
ghost use Rattle.ref_file.specs.Refs.{ref_bytes};
ghost use Rattle.object_store.specs.declared.events.Op.TheVariants as Op;
ghost use Rattle.object_store.specs.declared.events.Reply.TheVariants as Reply;
ghost use Rattle.object_store.specs.declared.keys.Key.TheVariants as Key;
ghost use Rattle.object_store.specs.declared.keys.Why.TheVariants as Why;
ghost use Rattle.store_api.specs.declared.machines.Refusal.TheVariants as Refusal;
ghost use Rattle.store_api.specs.Callers.{MayCall};
ghost use Rattle.store_api.specs.Plays.{Acts, IsLive, PlayIsPolite};
ghost use Rattle.leases.specs.Plays.{lease_play, confirm_play, after_put, after_confirm, ends_with, stands_at, has_none, fails, tells_fault};
ghost use Rattle.leases.specs.inside.Answered.{Follows, CalmAfter};
ghost use Rattle.leases.specs.Resting.{leasing_rest, leasing_left};

use crate::lease::Leased;
use crate::witness::Witness;
use ice_ids::Id12;
use ref_file::ref_write;
use store_api::{Got, Key, New, Refusal, Store, StoreFault, Version, Why};

/// The operation that comes next.
#[derive(Drop)]
pub enum Leasing {
    /// The lease is put, with a reference to this base; this has to confirm it then.
    Put { base: Id12, witness: Witness },
    /// What has to confirm it is got.
    Confirm(Witness),
    /// It has ended.
    Ended(Leased),
}

/// One step of a lease that stands here.
pub(crate) fn step_on<S: Store>(id: Id12, state: Leasing, store: &mut S) -> Leasing
    requires live { IsLive (leasing_rest id state) }
    requires polite { IsTrue (S.view store.old).caller.tells
        → PlayIsPolite (leasing_rest id state) (S.view store.old).seen }
    ensures acts { Acts tells_fault (S.view store.old) (S.view store.new) (leasing_rest id state)
        (leasing_rest id result) }
    ensures falls { leasing_left result < leasing_left state }
{
    match state {
        Leasing::Put { base, witness } => step_put(id, base, witness, store),
        Leasing::Confirm(witness) => step_confirm(id, witness, store),
        Leasing::Ended(_) => unreachable!(),
    }
}

/// Puts the lease.
fn step_put<S: Store>(id: Id12, base: Id12, witness: Witness, store: &mut S) -> Leasing
    requires { MayCall (S.view store.old) (Op.PutNew (Key.Lease id) (ref_bytes base) Why.Lease) }
    ensures acts { Acts tells_fault (S.view store.old) (S.view store.new)
        (lease_play id base witness) (leasing_rest id result) }
    ensures falls { leasing_left result < 2 }
{
    let file = ref_write(base);
    let answer = store.put_new(&Key::Lease(id), &file, Why::Lease);
    after_put(id, witness, answer)
}

/// Where a lease stands behind the answer to its put. A put that failed may have been done.
fn after_put(id: Id12, witness: Witness, answer: Result<New, StoreFault>) -> Leasing
    ensures follows { Follows (λ new. Reply.New new) (ends_with None (Err Refusal.NoMemory))
        (after_put id witness) answer (leasing_rest id result) }
    ensures calm { CalmAfter tells_fault answer (leasing_rest id result) }
    ensures falls { leasing_left result < 2 }
{
    match answer {
        Ok(New::Done { .. }) => Leasing::Confirm(witness),
        Ok(New::Present { .. }) => ended(None, Err(Refusal::IdTaken(Key::Lease(id)))),
        Err(StoreFault::NoMemory) => ended(None, Err(Refusal::NoMemory)),
        // It may have been done, so it is to be released.
        Err(StoreFault::Failed) => ended(Some(id), Err(Refusal::StoreFault)),
    }
}

/// Gets what has to confirm the lease.
fn step_confirm<S: Store>(id: Id12, witness: Witness, store: &mut S) -> Leasing
    ensures acts { Acts tells_fault (S.view store.old) (S.view store.new) (confirm_play id witness)
        (leasing_rest id result) }
    ensures falls { leasing_left result < 1 }
{
    match witness {
        Witness::Branch(tip) => {
            let answer = store.get(&Key::Branch(tip.branch));
            after_branch(id, tip.version, answer)
        }
        Witness::Tag(tag) => {
            let answer = store.get(&Key::Tombstone(tag));
            after_tombstone(id, answer)
        }
    }
}

/// Where a lease ends behind the get of the session's branch, which has to stand at this version.
fn after_branch(id: Id12, version: Version, answer: Result<Got, StoreFault>) -> Leasing
    ensures follows { Follows (λ got. Reply.Got got) (ends_with (Some id) (Err Refusal.NoMemory))
        (after_confirm id (stands_at version)) answer (leasing_rest id result) }
    ensures calm { CalmAfter tells_fault answer (leasing_rest id result) }
    ensures falls { leasing_left result < 1 }
{
    match answer {
        Ok(got) => ended(Some(id), stands_at(version, &got)),
        Err(StoreFault::Failed) => unanswered(id, Refusal::StoreFault),
        Err(StoreFault::NoMemory) => unanswered(id, Refusal::NoMemory),
    }
}

/// Where a lease ends behind the get of the tombstone of the session's tag, which has to be absent.
fn after_tombstone(id: Id12, answer: Result<Got, StoreFault>) -> Leasing
    ensures follows { Follows (λ got. Reply.Got got) (ends_with (Some id) (Err Refusal.NoMemory))
        (after_confirm id has_none) answer (leasing_rest id result) }
    ensures calm { CalmAfter tells_fault answer (leasing_rest id result) }
    ensures falls { leasing_left result < 1 }
{
    match answer {
        Ok(got) => ended(Some(id), has_none(&got)),
        Err(StoreFault::Failed) => unanswered(id, Refusal::StoreFault),
        Err(StoreFault::NoMemory) => unanswered(id, Refusal::NoMemory),
    }
}

/// Whether a branch stands at this version; else `Moved`, with the one at which it stands, if it is there.
fn stands_at(wanted: Version, got: &Got) -> Result<(), Refusal>
    ensures told { result ≡ stands_at wanted (Reply.Got got.now) }
    ensures calm { fails result ≡ false }
{
    match got {
        Got::Found { version, .. } => {
            if version.0 == wanted.0 {
                Ok(())
            } else {
                Err(Refusal::Moved {
                    found: Some(*version),
                })
            }
        }
        Got::Absent { .. } => Err(Refusal::Moved { found: None }),
    }
}

/// Whether a tag has no tombstone; else `Moved`, with the tombstone's version.
fn has_none(got: &Got) -> Result<(), Refusal>
    ensures told { result ≡ has_none (Reply.Got got.now) }
    ensures calm { fails result ≡ false }
{
    match got {
        Got::Found { version, .. } => Err(Refusal::Moved {
            found: Some(*version),
        }),
        Got::Absent { .. } => Ok(()),
    }
}

/// A lease that may stand, and ended without an answer.
fn unanswered(id: Id12, why: Refusal) -> Leasing
    ensures { result ≡ Leasing.Ended (record { placed = Some id; result = Err why }) }
{
    ended(Some(id), Err(why))
}

/// A lease that has ended so.
fn ended(placed: Option<Id12>, told: Result<(), Refusal>) -> Leasing
    ensures { result ≡ Leasing.Ended (record { placed = placed; result = told }) }
{
    Leasing::Ended(Leased {
        placed,
        result: told,
    })
}
