//! The release of a lease.

ghost use Rattle.std.specs.Prelude.{Err, IfErr};
ghost use Rattle.object_store.specs.declared.events.Reply.TheVariants as Reply;
ghost use Rattle.store_api.specs.declared.machines.Refusal.TheVariants as Refusal;
ghost use Rattle.store_api.specs.Plays.{Acts, Ended};
ghost use Rattle.leases.specs.Plays.{release_play, after_release, fails, MayRefuseRelease};
ghost use Rattle.leases.specs.inside.Answered.{Follows, CalmAfter};

use ice_ids::Id12;
use store_api::{Gone, Key, Refusal, Store, StoreFault, Why};

/// Releases a lease, by one operation of the store: it removes the lease, and an absent one is fine. Refusals: `StoreFault`, and
/// then it was removed or not; `NoMemory`, and then nothing was done.
pub fn release<S: Store>(id: Id12, store: &mut S) -> Result<(), Refusal>
    ensures acts { Acts fails (S.view store.old) (S.view store.new) (release_play id)
        (Ended result) }
    ensures listed { IfErr result MayRefuseRelease }
{
    let answer = store.remove(&Key::Lease(id), Why::Lease);
    released(answer)
}

/// What the answer to the removal of a lease tells.
fn released(answer: Result<Gone, StoreFault>) -> Result<(), Refusal>
    ensures follows { Follows (λ gone. Reply.Gone gone) (Ended (Err Refusal.NoMemory)) after_release
        answer (Ended result) }
    ensures calm { CalmAfter fails answer (Ended result) }
    ensures listed { IfErr result MayRefuseRelease }
{
    match answer {
        Ok(_) => Ok(()),
        Err(StoreFault::Failed) => Err(Refusal::StoreFault),
        Err(StoreFault::NoMemory) => Err(Refusal::NoMemory),
    }
}
