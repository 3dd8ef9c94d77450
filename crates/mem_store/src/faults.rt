//! Stores that fail planned calls.

ghost use Rattle.std.specs.Prelude.{◌≡◌, false, IfOk};
ghost use Rattle.object_store.specs.Callers.{Called, Fits, has_failed};
ghost use Rattle.mem_store.specs.Lent.{op_lent};
ghost use Rattle.mem_store.specs.Failing.{faulty_view, GoesByPlan};

use crate::failing_stores::{Failing, Telling};
use crate::plans::planned;
use crate::requests::OpRef;
use object_store::{
    Gone, GoneAt, Got, Key, Listed, New, ObjectStore, Op, Over, Part, Reply, Rule, StoreFault,
    Version, Viewed, WholeStore, Why,
};
use std::marker::Model;

/// A store that fails the planned calls of the one beneath. A call's number is that of the events since the store's
/// making, and its flag says whether the operation is done first. Where a number is planned twice, the first counts.
#[derive(Debug, Drop)]
pub struct FaultStore<S: Telling> {
    inner: S,
    plan: Vec<(u64, bool)>,
    made_at: usize,
}

impl<S: Telling> Model for FaultStore<S> {
    ghost use Rattle.std.specs.Prelude.{◌≤◌, length};
    ghost use Rattle.mem_store.specs.Failing.{ByPlan};

    ghost Value = { ByPlan S };

    ghost view = { λ s. record { inner = s.inner; plan = s.plan.items; made_at = s.made_at } };

    ghost invariant = { λ s. s.made_at ≤ length (S.view s.inner).seen };
}

impl<S: Telling> FaultStore<S> {
    ghost use Rattle.std.specs.Prelude.{◌≡◌, [], false, length, IfOk};
    ghost use Rattle.object_store.specs.Callers.{Called, Fits};
    ghost use Rattle.object_store.specs.Callers.{has_failed};
    ghost use Rattle.mem_store.specs.Lent.{op_lent};
    ghost use Rattle.mem_store.specs.Failing.{since_making, faulty_view, planned_next, GoesByPlan};

    /// This store, with these calls to fail.
    pub fn new(inner: S, plan: Vec<(u64, bool)>) -> FaultStore<S>
        ensures inner { result.inner ≡ inner }
        ensures plan { result.plan ≡ plan.items }
        ensures since { since_making S.view result ≡ [] }
    {
        let made_at = inner.events();
        FaultStore {
            inner,
            plan,
            made_at,
        }
    }

    /// The store beneath.
    pub fn inner(&self) -> &S
        ensures { result.now ≡ self.now.inner }
    {
        &self.inner
    }

    /// What is planned for the next call.
    fn planned(&self) -> Option<bool>
        ensures { result ≡ planned_next S.view self.now }
    {
        let number = self.inner.events() - self.made_at;
        planned(&self.plan, number as u64)
    }
}

/// The next operation, which fails where that is planned.
fn attempt<R: Rule, S: Failing<R>>(
    store: &mut FaultStore<S>,
    op: &OpRef<'_>,
) -> Result<Reply, StoreFault>
    ensures call { Called R.may (λ reply. reply) (op_lent op.now) result
        (faulty_view S.view store.old) (faulty_view S.view store.new) }
    ensures plan { GoesByPlan R.may S.view S.does S.fails (op_lent op.now) result store.old
        store.new }
    ensures fits { IfOk result (Fits (op_lent op.now)) }
    ensures answered { IfOk result (λ reply. has_failed reply ≡ false) }
{
    match store.planned() {
        None => store.inner.make(op),
        Some(done) => Err(store.inner.fail(op, done)),
    }
}

impl<S: Telling> Viewed for FaultStore<S> {
    ghost use Rattle.mem_store.specs.Failing.{faulty_view};

    ghost view = { λ s. faulty_view S.view s };
}

impl<R: Rule, S: Failing<R>> ObjectStore<R> for FaultStore<S> {
    ghost use Rattle.object_store.specs.Callers.{Called};
    ghost use Rattle.mem_store.specs.Failing.{faulty_view, as_reply, GoesByPlan};

    fn get(&mut self, key: &Key) -> Result<Got, StoreFault>
        ensures call { Called R.may (λ got. Reply.Got got) (Op.Get key.now) result
            (faulty_view S.view self.old) (faulty_view S.view self.new) }
        ensures plan { GoesByPlan R.may S.view S.does S.fails (Op.Get key.now)
            (as_reply (λ got. Reply.Got got) result) self.old self.new }
    {
        match attempt::<R, S>(self, &OpRef::Get { key })? {
            Reply::Got(got) => Ok(got),
            _ => unreachable!(),
        }
    }

    fn put_new(&mut self, key: &Key, bytes: &[u8], why: Why) -> Result<New, StoreFault>
        ensures call { Called R.may (λ new. Reply.New new) (Op.PutNew key.now bytes.now why) result
            (faulty_view S.view self.old) (faulty_view S.view self.new) }
        ensures plan { GoesByPlan R.may S.view S.does S.fails (Op.PutNew key.now bytes.now why)
            (as_reply (λ new. Reply.New new) result) self.old self.new }
    {
        match attempt::<R, S>(self, &OpRef::PutNew { key, bytes, why })? {
            Reply::New(new) => Ok(new),
            _ => unreachable!(),
        }
    }

    fn put_over(
        &mut self,
        key: &Key,
        bytes: &[u8],
        old: Version,
        why: Why,
    ) -> Result<Over, StoreFault>
        ensures call { Called R.may (λ over. Reply.Over over) (Op.PutOver key.now bytes.now old why)
            result (faulty_view S.view self.old) (faulty_view S.view self.new) }
        ensures plan { GoesByPlan R.may S.view S.does S.fails (Op.PutOver key.now bytes.now old why)
            (as_reply (λ over. Reply.Over over) result) self.old self.new }
    {
        let op = OpRef::PutOver {
            key,
            bytes,
            old,
            why,
        };
        match attempt::<R, S>(self, &op)? {
            Reply::Over(over) => Ok(over),
            _ => unreachable!(),
        }
    }

    fn remove(&mut self, key: &Key, why: Why) -> Result<Gone, StoreFault>
        ensures call { Called R.may (λ gone. Reply.Gone gone) (Op.Remove key.now why) result
            (faulty_view S.view self.old) (faulty_view S.view self.new) }
        ensures plan { GoesByPlan R.may S.view S.does S.fails (Op.Remove key.now why)
            (as_reply (λ gone. Reply.Gone gone) result) self.old self.new }
    {
        match attempt::<R, S>(self, &OpRef::Remove { key, why })? {
            Reply::Gone(gone) => Ok(gone),
            _ => unreachable!(),
        }
    }

    fn remove_at(&mut self, key: &Key, old: Version, why: Why) -> Result<GoneAt, StoreFault>
        ensures call { Called R.may (λ gone. Reply.GoneAt gone) (Op.RemoveAt key.now old why) result
            (faulty_view S.view self.old) (faulty_view S.view self.new) }
        ensures plan { GoesByPlan R.may S.view S.does S.fails (Op.RemoveAt key.now old why)
            (as_reply (λ gone. Reply.GoneAt gone) result) self.old self.new }
    {
        match attempt::<R, S>(self, &OpRef::RemoveAt { key, old, why })? {
            Reply::GoneAt(gone) => Ok(gone),
            _ => unreachable!(),
        }
    }

    fn list(&mut self, part: Part) -> Result<Listed, StoreFault>
        ensures call { Called R.may (λ listed. Reply.Listed listed) (Op.List part) result
            (faulty_view S.view self.old) (faulty_view S.view self.new) }
        ensures plan { GoesByPlan R.may S.view S.does S.fails (Op.List part)
            (as_reply (λ listed. Reply.Listed listed) result) self.old self.new }
    {
        match attempt::<R, S>(self, &OpRef::List { part })? {
            Reply::Listed(listed) => Ok(listed),
            _ => unreachable!(),
        }
    }
}

impl<S: Telling> WholeStore for FaultStore<S> {
    ghost use Rattle.std.specs.Prelude.{◌≡◌};
    ghost use Rattle.object_store.specs.Callers.{as_client};
    ghost use Rattle.mem_store.specs.Failing.{since_making, faulty_view, ServesBeneath};

    ghost tells = { S.tells };

    fn set_client(&mut self, client: u32)
        ensures view { faulty_view S.view self.new ≡ as_client client
            (faulty_view S.view self.old) }
        ensures exact { ServesBeneath S.serves client self.old self.new }
        ensures since { since_making S.view self.new ≡ since_making S.view self.old }
    {
        self.inner.serve(client);
    }

    ghost told = { λ s. S.told s.inner };

    ghost alone = { λ s. S.alone s.inner };
}

impl<S: Telling> Telling for FaultStore<S> {
    ghost use Rattle.mem_store.specs.Failing.{ServesBeneath};

    ghost serves = { λ client old new. ServesBeneath S.serves client old new };

    fn events(&self) -> usize {
        self.inner.events()
    }

    fn serve(&mut self, client: u32) {
        self.set_client(client);
    }

    ghost says = { S.says };
}

impl<R: Rule, S: Failing<R>> Failing<R> for FaultStore<S> {
    ghost use Rattle.mem_store.specs.Failing.{GoesByPlan, FailsBeneath};

    ghost does = { λ op result old new. GoesByPlan R.may S.view S.does S.fails op result old new };

    ghost fails = { λ done op fault old new. FailsBeneath S.fails done op fault old new };

    fn make(&mut self, op: &OpRef<'_>) -> Result<Reply, StoreFault> {
        attempt::<R, S>(self, op)
    }

    fn fail(&mut self, op: &OpRef<'_>, done: bool) -> StoreFault {
        self.inner.fail(op, done)
    }
}
