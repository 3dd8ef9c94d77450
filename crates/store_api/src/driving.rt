//! Machines that know no store, and the one function that makes their operations.

ghost use Rattle.std.specs.Prelude.{◌≡◌, ◌<◌, IfOk, IfErr, IsTrue, Err, false};
ghost use Rattle.store_api.specs.Callers.{Called, MayCall, Fits};
ghost use Rattle.store_api.specs.Program.{IsAsk, IsDone, NextIsPolite, Steps};
ghost use Rattle.store_api.specs.Driving.{Asks, AskedBy, Awaits, Took, has_failed, op_of};

use crate::{Key, Next, Part, Refusal, Reply, Store, StoreFault, Version, Why};
use ice_base::Bytes;
use std::alloc::AllocError;

/// The bytes of a put: made for it, or held by the machine.
#[derive(Drop)]
pub enum Payload<'a> {
    Made(Bytes),
    Lent(&'a [u8]),
}

impl Payload<'_> {
    ghost use Rattle.store_api.specs.Driving.{payload_bytes};

    /// The bytes as a slice.
    pub fn as_slice(&self) -> &[u8]
        ensures { result.now ≡ payload_bytes self.now }
    {
        match self {
            Payload::Made(bytes) => bytes.as_slice(),
            Payload::Lent(bytes) => bytes,
        }
    }
}

/// An operation that a machine asks for.
#[derive(Drop)]
pub enum Request<'a> {
    /// Reads an object.
    Get {
        key: Key,
    },
    /// Puts an object where its key is free.
    PutNew {
        key: Key,
        bytes: Payload<'a>,
        why: Why,
    },
    /// Puts an object over the version that stands there.
    PutOver {
        key: Key,
        bytes: Payload<'a>,
        old: Version,
        why: Why,
    },
    /// Removes an object.
    Remove {
        key: Key,
        why: Why,
    },
    /// Removes the version that stands there.
    RemoveAt {
        key: Key,
        old: Version,
        why: Why,
    },
    /// Lists a part.
    List {
        part: Part,
    },
}

/// A machine that knows no store: it says which operation comes next, and takes the answer to it.
pub trait Machine {
    ghost use Rattle.std.specs.Prelude.{ℕ, Result, Err};
    ghost use Rattle.store_api.specs.Program.{Prog};
    ghost use Rattle.store_api.specs.declared.machines.Next.{Next as TheNext};
    ghost use Rattle.store_api.specs.declared.machines.Refusal.{Refusal as TheRefusal};
    ghost use Rattle.store_api.specs.declared.machines.Refusal.TheVariants.{NoMemory};

    /// What it ends with where nothing refuses it.
    type Answer;

    /// What is still to be done.
    ghost rest: { Self → Prog (Result Self.Answer TheRefusal) };

    /// How many steps are left at most.
    ghost left: { Self → ℕ };

    /// What a step with this answer keeps, before it and behind it.
    ghost keeps: { Result (TheNext Self.Answer) TheRefusal → Self → Self → Type 0 };

    /// The refusals that it may end with.
    ghost may_refuse: { TheRefusal → Type 0 };

    /// The operation that comes next.
    fn request(&self) -> Result<Request<'_>, AllocError>
        requires { IsAsk (rest self.now) }
        ensures { IfOk result (λ request. Asks (rest self.now) (op_of request)) };

    /// Takes the answer to that operation. Whether a failed one was done isn't known.
    fn answer(&mut self, reply: Reply) -> Result<Next<Self::Answer>, Refusal>
        requires { Awaits (rest self.old) reply }
        ensures took { Took (rest self.old) reply (rest self.new) result }
        ensures falls { left self.new < left self.old }
        ensures kept { keeps result self.old self.new }
        ensures listed { IfErr result may_refuse };

    /// Ends for want of memory.
    fn stop(&mut self)
        requires { IsAsk (rest self.old) }
        ensures ended { IsDone (rest self.new) }
        ensures falls { left self.new < left self.old }
        ensures kept { keeps (Err NoMemory) self.old self.new };

    /// It may end for want of memory.
    ghost may_starve: { may_refuse NoMemory };
}

/// Makes an operation.
pub fn perform<S: Store>(store: &mut S, request: &Request<'_>) -> Result<Reply, StoreFault>
    requires { MayCall (S.view store.old) (op_of request.now) }
    ensures called { Called (λ reply. reply) (op_of request.now) result (S.view store.old)
        (S.view store.new) }
    ensures fits { IfOk result (Fits (op_of request.now)) }
    ensures answered { IfOk result (λ reply. has_failed reply ≡ false) }
{
    match request {
        Request::Get { key } => Ok(Reply::Got(store.get(key)?)),
        Request::PutNew { key, bytes, why } => {
            Ok(Reply::New(store.put_new(key, bytes.as_slice(), *why)?))
        }
        Request::PutOver {
            key,
            bytes,
            old,
            why,
        } => Ok(Reply::Over(store.put_over(key, bytes.as_slice(), *old, *why)?)),
        Request::Remove { key, why } => Ok(Reply::Gone(store.remove(key, *why)?)),
        Request::RemoveAt { key, old, why } => Ok(Reply::GoneAt(store.remove_at(key, *old, *why)?)),
        Request::List { part } => Ok(Reply::Listed(store.list(*part)?)),
    }
}

/// Makes the operation that comes next.
pub fn ask<M: Machine, S: Store>(machine: &M, store: &mut S) -> Result<Reply, StoreFault>
    requires live { IsAsk (M.rest machine.now) }
    requires polite { IsTrue (S.view store.old).caller.tells
        → NextIsPolite (M.rest machine.now) (S.view store.old).seen }
    ensures called { AskedBy (M.rest machine.now) result (S.view store.old) (S.view store.new) }
    ensures fits { IfOk result (Awaits (M.rest machine.now)) }
    ensures answered { IfOk result (λ reply. has_failed reply ≡ false) }
{
    match machine.request() {
        Ok(request) => perform(store, &request),
        Err(_) => Err(StoreFault::NoMemory),
    }
}

/// One operation of a machine, on a store.
pub fn drive<M: Machine, S: Store>(
    machine: &mut M,
    store: &mut S,
) -> Result<Next<M::Answer>, Refusal>
    requires live { IsAsk (M.rest machine.old) }
    requires polite { IsTrue (S.view store.old).caller.tells
        → NextIsPolite (M.rest machine.old) (S.view store.old).seen }
    ensures step { Steps (S.view store.old) (S.view store.new) (M.rest machine.old)
        (M.rest machine.new) result }
    ensures falls { M.left machine.new < M.left machine.old }
    ensures kept { M.keeps result machine.old machine.new }
    ensures listed { IfErr result M.may_refuse }
{
    match ask(machine, store) {
        Ok(reply) => machine.answer(reply),
        Err(StoreFault::Failed) => machine.answer(Reply::Failed { done: false }),
        Err(StoreFault::NoMemory) => {
            machine.stop();
            Err(Refusal::NoMemory)
        }
    }
}
