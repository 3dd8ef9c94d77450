//! Machines that know neither store, and the one function that makes their operations.

ghost use Rattle.std.specs.Prelude.{◌≡◌, ◌<◌, IfOk, false};
ghost use Rattle.store_api.specs.Driving.{op_of, has_failed};
ghost use Rattle.two_stores.specs.Sides.{pair_of};
ghost use Rattle.two_stores.specs.Pairs.{IsAsk, Asks, AskedBy, Awaits, MayAsk, Took, Starves, PairSteps};

use crate::Side;
use std::alloc::AllocError;
use store_api::{Reply, Request, Store, StoreFault, perform};

/// An operation that a machine asks for, and on which store.
#[derive(Drop)]
pub struct Asked<'a> {
    pub side: Side,
    pub request: Request<'a>,
}

/// A machine that knows neither of its two stores: it says which operation comes next, and on which side, and takes the answer to it.
pub trait PairMachine {
    ghost use Rattle.std.specs.Prelude.{ℕ};
    ghost use Rattle.two_stores.specs.Pairs.{PairProg};

    /// What it tells at its end, whatever the end.
    type Outcome;

    /// What is still to be done.
    ghost rest: { Self → PairProg Self.Outcome };

    /// How many steps are left at most.
    ghost left: { Self → ℕ };

    /// The operation that comes next.
    fn request(&self) -> Result<Asked<'_>, AllocError>
        requires { IsAsk (rest self.now) }
        ensures { IfOk result (λ asked. Asks (rest self.now) asked.side (op_of asked.request)) };

    /// Takes the answer to that operation. Whether a failed one was done isn't known.
    fn answer(&mut self, reply: Reply)
        requires { Awaits (rest self.old) reply }
        ensures took { Took (rest self.old) reply (rest self.new) }
        ensures falls { left self.new < left self.old };

    /// Ends for want of memory.
    fn stop(&mut self)
        requires { IsAsk (rest self.old) }
        ensures starves { Starves (rest self.old) (rest self.new) }
        ensures falls { left self.new < left self.old };
}

/// Makes the operation that comes next, on its store.
pub fn ask_pair<M: PairMachine, S: Store, T: Store>(
    machine: &M,
    from: &mut S,
    to: &mut T,
) -> Result<Reply, StoreFault>
    requires live { IsAsk (M.rest machine.now) }
    requires polite { MayAsk (M.rest machine.now) (pair_of (S.view from.old) (T.view to.old)) }
    ensures called { AskedBy (M.rest machine.now) result (pair_of (S.view from.old) (T.view to.old))
        (pair_of (S.view from.new) (T.view to.new)) }
    ensures fits { IfOk result (Awaits (M.rest machine.now)) }
    ensures answered { IfOk result (λ reply. has_failed reply ≡ false) }
{
    match machine.request() {
        Ok(asked) => match asked.side {
            Side::From => perform(from, &asked.request),
            Side::To => perform(to, &asked.request),
        },
        Err(_) => Err(StoreFault::NoMemory),
    }
}

/// One operation of a machine, on the store that it names; the other stays as it is.
pub fn drive_pair<M: PairMachine, S: Store, T: Store>(machine: &mut M, from: &mut S, to: &mut T)
    requires live { IsAsk (M.rest machine.old) }
    requires polite { MayAsk (M.rest machine.old) (pair_of (S.view from.old) (T.view to.old)) }
    ensures step { PairSteps (pair_of (S.view from.old) (T.view to.old))
        (pair_of (S.view from.new) (T.view to.new)) (M.rest machine.old) (M.rest machine.new) }
    ensures falls { M.left machine.new < M.left machine.old }
{
    match ask_pair(machine, from, to) {
        Ok(reply) => machine.answer(reply),
        Err(StoreFault::Failed) => machine.answer(Reply::Failed { done: false }),
        Err(StoreFault::NoMemory) => machine.stop(),
    }
}
