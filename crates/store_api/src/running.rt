//! Machines that are run to their ends.

ghost use Rattle.std.specs.Prelude.{IfErr, IsTrue};
ghost use Rattle.store_api.specs.Program.{IsAsk, IsDone};
ghost use Rattle.store_api.specs.Running.{Runs, StaysPolite};

use crate::{Machine, Next, Refusal, Store, drive};

/// Makes the operations of a machine, one after the other, until it has ended.
pub fn run_machine<M: Machine, S: Store>(
    machine: &mut M,
    store: &mut S,
) -> Result<M::Answer, Refusal>
    requires live { IsAsk (M.rest machine.old) }
    requires polite { IsTrue (S.view store.old).caller.tells
        → StaysPolite (S.view store.old).caller (M.rest machine.old) (S.view store.old).seen }
    ensures runs { Runs (S.view store.old) (S.view store.new) (M.rest machine.old) result }
    ensures ended { IsDone (M.rest machine.new) }
    ensures listed { IfErr result M.may_refuse }
{
    loop {
        match drive(machine, store) {
            Ok(Next::Again) => {}
            Ok(Next::Ready(answer)) => return Ok(answer),
            Err(refusal) => return Err(refusal),
        }
    }
}
