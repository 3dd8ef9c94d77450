//! One worker, to its end.

ghost use Rattle.std.specs.Prelude.{◌≡◌, ◌<◌, ◌+◌, ◌-◌, ◌^◌, false};
ghost use Rattle.store_api.specs.Plays.{HasEnded};
ghost use Rattle.turn_cell.specs.Owners.{IsOwner};
ghost use Rattle.turn_cell.specs.Passes.{known, IsPassOf};
ghost use Rattle.play_tasks.specs.Workers.{worker_rest};
ghost use Rattle.play_at_once.specs.inside.Stepping.{CanStep, IsClientAt, Went};
ghost use Rattle.play_at_once.specs.inside.Forking.{CanGoAt, RanOne};

use crate::gate::Gate;
use play_outcome::Outcome;
use play_tasks::{Worker, outcome_law};
use shared_store::{LegalStore, Shared};
use std::sync::Wait;
use store_api::{Base, Store};
use turn_cell::Pass;

/// Steps the worker at this place, whose client number is one more, to its end over any store.
fn run_to_end<S: Store, R: Wait, G: Gate>(
    rt: &R,
    gate: &G,
    place: u32,
    worker: &mut Worker<'_>,
    store: &mut S,
)
    requires small { place < 2 ^ 32 - 1 }
    requires client { IsClientAt place (S.view store.old).caller }
    requires stand { CanStep place (S.view store.old) (worker_rest worker.old) }
    ensures went { Went place (S.view store.old) (S.view store.new) (worker_rest worker.old)
        (worker_rest worker.new) }
    ensures ended { HasEnded (worker_rest worker.new) }
{
    outcome_law();
    let mut steps: u64 = 0;
    while !worker.has_ended() {
        gate.hold(rt, place + 1, steps);
        worker.step(store);
        steps = steps.saturating_add(1);
    }
}

/// Runs the worker at this place to its end, through a port of its own.
pub(crate) fn run_one<S: Base, R: Wait, G: Gate>(
    rt: &R,
    gate: &G,
    shared: &Shared<S>,
    pass: Pass<LegalStore<S>>,
    place: u32,
    worker: Worker<'_>,
) -> (Pass<LegalStore<S>>, Outcome)
    requires small { place < 2 ^ 32 - 1 }
    requires cell { IsPassOf shared.now.cell pass }
    requires idle { (known pass).has_turn ≡ false }
    requires own { IsOwner (known pass).owners (place + 1) }
    requires stand { CanGoAt S.tells place (worker_rest worker) (known pass).journal }
    ensures cell { IsPassOf shared.now.cell result.0 }
    ensures ran { RanOne S.tells place (known pass) (known result.0) (worker_rest worker.entry)
        result.1 }
{
    let mut worker = worker;
    let mut port = shared.port(rt, pass, place + 1);
    run_to_end(rt, gate, place, &mut worker, &mut port);
    (port.into_pass(), worker.into_outcome())
}
