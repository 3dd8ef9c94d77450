//! Workers in threads of their own.

ghost use Rattle.std.specs.Prelude.{◌≡◌, ◌<◌, ◌≤◌, ◌+◌, ◌-◌, ◌^◌, [], map, false, vec_len, vec_capacity, IfSome};
ghost use Rattle.std.specs.Thread.{IsSync};
ghost use Rattle.turn_cell.specs.Owners.{IsOwner};
ghost use Rattle.turn_cell.specs.Passes.{known, IsPassOf};
ghost use Rattle.play_tasks.specs.Workers.{worker_rest};
ghost use Rattle.play_at_once.specs.inside.Forking.{CanGo, CanGoAt, HasPlaces, RanAll, RanOne};

use crate::gate::Gate;
use crate::runner::run_one;
use play_outcome::Outcome;
use play_tasks::{Worker, outcome_law};
use shared_store::{LegalStore, Shared};
use std::sync::Wait;
use std::thread::{Threads, join};
use store_api::Base;
use turn_cell::Pass;

/// Runs the workers to their ends, each in a thread of its own where one can be started, and else one after another.
/// Their outcomes come in their order, into a vector that has room for them. It takes no memory.
pub(crate) fn run_crew<S: Base + Send, R: Threads + Wait + Sync, G: Gate + Sync>(
    rt: &R,
    gate: &G,
    shared: &Shared<S>,
    pass: Pass<LegalStore<S>>,
    workers: Vec<Worker<'_>>,
    outcomes: Vec<Outcome>,
) -> (Pass<LegalStore<S>>, Vec<Outcome>)
    requires cell { IsPassOf shared.now.cell pass }
    requires idle { (known pass).has_turn ≡ false }
    requires places { HasPlaces (known pass).owners (vec_len workers) }
    requires small { vec_len workers < 2 ^ 32 - 1 }
    requires none { outcomes.items ≡ [] }
    requires room { vec_len workers ≤ vec_capacity outcomes }
    requires stand { CanGo S.tells (map worker_rest workers.items) (known pass).journal }
    ensures cell { IsPassOf shared.now.cell result.0 }
    ensures room { vec_capacity result.1 ≡ vec_capacity outcomes }
    ensures ran { RanAll S.tells (known pass) (known result.0) (map worker_rest workers.entry.items)
        result.1.items }
{
    outcome_law();
    let mut pass = pass;
    let mut workers = workers;
    let Some(last) = workers.pop() else {
        return (pass, outcomes);
    };
    let place = workers.len() as u32;
    let own = shared.split(&mut pass, place + 1);
    let ((mut pass, mut outcomes), (own, outcome)) = join(
        rt,
        move || -> (Pass<LegalStore<S>>, Vec<Outcome>)
            requires { IsSync R.row × IsSync G.row × IsPassOf shared.now.cell pass
                × ((known pass).has_turn ≡ false)
                × HasPlaces (known pass).owners (vec_len workers) × (vec_len workers < 2 ^ 32 - 1) × (outcomes.items ≡ [])
                × (vec_len workers ≤ vec_capacity outcomes) × CanGo S.tells (map worker_rest workers.items) (known pass).journal }
            ensures { IsPassOf shared.entry.now.cell result.0
                × (vec_capacity result.1 ≡ vec_capacity outcomes)
                × RanAll S.tells (known pass) (known result.0) (map worker_rest workers.entry.items) result.1.items }
        { run_crew(rt, gate, shared, pass, workers, outcomes) },
        move || -> (Pass<LegalStore<S>>, Outcome)
            requires { IsSync R.row × IsSync G.row × IsPassOf shared.now.cell own
                × ((known own).has_turn ≡ false)
                × IsOwner (known own).owners (place + 1) × (place < 2 ^ 32 - 1)
                × CanGoAt S.tells place (worker_rest last) (known own).journal }
            ensures { IsPassOf shared.entry.now.cell result.0
                × RanOne S.tells place (known own) (known result.0) (worker_rest last.entry) result.1 }
        { run_one(rt, gate, shared, own, place, last) },
    );
    shared.join(&mut pass, own);
    outcomes.push_reserved(outcome);
    (pass, outcomes)
}
