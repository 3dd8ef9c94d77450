//! The steps of a worker's machines, and what follows them.

ghost use Rattle.std.specs.Prelude.{◌≡◌, ◌<◌, ◌≤◌, ◌+◌, ◌-◌, ◌*◌, true, false, length, IsTrue};
ghost use Rattle.store_api.specs.Program.{IsAsk, is_ask, NextIsPolite, Steps};
ghost use Rattle.store_api.specs.Plays.{call, Acts, Comes, IsLive, PlayIsPolite};
ghost use Rattle.play_outcome.specs.Ending.{ends_failed, shows_failed};
ghost use Rattle.play_outcome.specs.Settling.{answers_well, settled, ComesOrStarves, Faults};
ghost use Rattle.refs_admin.specs.inside.Working.{log_rest, log_left};
ghost use Rattle.play_refs.specs.inside.Working.{maker_rest, maker_left, after_making, after_reading, is_working, lines_from, most_steps, shown_in, working_left, working_rest};

use crate::lines::{play_lines, refuse, show_log};
use crate::working::{RefMachine, RefMaker, Working};
use play_outcome::Shown;
use play_script::Line;
use refs_admin::{Log, LogLines};
use std::alloc::Global;
use store_api::{Next, Refusal, Store};

impl RefMaker {
    /// One operation of the store.
    fn step<S: Store>(&mut self, store: &mut S) -> Result<Next<()>, Refusal>
        requires live { IsAsk (maker_rest self.old) }
        requires polite { IsTrue (S.view store.old).caller.tells
            → NextIsPolite (maker_rest self.old) (S.view store.old).seen }
        ensures step { Steps (S.view store.old) (S.view store.new) (maker_rest self.old)
            (maker_rest self.new) result }
        ensures falls { maker_left self.new < maker_left self.old }
    {
        match self {
            RefMaker::Branch(machine) => machine.step(store),
            RefMaker::Reset(machine) => machine.step(store),
            RefMaker::Unbranch(machine) => machine.step(store),
            RefMaker::Tag(machine) => machine.step(store),
            RefMaker::Untag(machine) => machine.step(store),
        }
    }
}

/// Where a worker stands after a step of a machine that makes, moves or drops a ref.
fn after_making(
    alloc: Global,
    body: &[Line],
    line: u32,
    at: usize,
    shown: Vec<Shown>,
    maker: RefMaker,
    answer: Result<Next<()>, Refusal>,
) -> Working
    requires answers { answers_well (is_ask (maker_rest maker)) answer ≡ true }
    requires plain { shows_failed shown.items ≡ false }
    ensures comes { Comes (settled (after_making line shown.items (lines_from body.now at))
        (maker_rest maker) answer) (working_rest body.now result) }
    ensures works { is_working result ≡ true }
    ensures falls { working_left (length body.now) result ≤ (length body.now - at) * most_steps
        + maker_left maker }
    ensures blames { Faults answer (working_rest body.now result) }
    ensures plain { shows_failed (shown_in result) ≡ false }
{
    match answer {
        Ok(Next::Again) => Working::Calling {
            line,
            at,
            shown,
            machine: RefMachine::Making(maker),
        },
        Ok(Next::Ready(())) => play_lines(alloc, body, at, shown),
        Err(why) => refuse(line, shown, why),
    }
}

/// Where a worker stands after a step of the machine that reads a log. Where there is no memory to show the log, the task ends
/// as if there had been none for the step.
#[tactic(auto, using(crate::proofs::Plain::logs_plain))]
fn after_reading(
    alloc: Global,
    body: &[Line],
    line: u32,
    at: usize,
    mut shown: Vec<Shown>,
    log: Log,
    answer: Result<Next<LogLines>, Refusal>,
) -> Working
    requires answers { answers_well (is_ask (log_rest log)) answer ≡ true }
    requires plain { shows_failed shown.items ≡ false }
    ensures comes { ComesOrStarves (after_reading line shown.items (lines_from body.now at))
        (log_rest log) answer (working_rest body.now result) }
    ensures works { is_working result ≡ true }
    ensures falls { working_left (length body.now) result ≤ (length body.now - at) * most_steps
        + log_left log }
    ensures blames { Faults answer (working_rest body.now result) }
    ensures plain { shows_failed (shown_in result) ≡ false }
{
    let lines = match answer {
        Ok(Next::Again) => {
            return Working::Calling {
                line,
                at,
                shown,
                machine: RefMachine::Reading(log),
            };
        }
        Ok(Next::Ready(lines)) => lines,
        Err(why) => return refuse(line, shown, why),
    };
    match show_log(line, lines.into_vec(), &mut shown) {
        Ok(()) => play_lines(alloc, body, at, shown),
        Err(_) => refuse(line, shown, Refusal::NoMemory),
    }
}

/// One step of a machine that makes, moves or drops a ref.
fn step_making<S: Store>(
    alloc: Global,
    body: &[Line],
    line: u32,
    at: usize,
    shown: Vec<Shown>,
    mut maker: RefMaker,
    store: &mut S,
) -> Working
    requires live { is_ask (maker_rest maker) ≡ true }
    requires polite { IsTrue (S.view store.old).caller.tells
        → NextIsPolite (maker_rest maker) (S.view store.old).seen }
    requires plain { shows_failed shown.items ≡ false }
    ensures acts { Acts ends_failed (S.view store.old) (S.view store.new)
        (call (maker_rest maker) (after_making line shown.items (lines_from body.now at)))
        (working_rest body.now result) }
    ensures works { is_working result ≡ true }
    ensures falls { working_left (length body.now) result < (length body.now - at) * most_steps
        + maker_left maker }
    ensures plain { shows_failed (shown_in result) ≡ false }
{
    let answer = maker.step(store);
    after_making(alloc, body, line, at, shown, maker, answer)
}

/// One step of the machine that reads a log.
fn step_reading<S: Store>(
    alloc: Global,
    body: &[Line],
    line: u32,
    at: usize,
    shown: Vec<Shown>,
    mut log: Log,
    store: &mut S,
) -> Working
    requires live { is_ask (log_rest log) ≡ true }
    requires plain { shows_failed shown.items ≡ false }
    ensures acts { Acts ends_failed (S.view store.old) (S.view store.new)
        (call (log_rest log) (after_reading line shown.items (lines_from body.now at)))
        (working_rest body.now result) }
    ensures works { is_working result ≡ true }
    ensures falls { working_left (length body.now) result < (length body.now - at) * most_steps
        + log_left log }
    ensures plain { shows_failed (shown_in result) ≡ false }
{
    let answer = log.step(store);
    after_reading(alloc, body, line, at, shown, log, answer)
}

/// One step of a worker that stands here.
pub(crate) fn step_on<S: Store>(
    alloc: Global,
    body: &[Line],
    state: Working,
    store: &mut S,
) -> Working
    requires live { IsLive (working_rest body.now state) }
    requires works { is_working state ≡ true }
    requires plain { shows_failed (shown_in state) ≡ false }
    requires polite { IsTrue (S.view store.old).caller.tells
        → PlayIsPolite (working_rest body.now state) (S.view store.old).seen }
    ensures acts { Acts ends_failed (S.view store.old) (S.view store.new)
        (working_rest body.now state) (working_rest body.now result) }
    ensures works { is_working result ≡ true }
    ensures falls { working_left (length body.now) result < working_left (length body.now) state }
    ensures plain { shows_failed (shown_in result) ≡ false }
{
    match state {
        Working::Calling {
            line,
            at,
            shown,
            machine,
        } => match machine {
            RefMachine::Making(maker) => step_making(alloc, body, line, at, shown, maker, store),
            RefMachine::Reading(log) => step_reading(alloc, body, line, at, shown, log, store),
        },
        Working::Ended { .. } => unreachable!(),
    }
}
