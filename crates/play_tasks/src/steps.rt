//! The steps of a worker's machines, and what follows them.

ghost use Rattle.std.specs.Prelude.{◌≡◌, ◌<◌, ◌≤◌, ◌+◌, ◌-◌, ◌*◌, true, length, IsTrue};
ghost use Rattle.store_api.specs.Program.{is_ask, NextIsPolite};
ghost use Rattle.store_api.specs.Plays.{call, Acts, Comes, IsLive, PlayIsPolite};
ghost use Rattle.session.specs.Opening.{open_rest, open_left};
ghost use Rattle.session.specs.Setting.{set_rest, set_left};
ghost use Rattle.session.specs.Getting.{get_rest, get_left, get_session};
ghost use Rattle.array_region.specs.Getting.{region_rest, region_left, region_session};
ghost use Rattle.array_region.specs.Filling.{region_set_rest, region_set_left};
ghost use Rattle.play_outcome.specs.Ending.{ends_failed};
ghost use Rattle.play_tasks.specs.Playing.{after_open};
ghost use Rattle.play_tasks.specs.Lines.{cells_shown};
ghost use Rattle.play_outcome.specs.Settling.{settled, answers_well, ComesOrStarves, Faults};
ghost use Rattle.play_tasks.specs.inside.Working.{after_set, shown_for, after_get, is_working, lines_from, working_rest, working_left, most_steps};

use crate::boxes::show_cells;
use crate::chunks::show_value;
use crate::commits::{step_committing, step_rebasing};
use crate::doubts::step_settling;
use crate::leasing::step_leasing;
use crate::lines::{play_lines, refuse};
use crate::working::{AskedFor, SessionTask, Working};
use array_region::{Numbers, RegionGet, RegionSet};
use play_outcome::Shown;
use session::{GetChunk, Open, Session, SetChunk, Value};
use std::alloc::Global;
use store_api::{Next, Refusal, Store};

/// Where a worker stands after a step of the machine that opens its session.
fn after_opening(
    alloc: Global,
    task: &SessionTask<'_>,
    opener: Open,
    answer: Result<Next<Session>, Refusal>,
) -> Working
    requires { answers_well (is_ask (open_rest opener)) answer ≡ true }
    ensures comes { Comes (settled (after_open task.now.access.now task.now.line task.now.body.now)
        (open_rest opener) answer) (working_rest task.now result) }
    ensures works { is_working result ≡ true }
    ensures falls { working_left (length task.now.body.now) result ≤ length task.now.body.now
        * most_steps + open_left opener }
    ensures blames { Faults answer (working_rest task.now result) }
{
    match answer {
        Ok(Next::Again) => Working::Opening { opener },
        Ok(Next::Ready(session)) => {
            drop(opener);
            play_lines(alloc, task, 0, session, Vec::new(alloc))
        }
        Err(why) => {
            drop(opener);
            refuse(task.line, Vec::new(alloc), why)
        }
    }
}

/// Where a worker stands after a step of the machine that sets a chunk.
fn after_setting(
    alloc: Global,
    task: &SessionTask<'_>,
    line: u32,
    at: usize,
    shown: Vec<Shown>,
    set: SetChunk,
    answer: Result<Next<Session>, Refusal>,
) -> Working
    requires { answers_well (is_ask (set_rest set)) answer ≡ true }
    ensures comes { Comes (settled (after_set line shown.items (lines_from task.now at))
        (set_rest set) answer) (working_rest task.now result) }
    ensures works { is_working result ≡ true }
    ensures falls { working_left (length task.now.body.now) result ≤ (length task.now.body.now - at)
        * most_steps + set_left set }
    ensures blames { Faults answer (working_rest task.now result) }
{
    match answer {
        Ok(Next::Again) => Working::Setting {
            line,
            at,
            shown,
            set,
        },
        Ok(Next::Ready(session)) => {
            drop(set);
            play_lines(alloc, task, at, session, shown)
        }
        Err(why) => {
            drop(set);
            refuse(line, shown, why)
        }
    }
}

/// Where a worker stands after a step of the machine that reads a chunk. Where there is no memory to show the chunk, the task
/// ends as if there had been none for the step.
fn after_getting(
    alloc: Global,
    task: &SessionTask<'_>,
    line: u32,
    at: usize,
    asked: AskedFor,
    mut shown: Vec<Shown>,
    get: GetChunk,
    answer: Result<Next<Value>, Refusal>,
) -> Working
    requires { answers_well (is_ask (get_rest get)) answer ≡ true }
    ensures comes { ComesOrStarves (after_get (shown_for asked line) line shown.items
        (get_session get) (lines_from task.now at)) (get_rest get) answer
        (working_rest task.now result) }
    ensures works { is_working result ≡ true }
    ensures falls { working_left (length task.now.body.now) result ≤ (length task.now.body.now - at)
        * most_steps + get_left get }
    ensures blames { Faults answer (working_rest task.now result) }
{
    let value = match answer {
        Ok(Next::Again) => {
            return Working::Getting {
                line,
                at,
                asked,
                shown,
                get,
            };
        }
        Ok(Next::Ready(value)) => value,
        Err(why) => {
            drop(get);
            return refuse(line, shown, why);
        }
    };
    match show_value(asked, line, value, &mut shown) {
        Ok(()) => play_lines(alloc, task, at, get.into_session(), shown),
        Err(_) => {
            drop(get);
            refuse(line, shown, Refusal::NoMemory)
        }
    }
}

/// Where a worker stands after a step of the machine that writes a box.
fn after_putting(
    alloc: Global,
    task: &SessionTask<'_>,
    line: u32,
    at: usize,
    shown: Vec<Shown>,
    set: RegionSet,
    answer: Result<Next<Session>, Refusal>,
) -> Working
    requires { answers_well (is_ask (region_set_rest set)) answer ≡ true }
    ensures comes { Comes (settled (after_set line shown.items (lines_from task.now at))
        (region_set_rest set) answer) (working_rest task.now result) }
    ensures works { is_working result ≡ true }
    ensures falls { working_left (length task.now.body.now) result ≤ (length task.now.body.now - at)
        * most_steps + region_set_left set }
    ensures blames { Faults answer (working_rest task.now result) }
{
    match answer {
        Ok(Next::Again) => Working::Putting {
            line,
            at,
            shown,
            set,
        },
        Ok(Next::Ready(session)) => {
            drop(set);
            play_lines(alloc, task, at, session, shown)
        }
        Err(why) => {
            drop(set);
            refuse(line, shown, why)
        }
    }
}

/// Where a worker stands after a step of the machine that reads a box. Where there is no memory to show its numbers, the task ends
/// as if there had been none for the step.
fn after_gathering(
    alloc: Global,
    task: &SessionTask<'_>,
    line: u32,
    at: usize,
    mut shown: Vec<Shown>,
    get: RegionGet,
    answer: Result<Next<Numbers>, Refusal>,
) -> Working
    requires { answers_well (is_ask (region_rest get)) answer ≡ true }
    ensures comes { ComesOrStarves
        (after_get (cells_shown line) line shown.items (region_session get)
        (lines_from task.now at)) (region_rest get) answer (working_rest task.now result) }
    ensures works { is_working result ≡ true }
    ensures falls { working_left (length task.now.body.now) result ≤ (length task.now.body.now - at)
        * most_steps + region_left get }
    ensures blames { Faults answer (working_rest task.now result) }
{
    let numbers = match answer {
        Ok(Next::Again) => {
            return Working::Gathering {
                line,
                at,
                shown,
                get,
            };
        }
        Ok(Next::Ready(numbers)) => numbers,
        Err(why) => {
            drop(get);
            return refuse(line, shown, why);
        }
    };
    match show_cells(line, numbers, &mut shown) {
        Ok(()) => play_lines(alloc, task, at, get.into_session(), shown),
        Err(_) => {
            drop(get);
            refuse(line, shown, Refusal::NoMemory)
        }
    }
}

/// One step of the machine that opens the session.
fn step_opening<S: Store>(
    alloc: Global,
    task: &SessionTask<'_>,
    mut opener: Open,
    store: &mut S,
) -> Working
    requires live { is_ask (open_rest opener) ≡ true }
    ensures acts { Acts ends_failed (S.view store.old) (S.view store.new)
        (call (open_rest opener) (after_open task.now.access.now task.now.line task.now.body.now))
        (working_rest task.now result) }
    ensures works { is_working result ≡ true }
    ensures falls { working_left (length task.now.body.now) result < length task.now.body.now
        * most_steps + open_left opener }
{
    let answer = opener.step(store);
    after_opening(alloc, task, opener, answer)
}

/// One step of the machine that sets a chunk.
fn step_setting<S: Store>(
    alloc: Global,
    task: &SessionTask<'_>,
    line: u32,
    at: usize,
    shown: Vec<Shown>,
    mut set: SetChunk,
    store: &mut S,
) -> Working
    requires live { is_ask (set_rest set) ≡ true }
    requires polite { IsTrue (S.view store.old).caller.tells
        → NextIsPolite (set_rest set) (S.view store.old).seen }
    ensures acts { Acts ends_failed (S.view store.old) (S.view store.new)
        (call (set_rest set) (after_set line shown.items (lines_from task.now at)))
        (working_rest task.now result) }
    ensures works { is_working result ≡ true }
    ensures falls { working_left (length task.now.body.now) result < (length task.now.body.now - at)
        * most_steps + set_left set }
{
    let answer = set.step(store);
    after_setting(alloc, task, line, at, shown, set, answer)
}

/// One step of the machine that reads a chunk.
fn step_getting<S: Store>(
    alloc: Global,
    task: &SessionTask<'_>,
    line: u32,
    at: usize,
    asked: AskedFor,
    shown: Vec<Shown>,
    mut get: GetChunk,
    store: &mut S,
) -> Working
    requires live { is_ask (get_rest get) ≡ true }
    ensures acts { Acts ends_failed (S.view store.old) (S.view store.new)
        (call (get_rest get) (after_get (shown_for asked line) line shown.items (get_session get)
        (lines_from task.now at))) (working_rest task.now result) }
    ensures works { is_working result ≡ true }
    ensures falls { working_left (length task.now.body.now) result < (length task.now.body.now - at)
        * most_steps + get_left get }
{
    let answer = get.step(store);
    after_getting(alloc, task, line, at, asked, shown, get, answer)
}

/// One step of the machine that writes a box.
fn step_putting<S: Store>(
    alloc: Global,
    task: &SessionTask<'_>,
    line: u32,
    at: usize,
    shown: Vec<Shown>,
    mut set: RegionSet,
    store: &mut S,
) -> Working
    requires live { is_ask (region_set_rest set) ≡ true }
    requires polite { IsTrue (S.view store.old).caller.tells
        → NextIsPolite (region_set_rest set) (S.view store.old).seen }
    ensures acts { Acts ends_failed (S.view store.old) (S.view store.new)
        (call (region_set_rest set) (after_set line shown.items (lines_from task.now at)))
        (working_rest task.now result) }
    ensures works { is_working result ≡ true }
    ensures falls { working_left (length task.now.body.now) result < (length task.now.body.now - at)
        * most_steps + region_set_left set }
{
    let answer = set.step(store);
    after_putting(alloc, task, line, at, shown, set, answer)
}

/// One step of the machine that reads a box.
fn step_gathering<S: Store>(
    alloc: Global,
    task: &SessionTask<'_>,
    line: u32,
    at: usize,
    shown: Vec<Shown>,
    mut get: RegionGet,
    store: &mut S,
) -> Working
    requires live { is_ask (region_rest get) ≡ true }
    ensures acts { Acts ends_failed (S.view store.old) (S.view store.new)
        (call (region_rest get) (after_get (cells_shown line) line shown.items (region_session get)
        (lines_from task.now at))) (working_rest task.now result) }
    ensures works { is_working result ≡ true }
    ensures falls { working_left (length task.now.body.now) result < (length task.now.body.now - at)
        * most_steps + region_left get }
{
    let answer = get.step(store);
    after_gathering(alloc, task, line, at, shown, get, answer)
}

/// One step of a worker that stands here.
pub(crate) fn step_on<S: Store>(
    alloc: Global,
    task: &SessionTask<'_>,
    state: Working,
    store: &mut S,
) -> Working
    requires live { IsLive (working_rest task.now state) }
    requires works { is_working state ≡ true }
    requires polite { IsTrue (S.view store.old).caller.tells
        → PlayIsPolite (working_rest task.now state) (S.view store.old).seen }
    ensures acts { Acts ends_failed (S.view store.old) (S.view store.new)
        (working_rest task.now state) (working_rest task.now result) }
    ensures works { is_working result ≡ true }
    ensures falls { working_left (length task.now.body.now) result < working_left
        (length task.now.body.now) state }
{
    match state {
        Working::Opening { opener } => step_opening(alloc, task, opener, store),
        Working::Setting {
            line,
            at,
            shown,
            set,
        } => step_setting(alloc, task, line, at, shown, set, store),
        Working::Getting {
            line,
            at,
            asked,
            shown,
            get,
        } => step_getting(alloc, task, line, at, asked, shown, get, store),
        Working::Putting {
            line,
            at,
            shown,
            set,
        } => step_putting(alloc, task, line, at, shown, set, store),
        Working::Gathering {
            line,
            at,
            shown,
            get,
        } => step_gathering(alloc, task, line, at, shown, get, store),
        Working::Leasing {
            line,
            at,
            shown,
            session,
            lease,
        } => step_leasing(alloc, task, line, at, shown, session, lease, store),
        Working::Committing {
            line,
            tries,
            shown,
            commit,
        } => step_committing(alloc, task, line, tries, shown, commit, store),
        Working::Settling { shown, id, settle } => step_settling(task, shown, id, settle, store),
        Working::Rebasing {
            line,
            tries,
            shown,
            message,
            rebase,
        } => step_rebasing(alloc, task, line, tries, shown, message, rebase, store),
        Working::Ended { .. } => unreachable!(),
    }
}
