//! The lines of a task's body, from one that calls on refs to the next.

ghost use Rattle.std.specs.Prelude.{ℕ, ◌≡◌, ◌≤◌, ◌+◌, ◌-◌, ◌*◌, ◌++◌, List, true, false, length, map, IfOk, OnErr};
ghost use Rattle.store_api.specs.Plays.{Comes, Or};
ghost use Rattle.play_outcome.specs.Ending.{shows_failed};
ghost use Rattle.play_outcome.specs.Playing.{refused};
ghost use Rattle.play_refs.specs.Playing.{log_shown, ref_play, after_ref};
ghost use Rattle.play_refs.specs.inside.Working.{Begins, is_well, lines_from, most_steps, shown_in, working_left, working_rest};

use crate::working::{RefMachine, RefMaker, Working};
use play_outcome::{End, Outcome, Shown, Shows};
use play_script::Line;
use refs_admin::{BranchDrop, BranchNew, BranchReset, Log, LogLine, TagDrop, TagNew};
use script_calls::{Call, RefCall};
use std::alloc::{AllocError, Global};
use store_api::Refusal;

/// The task was refused at this line of the script.
pub(crate) fn refuse(line: u32, shown: Vec<Shown>, why: Refusal) -> Working
    ensures { result ≡ Working.Ended (record { shown = shown.items; end = End.Refused line why }) }
{
    Working::Ended {
        outcome: Outcome {
            shown: Shows::from_vec(shown),
            end: End::Refused { line, why },
        },
    }
}

/// Shows the snapshots of a log that this line of the script asked for: all of them, or none.
pub(crate) fn show_log(
    line: u32,
    lines: Vec<LogLine>,
    shown: &mut Vec<Shown>,
) -> Result<(), AllocError>
    ensures ok { IfOk result (λ done. shown.new.items ≡ shown.old.items ++ map (log_shown line)
        lines.items) }
    ensures err { OnErr result (shown.new.items ≡ shown.old.items) }
{
    let before = shown.len();
    for log_line in lines {
        let LogLine {
            id,
            flushed_at,
            message,
            props,
        } = log_line;
        let snapshot = Shown::Log {
            line,
            id,
            flushed_at,
            message,
            props,
        };
        if shown.push(snapshot).is_err() {
            shown.truncate(before);
            return Err(AllocError);
        }
    }
    Ok(())
}

/// The machine of a call, before its first operation.
fn machine_of(alloc: Global, call: &RefCall) -> Result<RefMachine, AllocError>
    ensures { IfOk result (Begins call.now) }
{
    match call {
        RefCall::Branch { name, at } => {
            let machine = BranchNew::new(alloc, name.copy(alloc)?, at.copy(alloc)?);
            Ok(RefMachine::Making(RefMaker::Branch(machine)))
        }
        RefCall::Reset { name, at } => {
            let machine = BranchReset::new(alloc, name.copy(alloc)?, at.copy(alloc)?);
            Ok(RefMachine::Making(RefMaker::Reset(machine)))
        }
        RefCall::Unbranch { name } => {
            let machine = BranchDrop::new(alloc, name.copy(alloc)?);
            Ok(RefMachine::Making(RefMaker::Unbranch(machine)))
        }
        RefCall::Tag { name, at } => {
            let machine = TagNew::new(alloc, name.copy(alloc)?, at.copy(alloc)?);
            Ok(RefMachine::Making(RefMaker::Tag(machine)))
        }
        RefCall::Untag { name } => {
            let machine = TagDrop::new(alloc, name.copy(alloc)?);
            Ok(RefMachine::Making(RefMaker::Untag(machine)))
        }
        RefCall::Log { at } => Ok(RefMachine::Reading(Log::new(alloc, at.copy(alloc)?))),
    }
}

/// Begins a call by this line of the script; the line behind it has the number `at`. Where there is no memory for that, the
/// task ends.
fn begin_call(alloc: Global, line: u32, at: usize, call: &RefCall, shown: Vec<Shown>) -> Working
    requires plain { shows_failed shown.items ≡ false }
    ensures comes { (body : List Line)
        → Comes (Or (ref_play line call.now (after_ref line shown.items (lines_from body at)))
        (refused line shown.items Refusal.NoMemory)) (working_rest body result) }
    ensures clean { is_well result ≡ true }
    ensures bounded { (lines : ℕ) → working_left lines result ≤ (lines - at) * most_steps
        + most_steps }
    ensures plain { shows_failed (shown_in result) ≡ false }
{
    match machine_of(alloc, call) {
        Ok(machine) => Working::Calling {
            line,
            at,
            shown,
            machine,
        },
        Err(_) => refuse(line, shown, Refusal::NoMemory),
    }
}

/// Plays the lines of a body from a number on, with these lines shown: up to the first that calls on refs, or to their end.
pub(crate) fn play_lines(alloc: Global, body: &[Line], from: usize, shown: Vec<Shown>) -> Working
    requires plain { shows_failed shown.items ≡ false }
    ensures leaves { Comes (lines_from body.now from shown.items) (working_rest body.now result) }
    ensures clean { is_well result ≡ true }
    ensures bounded { working_left (length body.now) result ≤ (length body.now - from)
        * most_steps }
    ensures plain { shows_failed (shown_in result) ≡ false }
{
    for at in from..body.len() {
        let line = &body[at];
        if let Call::Ref(call) = &line.call {
            return begin_call(alloc, line.number, at + 1, call, shown);
        }
    }
    Working::Ended {
        outcome: Outcome {
            shown: Shows::from_vec(shown),
            end: End::Done,
        },
    }
}
