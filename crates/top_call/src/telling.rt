//! What is told of a run: the report, or the line of a grown script, and the status.

ghost use Rattle.std.specs.Prelude.{◌≡◌, ◌∷◌, ◌++◌, map, codes, IfOk};
ghost use Rattle.std.specs.List.{count_by, flat_map};
ghost use Rattle.drafts.specs.Drafts.{IsBlank, Took};
ghost use Rattle.grow_script.specs.Summary.{summary_text};
ghost use Rattle.play_report.specs.Report.{outcome_text, report_of};
ghost use Rattle.play_outcome.specs.Ending.{end_why, why_ended, why_left, why_unsettled};
ghost use Rattle.store_api.specs.declared.machines.Refusal.TheVariants as Doubts;
ghost use Rattle.top_call.specs.Telling.{why_of, refusals, causes, is_committed, is_refused, line_text, Told};
ghost use Rattle.top_call.specs.inside.Adding.{added, all_added};

use crate::statuses::{Causes, Status};
use check_reports::Checked;
use drafts::Draft;
use grow_script::Summary;
use ice_base::Sink;
use ice_ids::Id12;
use play_course::Played;
use play_outcome::{End, How, Outcome, RefLines, Shown};
use play_report::{add_outcome, add_report};
use play_script::Task;
use std::alloc::{AllocError, Global};
use store_api::Refusal;

/// The names of the tasks.
pub fn names_of<'a>(alloc: Global, tasks: &'a [Task]) -> Result<Vec<&'a [u8]>, AllocError>
    ensures { IfOk result (λ names. map (λ n. n.now) names.items ≡ map (λ t. t.name) tasks.now) }
{
    let mut names = Vec::new(alloc);
    for task in tasks {
        names.push(task.name.as_str().as_bytes())?;
    }
    Ok(names)
}

/// Adds what a refusal causes.
fn add(causes: &mut Causes, why: &Refusal)
    ensures { causes.new ≡ added causes.old why.now }
{
    match why {
        Refusal::NoMemory => causes.no_memory = true,
        Refusal::StoreFault => causes.store_fault = true,
        Refusal::InDoubt { .. } => causes.store_fault = true,
        _ => causes.refused = true,
    }
}

/// Adds what an end by a refusal causes.
fn add_result(causes: &mut Causes, ended: &Result<(), Refusal>)
    ensures { causes.new ≡ all_added causes.old (why_of ended.now) }
{
    if let Err(why) = ended {
        add(causes, why);
    }
}

/// Adds what the end of a check causes.
fn add_checked(causes: &mut Causes, ended: &Result<Checked, Refusal>)
    ensures { causes.new ≡ all_added causes.old (why_of ended.now) }
{
    if let Err(why) = ended {
        add(causes, why);
    }
}

/// Adds what a doubt causes, and what kept it from being settled.
fn add_doubt(causes: &mut Causes, id: Id12, how: &How)
    ensures { causes.new ≡ all_added causes.old (Doubts.InDoubt id ∷ why_unsettled how.now) }
{
    add(causes, &Refusal::InDoubt { snapshot: id });
    if let How::Unsettled(why) = how {
        add(causes, why);
    }
}

/// Adds what a task causes that ended so.
fn add_end(causes: &mut Causes, end: &End)
    ensures { causes.new ≡ all_added causes.old (end_why end.now) }
{
    match end {
        End::Refused { why, .. } | End::Stopped { why, .. } => add(causes, why),
        End::InDoubt { id, how } => add_doubt(causes, *id, how),
        End::Expired { result, .. } => add_result(causes, result),
        End::Checked { result, .. } => add_checked(causes, result),
        End::Committed(_) | End::Collected(_) | End::Done => {}
    }
}

/// Adds what a lease causes, if it was left.
fn add_left(causes: &mut Causes, shown: &Shown)
    ensures { causes.new ≡ all_added causes.old (why_left shown.now) }
{
    match shown {
        Shown::Node { .. }
        | Shown::Meta { .. }
        | Shown::Chunk { .. }
        | Shown::Fill { .. }
        | Shown::Cells { .. }
        | Shown::Key { .. }
        | Shown::Log { .. }
        | Shown::Lease { left: None, .. } => {}
        Shown::Lease {
            left: Some(why),
            ..
        } => add(causes, why),
    }
}

/// Adds what the leases cause that were left.
fn add_all_left(causes: &mut Causes, all: &[Shown])
    ensures { causes.new ≡ all_added causes.old (flat_map why_left all.now) }
{
    for shown in all {
        add_left(causes, shown);
    }
}

/// Adds what a task causes: the leases that it left, and its end.
fn add_task(causes: &mut Causes, outcome: &Outcome)
    ensures { causes.new ≡ all_added causes.old (why_ended outcome.now) }
{
    add_all_left(causes, outcome.shown.as_slice());
    add_end(causes, &outcome.end);
}

/// Adds what the refused tasks cause.
fn add_outcomes(causes: &mut Causes, outcomes: &[Outcome])
    ensures { causes.new ≡ all_added causes.old (flat_map why_ended outcomes.now) }
{
    for outcome in outcomes {
        add_task(causes, outcome);
    }
}

/// Adds what a closing reading that was refused causes.
fn add_refs(causes: &mut Causes, refs: &Result<RefLines, Refusal>)
    ensures { causes.new ≡ all_added causes.old (why_of refs.now) }
{
    if let Err(why) = refs {
        add(causes, why);
    }
}

/// What kept the run from ending well, where the report was written whole or not.
fn causes_of(played: &Played, unwritten: bool) -> Causes
    ensures { result ≡ causes unwritten (refusals played.now.opening played.now.outcomes.items
        played.now.refs) }
{
    let mut causes = Causes {
        no_memory: false,
        store_fault: false,
        unwritten,
        refused: false,
    };
    add_result(&mut causes, &played.opening);
    add_outcomes(&mut causes, &played.outcomes);
    add_refs(&mut causes, &played.refs);
    causes
}

/// What kept a check from ending well, where what came of it was written whole or not.
fn causes_of_check(outcome: &Outcome, unwritten: bool) -> Causes
    ensures { result ≡ causes unwritten (why_ended outcome.now) }
{
    let mut causes = Causes {
        no_memory: false,
        store_fault: false,
        unwritten,
        refused: false,
    };
    add_task(&mut causes, outcome);
    causes
}

/// Writes what came of a check, over a blank draft, and tells the status. It takes no memory.
pub fn finish_check<K: Sink>(draft: Draft, outcome: &Outcome, out: &mut K) -> Status
    requires { IsBlank draft }
    ensures { Told (λ text. text ≡ outcome_text (codes "check") outcome.now) (why_ended outcome.now)
        (K.at out.old) (K.at out.new) result }
{
    let mut draft = draft;
    add_outcome(&mut draft, out, b"check", outcome);
    let unwritten = draft.finish(out);
    causes_of_check(outcome, unwritten).status()
}

/// Writes the report of what was played, over a blank draft, and tells the status. It takes no memory.
pub fn finish<K: Sink>(draft: Draft, names: &[&[u8]], played: &Played, out: &mut K) -> Status
    requires { IsBlank draft }
    ensures { Told (λ text. text ≡ report_of (map (λ n. n.now) names.now) played.now.opening
        played.now.outcomes.items played.now.refs)
        (refusals played.now.opening played.now.outcomes.items played.now.refs) (K.at out.old)
        (K.at out.new) result }
{
    let mut draft = draft;
    add_report(
        &mut draft,
        out,
        names,
        &played.opening,
        &played.outcomes,
        &played.refs,
    );
    let unwritten = draft.finish(out);
    causes_of(played, unwritten).status()
}

/// How many tasks committed, and how many were refused.
fn numbers(outcomes: &[Outcome]) -> (u64, u64)
    ensures committed { result.0 ≡ count_by is_committed outcomes.now }
    ensures refused { result.1 ≡ count_by is_refused outcomes.now }
{
    let mut committed: u64 = 0;
    let mut refused: u64 = 0;
    for outcome in outcomes {
        match outcome.end {
            End::Committed(_) => committed += 1,
            End::Refused { .. } | End::Stopped { .. } => refused += 1,
            End::Expired { result: Err(_), .. } => refused += 1,
            End::Checked { result: Err(_), .. } => refused += 1,
            End::Expired { result: Ok(()), .. }
            | End::Checked { result: Ok(_), .. }
            | End::Collected(_)
            | End::Done
            | End::InDoubt { .. } => {}
        }
    }
    (committed, refused)
}

/// What the run of a grown script came to.
fn summary_of(tasks: u8, outcomes: &[Outcome], events: u64) -> Summary
    ensures { summary_text result ++ codes "\n" ≡ line_text tasks outcomes.now events }
{
    let (committed, refused) = numbers(outcomes);
    Summary {
        tasks: u64::from(tasks) + 1,
        committed,
        refused,
        events,
    }
}

/// The line of a grown script.
fn add_summary<K: Sink>(draft: &mut Draft, out: &mut K, summary: Summary)
    ensures { Took draft.old (K.at out.old) (summary_text summary ++ codes "\n") draft.new
        (K.at out.new) }
{
    draft.add(out, b"tasks ");
    draft.add_number(out, summary.tasks);
    draft.add(out, b" committed ");
    draft.add_number(out, summary.committed);
    draft.add(out, b" refused ");
    draft.add_number(out, summary.refused);
    draft.add(out, b" events ");
    draft.add_number(out, summary.events);
    draft.add(out, b"\n");
}

/// Writes the line of a grown script whose run made so many operations, over a blank draft, and tells the status. It takes no
/// memory.
pub fn finish_grown<K: Sink>(
    draft: Draft,
    tasks: u8,
    events: u64,
    played: &Played,
    out: &mut K,
) -> Status
    requires { IsBlank draft }
    ensures { Told (λ text. text ≡ line_text tasks played.now.outcomes.items events)
        (refusals played.now.opening played.now.outcomes.items played.now.refs) (K.at out.old)
        (K.at out.new) result }
{
    let mut draft = draft;
    add_summary(&mut draft, out, summary_of(tasks, &played.outcomes, events));
    let unwritten = draft.finish(out);
    causes_of(played, unwritten).status()
}
