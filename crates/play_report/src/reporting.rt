//! The report of a run.
#![tactic(auto)]

ghost use Rattle.std.specs.Prelude.{◌≡◌, map};
ghost use Rattle.std.specs.List.{flat_map};
ghost use Rattle.drafts.specs.Drafts.{Took};
ghost use Rattle.play_report.specs.Report.{line_of, is_nothing, removed_text, removed_lines, done_lines, end_text, property_lines, shown_line, is_lease, shown_lines, is_left, left_lines, outcome_text, tasks_text, ref_line, refs_text, refused_line, played_text, report_of};

use crate::cases::add_cases;
use crate::checks::add_faults;
use crate::properties::add_properties;
use crate::refusals::add_refusal;
use crate::texts::{add_end, add_ref, add_ref_kind, add_removed, add_shown};
use cleanup_reports::Removed;
use drafts::Draft;
use ice_base::Sink;
use play_outcome::{End, Outcome, RefLine, RefLines, Shown};
use store_api::Refusal;

/// A line that a task showed.
fn add_shown_line<K: Sink>(out: &mut Draft, to: &mut K, name: &[u8], shown: &Shown)
    ensures { Took out.old (K.at to.old) (shown_line name.now shown.now) out.new (K.at to.new) }
{
    out.add(to, name);
    out.add(to, b" ");
    add_shown(out, to, shown);
    out.add(to, b"\n");
}

/// What is shown of a line in lines of their own: one for each property of a snapshot of a log.
fn add_property_lines<K: Sink>(out: &mut Draft, to: &mut K, name: &[u8], shown: &Shown)
    ensures { Took out.old (K.at to.old) (property_lines name.now shown.now) out.new (K.at to.new) }
{
    match shown {
        Shown::Node { .. }
        | Shown::Meta { .. }
        | Shown::Chunk { .. }
        | Shown::Fill { .. }
        | Shown::Cells { .. }
        | Shown::Key { .. }
        | Shown::Lease { .. } => {}
        Shown::Log { line, props, .. } => add_properties(out, to, name, *line, props),
    }
}

fn is_lease(shown: &Shown) -> bool
    ensures { result ≡ is_lease shown.now }
{
    matches!(shown, Shown::Lease { .. })
}

/// What a task showed: a line, and one for each property of a snapshot of a log; but nothing of a lease.
fn add_shown_lines<K: Sink>(out: &mut Draft, to: &mut K, name: &[u8], shown: &Shown)
    ensures { Took out.old (K.at to.old) (shown_lines name.now shown.now) out.new (K.at to.new) }
{
    if is_lease(shown) {
        return;
    }
    add_shown_line(out, to, name, shown);
    add_property_lines(out, to, name, shown);
}

/// The lines that a task showed.
fn add_all_shown<K: Sink>(out: &mut Draft, to: &mut K, name: &[u8], all: &[Shown])
    ensures { Took out.old (K.at to.old) (flat_map (shown_lines name.now) all.now) out.new
        (K.at to.new) }
{
    for shown in all {
        add_shown_lines(out, to, name, shown);
    }
}

fn is_left(shown: &Shown) -> bool
    ensures { result ≡ is_left shown.now }
{
    matches!(shown, Shown::Lease { left: Some(_), .. })
}

/// A lease that was left, as a line.
fn add_left_lines<K: Sink>(out: &mut Draft, to: &mut K, name: &[u8], shown: &Shown)
    ensures { Took out.old (K.at to.old) (left_lines name.now shown.now) out.new (K.at to.new) }
{
    if !is_left(shown) {
        return;
    }
    add_shown_line(out, to, name, shown);
}

/// The leases that were left, a line for each.
fn add_all_left<K: Sink>(out: &mut Draft, to: &mut K, name: &[u8], all: &[Shown])
    ensures { Took out.old (K.at to.old) (flat_map (left_lines name.now) all.now) out.new
        (K.at to.new) }
{
    for shown in all {
        add_left_lines(out, to, name, shown);
    }
}

fn is_nothing(removed: Removed) -> bool
    ensures { result ≡ is_nothing removed }
{
    removed.snapshots == 0 && removed.logs == 0 && removed.manifests == 0 && removed.chunks == 0
}

/// What a collection removed, as a line.
fn add_removed_line<K: Sink>(out: &mut Draft, to: &mut K, name: &[u8], removed: Removed)
    ensures { Took out.old (K.at to.old) (line_of name.now (removed_text removed)) out.new
        (K.at to.new) }
{
    out.add(to, name);
    out.add(to, b" ");
    add_removed(out, to, removed);
    out.add(to, b"\n");
}

/// What a collection removed, as a line, if it removed anything.
fn add_removed_lines<K: Sink>(out: &mut Draft, to: &mut K, name: &[u8], removed: Removed)
    ensures { Took out.old (K.at to.old) (removed_lines name.now removed) out.new (K.at to.new) }
{
    if is_nothing(removed) {
        return;
    }
    add_removed_line(out, to, name, removed);
}

/// What was done, as lines: what a collection removed that was refused, what an expiry made of each ref, and the faults that a check found.
fn add_done_lines<K: Sink>(out: &mut Draft, to: &mut K, name: &[u8], end: &End)
    ensures { Took out.old (K.at to.old) (done_lines name.now end.now) out.new (K.at to.new) }
{
    match end {
        End::Committed(_)
        | End::Collected(_)
        | End::Done
        | End::Refused { .. }
        | End::InDoubt { .. } => {}
        End::Stopped { removed, .. } => add_removed_lines(out, to, name, *removed),
        End::Expired { line, cases, .. } => add_cases(out, to, name, *line, cases.as_slice()),
        End::Checked { faults, .. } => add_faults(out, to, name, faults.as_slice()),
    }
}

/// How a task ended, as a line.
fn add_end_line<K: Sink>(out: &mut Draft, to: &mut K, name: &[u8], end: &End)
    ensures { Took out.old (K.at to.old) (line_of name.now (end_text end.now)) out.new
        (K.at to.new) }
{
    out.add(to, name);
    out.add(to, b" ");
    add_end(out, to, end);
    out.add(to, b"\n");
}

/// Adds what the task of this name showed, line by line, the leases that it left, what it had done, and how it ended.
pub fn add_outcome<K: Sink>(out: &mut Draft, to: &mut K, name: &[u8], outcome: &Outcome)
    ensures { Took out.old (K.at to.old) (outcome_text name.now outcome.now) out.new (K.at to.new) }
{
    add_all_shown(out, to, name, outcome.shown.as_slice());
    add_all_left(out, to, name, outcome.shown.as_slice());
    add_done_lines(out, to, name, &outcome.end);
    add_end_line(out, to, name, &outcome.end);
}

/// The line that stands in the place of what was refused.
fn add_refused<K: Sink>(out: &mut Draft, to: &mut K, what: &[u8], why: &Refusal)
    ensures { Took out.old (K.at to.old) (refused_line what.now why.now) out.new (K.at to.new) }
{
    out.add(to, what);
    out.add(to, b" refused ");
    add_refusal(out, to, why);
    out.add(to, b"\n");
}

/// A ref, as a line.
fn add_ref_line<K: Sink>(out: &mut Draft, to: &mut K, line: &RefLine)
    ensures { Took out.old (K.at to.old) (ref_line line.now) out.new (K.at to.new) }
{
    add_ref_kind(out, to, line.tag);
    out.add(to, b" ");
    add_ref(out, to, line);
    out.add(to, b"\n");
}

/// A line for each ref.
fn add_ref_lines<K: Sink>(out: &mut Draft, to: &mut K, refs: &[RefLine])
    ensures { Took out.old (K.at to.old) (flat_map ref_line refs.now) out.new (K.at to.new) }
{
    for line in refs {
        add_ref_line(out, to, line);
    }
}

/// A line for each ref, in the order given, or the one line that tells why the refs weren't read.
fn add_refs<K: Sink>(out: &mut Draft, to: &mut K, refs: &Result<RefLines, Refusal>)
    ensures { Took out.old (K.at to.old) (refs_text refs.now) out.new (K.at to.new) }
{
    match refs {
        Ok(refs) => add_ref_lines(out, to, refs.as_slice()),
        Err(why) => add_refused(out, to, b"refs", why),
    }
}

/// Each task in order, under its name.
fn add_tasks<K: Sink>(out: &mut Draft, to: &mut K, names: &[&[u8]], outcomes: &[Outcome])
    ensures { Took out.old (K.at to.old) (tasks_text (map (λ n. n.now) names.now) outcomes.now)
        out.new (K.at to.new) }
{
    for place in 0..names.len().min(outcomes.len()) {
        add_outcome(out, to, names[place], &outcomes[place]);
    }
}

/// The tasks, in whose place a refused opening stands.
fn add_played<K: Sink>(
    out: &mut Draft,
    to: &mut K,
    names: &[&[u8]],
    opening: &Result<(), Refusal>,
    outcomes: &[Outcome],
)
    ensures { Took out.old (K.at to.old) (played_text (map (λ n. n.now) names.now) opening.now
        outcomes.now) out.new (K.at to.new) }
{
    match opening {
        Ok(()) => add_tasks(out, to, names, outcomes),
        Err(why) => add_refused(out, to, b"init", why),
    }
}

/// Adds the report of a run: what each task showed and how it ended, in the order of the script, and then
/// the refs in the order given. `names` and `outcomes` go by the tasks of the script, from the first
/// on; what one of them has beyond the other is left out. Where the opening was refused, `init refused` and its text stand in the place of all tasks;
/// where the closing reading was refused, `refs refused` and its text in the place of the refs.
pub fn add_report<K: Sink>(
    out: &mut Draft,
    to: &mut K,
    names: &[&[u8]],
    opening: &Result<(), Refusal>,
    outcomes: &[Outcome],
    refs: &Result<RefLines, Refusal>,
)
    ensures { Took out.old (K.at to.old) (report_of (map (λ n. n.now) names.now) opening.now
        outcomes.now refs.now) out.new (K.at to.new) }
{
    add_played(out, to, names, opening, outcomes);
    add_refs(out, to, refs);
}
