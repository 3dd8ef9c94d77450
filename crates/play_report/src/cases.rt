//! What an expiry made of refs, as lines of a report.
#![tactic(auto)]

ghost use Rattle.std.specs.Prelude.{◌≡◌};
ghost use Rattle.std.specs.List.{flat_map};
ghost use Rattle.drafts.specs.Drafts.{Took};
ghost use Rattle.play_report.specs.Report.{line_of, what_text, case_text, case_lines};

use crate::texts::add_ref_kind;
use crate::words::{add_name, add_small, add_told_id};
use cleanup_reports::{RefCase, What};
use drafts::Draft;
use ice_base::{RefName, Sink};
use object_store::Key;

/// What an expiry made of a ref.
fn add_what<K: Sink>(out: &mut Draft, to: &mut K, what: What)
    ensures { Took out.old (K.at to.old) (what_text what) out.new (K.at to.new) }
{
    match what {
        What::Kept => out.add(to, b"kept"),
        What::Cut(id) => add_told_id(out, to, "cut", id),
        What::Dropped => out.add(to, b"dropped"),
        What::Moved => out.add(to, b"moved"),
        What::Absent => out.add(to, b"absent"),
    }
}

/// The script's line, a ref, and what became of it.
fn add_case<K: Sink>(out: &mut Draft, to: &mut K, line: u32, tag: bool, name: &RefName, what: What)
    ensures { Took out.old (K.at to.old) (case_text line tag name.now what) out.new (K.at to.new) }
{
    add_small(out, to, line);
    out.add(to, b" ");
    add_ref_kind(out, to, tag);
    out.add(to, b" ");
    add_name(out, to, name);
    out.add(to, b" ");
    add_what(out, to, what);
}

/// That as a line of a task.
fn add_case_line<K: Sink>(
    out: &mut Draft,
    to: &mut K,
    task: &[u8],
    line: u32,
    tag: bool,
    name: &RefName,
    what: What,
)
    ensures { Took out.old (K.at to.old) (line_of task.now (case_text line tag name.now what))
        out.new (K.at to.new) }
{
    out.add(to, task);
    out.add(to, b" ");
    add_case(out, to, line, tag, name, what);
    out.add(to, b"\n");
}

/// A line for a branch or a tag; other objects are no refs.
fn add_case_lines<K: Sink>(out: &mut Draft, to: &mut K, task: &[u8], line: u32, case: &RefCase)
    ensures { Took out.old (K.at to.old) (case_lines task.now line case.now) out.new (K.at to.new) }
{
    match &case.key {
        Key::Branch(name) => add_case_line(out, to, task, line, false, name, case.what),
        Key::Tag(name) => add_case_line(out, to, task, line, true, name, case.what),
        Key::Snapshot(_)
        | Key::Manifest(_)
        | Key::Txn(_)
        | Key::Chunk(_)
        | Key::Tombstone(_)
        | Key::Lease(_) => {}
    }
}

/// A line for each ref that an expiry came to.
pub fn add_cases<K: Sink>(out: &mut Draft, to: &mut K, task: &[u8], line: u32, cases: &[RefCase])
    ensures { Took out.old (K.at to.old) (flat_map (case_lines task.now line) cases.now) out.new
        (K.at to.new) }
{
    for case in cases {
        add_case_lines(out, to, task, line, case);
    }
}
