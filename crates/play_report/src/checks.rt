//! What a check found, as lines of a report.
#![tactic(auto)]

ghost use Rattle.std.specs.Prelude.{◌≡◌};
ghost use Rattle.std.specs.List.{flat_map};
ghost use Rattle.drafts.specs.Drafts.{Took};
ghost use Rattle.play_report.specs.Report.{line_of, fault_word, fault_text, fault_line};

use crate::words::add_key;
use check_reports::{CheckFault, FaultKind};
use drafts::Draft;
use ice_base::Sink;

/// What is wrong with an object, in a word.
fn add_fault_word<K: Sink>(out: &mut Draft, to: &mut K, kind: &FaultKind)
    ensures { Took out.old (K.at to.old) (fault_word kind.now) out.new (K.at to.new) }
{
    match kind {
        FaultKind::Absent => out.add(to, b"absent"),
        FaultKind::Bad(_) => out.add(to, b"bad"),
        FaultKind::Ring => out.add(to, b"ring"),
        FaultKind::NotWell { .. } => out.add(to, b"notwell"),
    }
}

/// That, and the object's name.
fn add_fault<K: Sink>(out: &mut Draft, to: &mut K, fault: &CheckFault)
    ensures { Took out.old (K.at to.old) (fault_text fault.now) out.new (K.at to.new) }
{
    add_fault_word(out, to, &fault.kind);
    out.add(to, b" ");
    add_key(out, to, &fault.key);
}

/// That as a line of a task.
fn add_fault_line<K: Sink>(out: &mut Draft, to: &mut K, task: &[u8], fault: &CheckFault)
    ensures { Took out.old (K.at to.old) (fault_line task.now fault.now) out.new (K.at to.new) }
{
    out.add(to, task);
    out.add(to, b" ");
    add_fault(out, to, fault);
    out.add(to, b"\n");
}

/// A line for each fault that a check found.
pub fn add_faults<K: Sink>(out: &mut Draft, to: &mut K, task: &[u8], faults: &[CheckFault])
    ensures { Took out.old (K.at to.old) (flat_map (fault_line task.now) faults.now) out.new
        (K.at to.new) }
{
    for fault in faults {
        add_fault_line(out, to, task, fault);
    }
}
