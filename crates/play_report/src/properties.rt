//! The properties of snapshots of a log.
#![tactic(auto)]

ghost use Rattle.std.specs.Prelude.{◌≡◌};
ghost use Rattle.std.specs.List.{flat_map};
ghost use Rattle.drafts.specs.Drafts.{Took};
ghost use Rattle.play_report.specs.Report.{property_line};

use crate::texts::add_printed_text;
use crate::words::{add_small, add_text};
use drafts::Draft;
use ice_base::Sink;
use snapshot_file::Props;

/// A property, as a line.
fn add_property_line<K: Sink>(
    out: &mut Draft,
    to: &mut K,
    name: &[u8],
    line: u32,
    key: &str,
    value: &str,
)
    ensures { Took out.old (K.at to.old) (property_line name.now line (key.now, value.now)) out.new
        (K.at to.new) }
{
    out.add(to, name);
    out.add(to, b" ");
    add_small(out, to, line);
    out.add(to, b" prop ");
    add_text(out, to, key);
    out.add(to, b" ");
    add_printed_text(out, to, value);
    out.add(to, b"\n");
}

/// The properties of a snapshot of a log that was asked for in this line of the script, each as a line, in their order.
pub fn add_properties<K: Sink>(out: &mut Draft, to: &mut K, name: &[u8], line: u32, props: &Props)
    ensures { Took out.old (K.at to.old) (flat_map (property_line name.now line) props.now) out.new
        (K.at to.new) }
{
    for at in 0..props.len() {
        let (key, value) = props.row(at);
        add_property_line(out, to, name, line, key, value);
    }
}
