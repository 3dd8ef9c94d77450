//! The numbers of cells.
#![tactic(auto)]

ghost use Rattle.std.specs.Prelude.{◌≡◌, ◌++◌};
ghost use Rattle.std.specs.Fmt.{signed_decimal};
ghost use Rattle.std.specs.List.{flat_map};
ghost use Rattle.drafts.specs.Drafts.{Took};
ghost use Rattle.play_report.specs.Report.{next_cell, cells_text};

use drafts::Draft;
use ice_base::Sink;

/// A number behind a comma.
fn add_next_cell<K: Sink>(out: &mut Draft, to: &mut K, number: i128)
    ensures { Took out.old (K.at to.old) (next_cell number) out.new (K.at to.new) }
{
    out.add(to, b",");
    out.add_signed(to, number);
}

/// Numbers, each behind a comma.
fn add_more_cells<K: Sink>(out: &mut Draft, to: &mut K, numbers: &[i128])
    ensures { Took out.old (K.at to.old) (flat_map next_cell numbers.now) out.new (K.at to.new) }
{
    for number in numbers {
        add_next_cell(out, to, *number);
    }
}

/// A number, and others, each behind a comma.
fn add_some_cells<K: Sink>(out: &mut Draft, to: &mut K, first: i128, more: &[i128])
    ensures { Took out.old (K.at to.old) (signed_decimal first ++ flat_map next_cell more.now)
        out.new (K.at to.new) }
{
    out.add_signed(to, first);
    add_more_cells(out, to, more);
}

/// Numbers, joined by commas, and `-` where there are none.
pub fn add_cells<K: Sink>(out: &mut Draft, to: &mut K, numbers: &[i128])
    ensures { Took out.old (K.at to.old) (cells_text numbers.now) out.new (K.at to.new) }
{
    match numbers {
        [] => out.add(to, b"-"),
        [first, more @ ..] => add_some_cells(out, to, *first, more),
    }
}
