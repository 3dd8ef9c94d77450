//! What stands in a report, line by line, behind the first word of the line.
#![tactic(auto)]

ghost use Rattle.std.specs.Prelude.{◌≡◌, ◌<◌, ◌++◌, ◌∷◌, [], codes, decimal, map};
ghost use Rattle.std.specs.Char.{digit_char};
ghost use Rattle.std.specs.List.{flat_map};
ghost use Rattle.ice_ids.specs.Text.{id12_text};
ghost use Rattle.drafts.specs.Drafts.{Took};
ghost use Rattle.play_report.specs.Words.{◌space◌};
ghost use Rattle.play_report.specs.Refusals.{refusal_text};
ghost use Rattle.play_report.specs.Report.{node_kind, ref_kind, printed, byte_text, bytes_text, cells_text, value_text, why_text, shown_text, removed_text, refused_text, result_text, counts_text, checked_text, how_text, end_text, ref_text};

use crate::cells::add_cells;
use crate::refusals::add_refusal;
use crate::words::{
    add_id, add_name, add_path, add_small, add_text, add_told_id, add_told_numbers,
};
use check_reports::Checked;
use cleanup_reports::Removed;
use drafts::Draft;
use ice_base::{Bytes, Sink};
use ice_ids::Id12;
use play_outcome::{End, How, RefLine, Shown};
use store_api::Refusal;
use zarr_path::Path;

/// Whether a node is an array or a group.
fn add_node_kind<K: Sink>(out: &mut Draft, to: &mut K, array: bool)
    ensures { Took out.old (K.at to.old) (node_kind array) out.new (K.at to.new) }
{
    if array {
        out.add(to, b"array")
    } else {
        out.add(to, b"group")
    }
}

/// Whether a ref is a tag or a branch.
pub fn add_ref_kind<K: Sink>(out: &mut Draft, to: &mut K, tag: bool)
    ensures { Took out.old (K.at to.old) (ref_kind tag) out.new (K.at to.new) }
{
    if tag {
        out.add(to, b"tag")
    } else {
        out.add(to, b"branch")
    }
}

fn printed(byte: u8) -> u8
    ensures { result ≡ printed byte }
{
    if byte < 32 || byte == 127 { b' ' } else { byte }
}

/// A byte of metadata, or of a message.
fn add_printed_byte<K: Sink>(out: &mut Draft, to: &mut K, byte: u8)
    ensures { Took out.old (K.at to.old) (printed byte ∷ []) out.new (K.at to.new) }
{
    out.add_byte(to, printed(byte));
}

/// Metadata, or a message.
fn add_printed<K: Sink>(out: &mut Draft, to: &mut K, text: &[u8])
    ensures { Took out.old (K.at to.old) (map printed text.now) out.new (K.at to.new) }
{
    for byte in text {
        add_printed_byte(out, to, *byte);
    }
}

/// The same of a text.
pub fn add_printed_text<K: Sink>(out: &mut Draft, to: &mut K, text: &str)
    ensures { Took out.old (K.at to.old) (map printed text.now) out.new (K.at to.new) }
{
    add_printed(out, to, text.as_bytes());
}

/// A digit of base 16.
fn digit(value: u8) -> u8
    requires { value < 16 }
    ensures { result ≡ digit_char value }
{
    if value < 10 {
        b'0' + value
    } else {
        b'a' + (value - 10)
    }
}

/// A byte in two digits of base 16.
fn add_pair<K: Sink>(out: &mut Draft, to: &mut K, byte: u8)
    ensures { Took out.old (K.at to.old) (byte_text byte) out.new (K.at to.new) }
{
    out.add(to, &[digit(byte / 16), digit(byte % 16)]);
}

/// Bytes in pairs of digits of base 16.
fn add_pairs<K: Sink>(out: &mut Draft, to: &mut K, bytes: &[u8])
    ensures { Took out.old (K.at to.old) (flat_map byte_text bytes.now) out.new (K.at to.new) }
{
    for byte in bytes {
        add_pair(out, to, *byte);
    }
}

/// Bytes in pairs of digits of base 16, and `-` where there are none.
fn add_bytes<K: Sink>(out: &mut Draft, to: &mut K, bytes: &[u8])
    ensures { Took out.old (K.at to.old) (bytes_text bytes.now) out.new (K.at to.new) }
{
    match bytes {
        [] => out.add(to, b"-"),
        [_, ..] => add_pairs(out, to, bytes),
    }
}

/// The value of a key, if it has one.
fn add_value<K: Sink>(out: &mut Draft, to: &mut K, value: &Option<Bytes>)
    ensures { Took out.old (K.at to.old) (value_text value.now) out.new (K.at to.new) }
{
    match value {
        Some(bytes) => add_bytes(out, to, bytes.as_slice()),
        None => out.add(to, b"absent"),
    }
}

/// The line of a task, and a word, with a space behind each.
fn add_head<K: Sink>(out: &mut Draft, to: &mut K, line: u32, word: &str)
    ensures { Took out.old (K.at to.old) (decimal line space word.now ++ codes " ") out.new
        (K.at to.new) }
{
    add_small(out, to, line);
    out.add(to, b" ");
    add_text(out, to, word);
    out.add(to, b" ");
}

/// A node of a listing.
fn add_node<K: Sink>(out: &mut Draft, to: &mut K, line: u32, array: bool, path: &Path)
    ensures { Took out.old (K.at to.old) (decimal line space codes "list" space node_kind array
        space path.now) out.new (K.at to.new) }
{
    add_head(out, to, line, "list");
    add_node_kind(out, to, array);
    out.add(to, b" ");
    add_path(out, to, path);
}

/// The metadata of a node.
fn add_meta<K: Sink>(out: &mut Draft, to: &mut K, line: u32, text: &Bytes)
    ensures { Took out.old (K.at to.old) (decimal line space codes "meta" space map printed
        text.now) out.new (K.at to.new) }
{
    add_head(out, to, line, "meta");
    add_printed(out, to, text.as_slice());
}

/// The bytes of a chunk.
fn add_chunk<K: Sink>(out: &mut Draft, to: &mut K, line: u32, bytes: &Bytes)
    ensures { Took out.old (K.at to.old) (decimal line space codes "chunk" space bytes_text
        bytes.now) out.new (K.at to.new) }
{
    add_head(out, to, line, "chunk");
    add_bytes(out, to, bytes.as_slice());
}

/// A chunk that isn't written.
fn add_fill<K: Sink>(out: &mut Draft, to: &mut K, line: u32)
    ensures { Took out.old (K.at to.old) (decimal line space codes "fill") out.new (K.at to.new) }
{
    add_small(out, to, line);
    out.add(to, b" fill");
}

/// The numbers of a box of cells.
fn add_box<K: Sink>(out: &mut Draft, to: &mut K, line: u32, numbers: &[i128])
    ensures { Took out.old (K.at to.old) (decimal line space codes "cells" space cells_text
        numbers.now) out.new (K.at to.new) }
{
    add_head(out, to, line, "cells");
    add_cells(out, to, numbers);
}

/// The value of a key of the Zarr store.
fn add_key_value<K: Sink>(out: &mut Draft, to: &mut K, line: u32, value: &Option<Bytes>)
    ensures { Took out.old (K.at to.old) (decimal line space codes "zget" space value_text
        value.now) out.new (K.at to.new) }
{
    add_head(out, to, line, "zget");
    add_value(out, to, value);
}

/// A snapshot of a log.
fn add_log<K: Sink>(
    out: &mut Draft,
    to: &mut K,
    line: u32,
    id: Id12,
    flushed_at: u64,
    message: &str,
)
    ensures { Took out.old (K.at to.old) (decimal line space codes "log" space id12_text id space
        decimal flushed_at space map printed message.now) out.new (K.at to.new) }
{
    add_head(out, to, line, "log");
    add_id(out, to, id);
    out.add(to, b" ");
    out.add_number(to, flushed_at);
    out.add(to, b" ");
    add_printed_text(out, to, message);
}

/// Why a lease was left, if it was.
fn add_left_why<K: Sink>(out: &mut Draft, to: &mut K, left: &Option<Refusal>)
    ensures { Took out.old (K.at to.old) (why_text left.now) out.new (K.at to.new) }
{
    match left {
        None => {}
        Some(why) => add_refusal(out, to, why),
    }
}

/// A lease that was left, by its line and its id, and why.
fn add_lease<K: Sink>(out: &mut Draft, to: &mut K, line: u32, id: Id12, left: &Option<Refusal>)
    ensures { Took out.old (K.at to.old)
        (decimal line space codes "unreleased" space id12_text id space why_text left.now) out.new
        (K.at to.new) }
{
    add_head(out, to, line, "unreleased");
    add_id(out, to, id);
    out.add(to, b" ");
    add_left_why(out, to, left);
}

/// What a task showed.
pub fn add_shown<K: Sink>(out: &mut Draft, to: &mut K, shown: &Shown)
    ensures { Took out.old (K.at to.old) (shown_text shown.now) out.new (K.at to.new) }
{
    match shown {
        Shown::Node { line, array, path } => add_node(out, to, *line, *array, path),
        Shown::Meta { line, text } => add_meta(out, to, *line, text),
        Shown::Chunk { line, bytes } => add_chunk(out, to, *line, bytes),
        Shown::Fill { line } => add_fill(out, to, *line),
        Shown::Cells { line, numbers } => add_box(out, to, *line, numbers.as_slice()),
        Shown::Key { line, bytes } => add_key_value(out, to, *line, bytes),
        Shown::Log {
            line,
            id,
            flushed_at,
            message,
            props: _,
        } => add_log(out, to, *line, *id, *flushed_at, message.as_str()),
        Shown::Lease { line, id, left } => add_lease(out, to, *line, *id, left),
    }
}

/// How many snapshots, logs, manifests and objects with chunks a collection removed.
pub fn add_removed<K: Sink>(out: &mut Draft, to: &mut K, removed: Removed)
    ensures { Took out.old (K.at to.old) (removed_text removed) out.new (K.at to.new) }
{
    out.add(to, b"collected ");
    out.add_number(to, removed.snapshots);
    out.add(to, b" ");
    out.add_number(to, removed.logs);
    out.add(to, b" ");
    out.add_number(to, removed.manifests);
    out.add(to, b" ");
    out.add_number(to, removed.chunks);
}

/// The line that was refused, and why.
fn add_refused_at<K: Sink>(out: &mut Draft, to: &mut K, line: u32, why: &Refusal)
    ensures { Took out.old (K.at to.old) (refused_text line why.now) out.new (K.at to.new) }
{
    out.add(to, b"refused ");
    add_small(out, to, line);
    out.add(to, b" ");
    add_refusal(out, to, why);
}

/// How what began on this line ended.
fn add_result<K: Sink>(out: &mut Draft, to: &mut K, line: u32, outcome: &Result<(), Refusal>)
    ensures { Took out.old (K.at to.old) (result_text line outcome.now) out.new (K.at to.new) }
{
    match outcome {
        Ok(()) => out.add(to, b"done"),
        Err(why) => add_refused_at(out, to, line, why),
    }
}

/// That a doubt couldn't be settled, and why.
fn add_unsettled<K: Sink>(out: &mut Draft, to: &mut K, why: &Refusal)
    ensures { Took out.old (K.at to.old) (codes "unsettled" space refusal_text why.now) out.new
        (K.at to.new) }
{
    out.add(to, b"unsettled ");
    add_refusal(out, to, why);
}

/// What its branch told of a commit in doubt.
fn add_how<K: Sink>(out: &mut Draft, to: &mut K, how: &How)
    ensures { Took out.old (K.at to.old) (how_text how.now) out.new (K.at to.new) }
{
    match how {
        How::Committed => out.add(to, b"committed"),
        How::NotCommitted => out.add(to, b"notcommitted"),
        How::NotAncestor => out.add(to, b"notancestor"),
        How::NoRef => out.add(to, b"noref"),
        How::Unsettled(why) => add_unsettled(out, to, why),
    }
}

/// The snapshot of a commit in doubt, and what its branch told of it.
fn add_doubt<K: Sink>(out: &mut Draft, to: &mut K, id: Id12, how: &How)
    ensures { Took out.old (K.at to.old) (codes "indoubt" space id12_text id space how_text how.now)
        out.new (K.at to.new) }
{
    out.add(to, b"indoubt ");
    add_id(out, to, id);
    out.add(to, b" ");
    add_how(out, to, how);
}

/// How many snapshots and objects with chunks a check found.
fn add_counts<K: Sink>(out: &mut Draft, to: &mut K, counts: Checked)
    ensures { Took out.old (K.at to.old) (counts_text counts) out.new (K.at to.new) }
{
    add_told_numbers(out, to, "checked", counts.snapshots, counts.chunks);
}

/// How a check ended that began on this line.
fn add_checked<K: Sink>(out: &mut Draft, to: &mut K, line: u32, ended: &Result<Checked, Refusal>)
    ensures { Took out.old (K.at to.old) (checked_text line ended.now) out.new (K.at to.new) }
{
    match ended {
        Ok(counts) => add_counts(out, to, *counts),
        Err(why) => add_refused_at(out, to, line, why),
    }
}

/// How a task ended.
pub fn add_end<K: Sink>(out: &mut Draft, to: &mut K, end: &End)
    ensures { Took out.old (K.at to.old) (end_text end.now) out.new (K.at to.new) }
{
    match end {
        End::Committed(id) => add_told_id(out, to, "committed", *id),
        End::Collected(removed) => add_removed(out, to, *removed),
        End::Done => out.add(to, b"done"),
        End::Refused { line, why } | End::Stopped { line, why, .. } => add_refused_at(
            out, to, *line, why,
        ),
        End::InDoubt { id, how } => add_doubt(out, to, *id, how),
        End::Expired { line, result, .. } => add_result(out, to, *line, result),
        End::Checked { line, result, .. } => add_checked(out, to, *line, result),
    }
}

/// The ref's name and the snapshot's id.
pub fn add_ref<K: Sink>(out: &mut Draft, to: &mut K, line: &RefLine)
    ensures { Took out.old (K.at to.old) (ref_text line.now) out.new (K.at to.new) }
{
    add_name(out, to, &line.name);
    out.add(to, b" ");
    add_id(out, to, line.id);
}
