//! What a mirror prints.

ghost use Rattle.std.specs.List.{flat_map};
ghost use Rattle.drafts.specs.Drafts.{Took};
ghost use Rattle.ice_ids.specs.Text.{id12_text};
ghost use Rattle.run_mirror.specs.Texts.{kind_text, put_text, ref_text, counts_text, refused_text, result_text, mirror_text};

use drafts::Draft;
use ice_base::{RefName, Sink};
use ice_ids::Id12;
use mirror_reports::{MirrorEnd, MirrorRef, Mirrored};
use play_report::add_refusal;
use store_api::Refusal;

/// Whether a ref is a branch or a tag.
fn add_kind<K: Sink>(out: &mut Draft, to: &mut K, tag: bool)
    ensures { Took out.old (K.at to.old) (kind_text tag) out.new (K.at to.new) }
{
    if tag {
        out.add(to, b"tag ")
    } else {
        out.add(to, b"branch ")
    }
}

/// Whether a ref was put.
fn add_put<K: Sink>(out: &mut Draft, to: &mut K, put: bool)
    ensures { Took out.old (K.at to.old) (put_text put) out.new (K.at to.new) }
{
    if put {
        out.add(to, b" put\n")
    } else {
        out.add(to, b" kept\n")
    }
}

/// A text.
fn add_text<K: Sink>(out: &mut Draft, to: &mut K, text: &str)
    ensures { Took out.old (K.at to.old) text.now out.new (K.at to.new) }
{
    out.add(to, text.as_bytes());
}

/// The name of a ref.
fn add_name<K: Sink>(out: &mut Draft, to: &mut K, name: &RefName)
    ensures { Took out.old (K.at to.old) name.now out.new (K.at to.new) }
{
    add_text(out, to, name.as_str());
}

/// The id of a snapshot.
fn add_id<K: Sink>(out: &mut Draft, to: &mut K, id: Id12)
    ensures { Took out.old (K.at to.old) (id12_text id) out.new (K.at to.new) }
{
    out.add(to, &id.text());
}

/// The line of a ref.
fn add_ref<K: Sink>(out: &mut Draft, to: &mut K, told: &MirrorRef)
    ensures { Took out.old (K.at to.old) (ref_text told.now) out.new (K.at to.new) }
{
    add_kind(out, to, told.tag);
    add_name(out, to, &told.name);
    out.add(to, b" ");
    add_id(out, to, told.id);
    add_put(out, to, told.put);
}

/// The lines of refs.
fn add_refs<K: Sink>(out: &mut Draft, to: &mut K, refs: &[MirrorRef])
    ensures { Took out.old (K.at to.old) (flat_map ref_text refs.now) out.new (K.at to.new) }
{
    for told in refs {
        add_ref(out, to, told);
    }
}

/// How many objects were put.
fn add_counts<K: Sink>(out: &mut Draft, to: &mut K, counts: &Mirrored)
    ensures { Took out.old (K.at to.old) (counts_text counts.now) out.new (K.at to.new) }
{
    out.add(to, b"mirrored ");
    out.add_number(to, counts.snapshots);
    out.add(to, b" ");
    out.add_number(to, counts.logs);
    out.add(to, b" ");
    out.add_number(to, counts.manifests);
    out.add(to, b" ");
    out.add_number(to, counts.chunks);
    out.add(to, b"\n");
}

/// Why the mirror was refused.
fn add_refused<K: Sink>(out: &mut Draft, to: &mut K, why: &Refusal)
    ensures { Took out.old (K.at to.old) (refused_text why.now) out.new (K.at to.new) }
{
    out.add(to, b"mirror refused ");
    add_refusal(out, to, why);
    out.add(to, b"\n");
}

/// The last line.
fn add_result<K: Sink>(out: &mut Draft, to: &mut K, ended: &Result<Mirrored, Refusal>)
    ensures { Took out.old (K.at to.old) (result_text ended.now) out.new (K.at to.new) }
{
    match ended {
        Ok(counts) => add_counts(out, to, counts),
        Err(why) => add_refused(out, to, why),
    }
}

/// What a mirror tells: a line for each ref, and one of what it put, or why it was refused.
pub fn add_mirror<K: Sink>(out: &mut Draft, to: &mut K, end: &MirrorEnd)
    ensures { Took out.old (K.at to.old) (mirror_text end.now) out.new (K.at to.new) }
{
    add_refs(out, to, end.refs.as_slice());
    add_result(out, to, &end.result);
}
