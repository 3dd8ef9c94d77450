//! The texts of refusals.
#![tactic(auto)]

ghost use Rattle.std.specs.Prelude.{◌≡◌, ◌++◌, codes, decimal};
ghost use Rattle.zarr_tree.specs.Cases.{number};
ghost use Rattle.drafts.specs.Drafts.{Took};
ghost use Rattle.play_report.specs.Words.{◌space◌};
ghost use Rattle.play_report.specs.Refusals.{conflict_text, conflicts_text, edit_text, frozen_text, index_text, kind_text, more_numbers, place_text, prop_text, refusal_text, region_text, version_text};
ghost use Rattle.store_api.specs.declared.machines.Refusal.TheVariants.{LostRace, Left, Moved};

use crate::words::{
    add_id, add_path, add_small, add_told_id, add_told_key, add_told_number, add_told_numbers,
    add_told_text,
};
use drafts::Draft;
use flat_tables::Kind;
use ice_base::Sink;
use ice_ids::Id12;
use snapshot_file::PropFault;
use store_api::{Refusal, RegionFault, Version};
use zarr_path::Index;
use zarr_tree::{Case, Conflict, EditFault, Frozen};

/// The version that stood at a ref, and `-` where none did.
fn add_version<K: Sink>(out: &mut Draft, to: &mut K, found: Option<Version>)
    ensures { Took out.old (K.at to.old) (version_text found) out.new (K.at to.new) }
{
    match found {
        Some(version) => out.add_number(to, version.0),
        None => out.add(to, b"-"),
    }
}

/// The name of a part of metadata that stays as it is.
fn frozen_text(part: Frozen) -> &'static str
    ensures { result.now ≡ frozen_text part }
{
    match part {
        Frozen::NodeType => "node_type",
        Frozen::Rank => "rank",
        Frozen::DataType => "data_type",
        Frozen::ChunkGrid => "chunk_grid",
        Frozen::Codecs => "codecs",
    }
}

/// The name of a kind of files.
fn kind_text(kind: Kind) -> &'static str
    ensures { result.now ≡ kind_text kind }
{
    match kind {
        Kind::Snapshot => "snapshot",
        Kind::Manifest => "manifest",
        Kind::Log => "log",
    }
}

/// Why a property doesn't go in.
fn prop_text(fault: PropFault) -> &'static str
    ensures { result.now ≡ prop_text fault }
{
    match fault {
        PropFault::Name => "name",
        PropFault::Value => "value",
        PropFault::Twice => "twice",
        PropFault::Many => "many",
        PropFault::NoMemory => "nomemory",
    }
}

/// A number behind a comma.
fn add_next_number<K: Sink>(out: &mut Draft, to: &mut K, number: u32)
    ensures { Took out.old (K.at to.old) (codes "," ++ decimal number) out.new (K.at to.new) }
{
    out.add(to, b",");
    add_small(out, to, number);
}

/// Numbers, each behind a comma.
fn add_more_numbers<K: Sink>(out: &mut Draft, to: &mut K, numbers: &[u32])
    ensures { Took out.old (K.at to.old) (more_numbers numbers.now) out.new (K.at to.new) }
{
    for number in numbers {
        add_next_number(out, to, *number);
    }
}

/// A number, and others, each behind a comma.
fn add_numbers<K: Sink>(out: &mut Draft, to: &mut K, first: u32, more: &[u32])
    ensures { Took out.old (K.at to.old) (decimal first ++ more_numbers more.now) out.new
        (K.at to.new) }
{
    add_small(out, to, first);
    add_more_numbers(out, to, more);
}

/// The numbers of an index, joined by commas, and `-` where there are none.
fn add_index<K: Sink>(out: &mut Draft, to: &mut K, index: &[u32])
    ensures { Took out.old (K.at to.old) (index_text index.now) out.new (K.at to.new) }
{
    match index {
        [] => out.add(to, b"-"),
        [first, more @ ..] => add_numbers(out, to, *first, more),
    }
}

/// The index of a chunk behind a colon.
fn add_chunk_index<K: Sink>(out: &mut Draft, to: &mut K, index: &Index)
    ensures { Took out.old (K.at to.old) (codes ":" ++ index_text index.now) out.new (K.at to.new) }
{
    out.add(to, b":");
    add_index(out, to, index.parts());
}

/// The index of a chunk behind a colon, if there is one.
fn add_place<K: Sink>(out: &mut Draft, to: &mut K, index: &Option<Index>)
    ensures { Took out.old (K.at to.old) (place_text index.now) out.new (K.at to.new) }
{
    match index {
        Some(index) => add_chunk_index(out, to, index),
        None => {}
    }
}

/// The number of a case of conflicts.
fn add_case<K: Sink>(out: &mut Draft, to: &mut K, case: Case)
    ensures { Took out.old (K.at to.old) (decimal (number case)) out.new (K.at to.new) }
{
    add_small(out, to, u32::from(case.number()));
}

/// A conflict, behind a space.
fn add_conflict<K: Sink>(out: &mut Draft, to: &mut K, conflict: &Conflict)
    ensures { Took out.old (K.at to.old) (codes " " ++ conflict_text conflict.now) out.new
        (K.at to.new) }
{
    out.add(to, b" ");
    add_case(out, to, conflict.case);
    out.add(to, b":");
    add_path(out, to, &conflict.path);
    add_place(out, to, &conflict.index);
}

/// Conflicts, each behind a space.
fn add_conflicts<K: Sink>(out: &mut Draft, to: &mut K, conflicts: &[Conflict])
    ensures { Took out.old (K.at to.old) (conflicts_text conflicts.now) out.new (K.at to.new) }
{
    for conflict in conflicts {
        add_conflict(out, to, conflict);
    }
}

/// The snapshot of a commit, and its conflicts that stay.
fn add_left<K: Sink>(out: &mut Draft, to: &mut K, at: Id12, conflicts: &[Conflict])
    ensures { Took out.old (K.at to.old) (refusal_text (Left at conflicts.now)) out.new
        (K.at to.new) }
{
    out.add(to, b"left ");
    add_id(out, to, at);
    add_conflicts(out, to, conflicts);
}

/// The version that stood at a ref, behind a word.
fn add_moved<K: Sink>(out: &mut Draft, to: &mut K, found: Option<Version>)
    ensures { Took out.old (K.at to.old) (refusal_text (Moved found)) out.new (K.at to.new) }
{
    out.add(to, b"moved ");
    add_version(out, to, found);
}

/// The version that was read of a branch, and the one that stood there, behind a word.
fn add_lost<K: Sink>(out: &mut Draft, to: &mut K, old: Version, found: Option<Version>)
    ensures { Took out.old (K.at to.old) (refusal_text (LostRace old found)) out.new (K.at to.new) }
{
    out.add(to, b"conflict ");
    out.add_number(to, old.0);
    out.add(to, b" ");
    add_version(out, to, found);
}

/// Why a tree doesn't take an edit.
fn add_edit<K: Sink>(out: &mut Draft, to: &mut K, fault: EditFault)
    ensures { Took out.old (K.at to.old) (edit_text fault) out.new (K.at to.new) }
{
    match fault {
        EditFault::NodeExists => out.add(to, b"nodeexists"),
        EditFault::NoParent => out.add(to, b"noparent"),
        EditFault::Full => out.add(to, b"full"),
        EditFault::NoNode => out.add(to, b"nonode"),
        EditFault::FrozenField(part) => add_told_text(out, to, "frozen", frozen_text(part)),
        EditFault::NotArray => out.add(to, b"notarray"),
        EditFault::OutOfGrid => out.add(to, b"outofgrid"),
        EditFault::ChunkLength { want, got } => add_told_numbers(out, to, "chunklength", want, got),
        EditFault::NoMemory => out.add(to, b"nomemory"),
    }
}

/// Why a box of cells can't be read or written.
fn add_region<K: Sink>(out: &mut Draft, to: &mut K, fault: RegionFault)
    ensures { Took out.old (K.at to.old) (region_text fault) out.new (K.at to.new) }
{
    match fault {
        RegionFault::OutOfShape => out.add(to, b"outofshape"),
        RegionFault::Large => out.add(to, b"regionlarge"),
        RegionFault::CellCount { want, got } => add_told_numbers(out, to, "cellcount", want, got),
        RegionFault::CellRange { at } => add_told_number(out, to, "cellrange", at),
    }
}

/// Adds the text of a refusal: its word, and behind it, after spaces, what it tells. A ref that was found absent is told as `-`.
pub fn add_refusal<K: Sink>(out: &mut Draft, to: &mut K, why: &Refusal)
    ensures { Took out.old (K.at to.old) (refusal_text why.now) out.new (K.at to.new) }
{
    match why {
        Refusal::NoRef => out.add(to, b"noref"),
        Refusal::Edit(fault) => add_edit(out, to, *fault),
        Refusal::BadMeta(fault) => add_told_text(out, to, "badmeta", fault.text()),
        Refusal::ReadOnly => out.add(to, b"readonly"),
        Refusal::Missing(key) => add_told_key(out, to, "missing", key),
        Refusal::BadFile(key, _) => add_told_key(out, to, "badfile", key),
        Refusal::TooDeep => out.add(to, b"toodeep"),
        Refusal::StoreFault => out.add(to, b"storefault"),
        Refusal::IdTaken(key) => add_told_key(out, to, "idtaken", key),
        Refusal::NoMemory => out.add(to, b"nomemory"),
        Refusal::IdsSpent => out.add(to, b"idsspent"),
        Refusal::BadKey => out.add(to, b"badkey"),
        Refusal::LostRace { old, found } => add_lost(out, to, *old, *found),
        Refusal::NothingToCommit => out.add(to, b"nothing"),
        Refusal::TooLarge(kind) => add_told_text(out, to, "toolarge", kind_text(*kind)),
        Refusal::InDoubt { snapshot } => add_told_id(out, to, "indoubt", *snapshot),
        Refusal::Left { at, conflicts } => add_left(out, to, *at, conflicts.as_slice()),
        Refusal::NotAncestor { head } => add_told_id(out, to, "notancestor", *head),
        Refusal::RefExists(version) => add_told_number(out, to, "refexists", version.0),
        Refusal::NoSnapshot => out.add(to, b"nosnapshot"),
        Refusal::TagDropped => out.add(to, b"taggone"),
        Refusal::MainKept => out.add(to, b"mainkept"),
        Refusal::Moved { found } => add_moved(out, to, *found),
        Refusal::CutoffAhead { now } => add_told_number(out, to, "cutoffahead", *now),
        Refusal::Unnamed => out.add(to, b"unnamed"),
        Refusal::BadProp(fault) => add_told_text(out, to, "badprop", prop_text(*fault)),
        Refusal::Unsound(faults) => add_told_number(out, to, "unsound", *faults),
        Refusal::Differs(key) => add_told_key(out, to, "differs", key),
        Refusal::TargetFault => out.add(to, b"targetfault"),
        Refusal::Region(fault) => add_region(out, to, *fault),
    }
}
