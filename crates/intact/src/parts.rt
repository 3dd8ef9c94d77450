//! A manifest that is held, and a place in it.

ghost use Rattle.std.specs.Prelude.{◌≡◌, ◌<◌, length};
ghost use Rattle.held_manifest.specs.Places.{place_seen};
ghost use Rattle.intact.specs.Parts.{entries_of, inline_fault, first_short, part_at, parts_of};
ghost use Rattle.intact.specs.Places.{many, TakesPart};
ghost use Rattle.intact.specs.inside.Finding.{FindsPart};

use crate::visits::{FileVisit, PartVisit};
use held_manifest::{HeldManifest, PlaceView, Refs};
use ice_ids::Id8;
use repo_objects::Bad;
use std::marker::Model;

/// A manifest that is held, and the parts of objects in it that are still to be got for a node, by a place in it. Contracts see
/// these parts.
#[derive(Drop)]
pub struct ManifestPlace {
    held: HeldManifest,
    node: Id8,
    want: u64,
    at: usize,
}

impl Model for ManifestPlace {
    ghost use Rattle.std.specs.Prelude.{List, drop};
    ghost use Rattle.intact.specs.declared.visits.PartVisit.{PartVisit as TheVisit};
    ghost use Rattle.intact.specs.Parts.{entries_of, parts_in};

    ghost Value = { List TheVisit };

    ghost view = { λ p. parts_in p.want (drop p.at (entries_of p.node p.held)) };
}

/// The fault of a chunk of another length that is in a manifest.
fn inline_fault(want: u64, place: &PlaceView<'_>) -> Option<Bad>
    ensures { result ≡ inline_fault want (place_seen place.now) }
{
    match place {
        PlaceView::Inline(bytes) => {
            let got = bytes.len() as u64;
            if got == want {
                return None;
            }
            Some(Bad::Chunk { want, got })
        }
        PlaceView::Object { .. } => None,
    }
}

/// The first such fault.
fn first_short(want: u64, refs: &Refs) -> Option<Bad>
    ensures { result ≡ first_short want refs.now }
{
    for i in 0..refs.len() {
        if let Some(bad) = inline_fault(want, &refs.at(i).place()) {
            return Some(bad);
        }
    }
    None
}

/// The first such fault of the entries under a node's id.
pub(crate) fn short_chunk(held: &HeldManifest, visit: &FileVisit) -> Option<Bad>
    ensures { result ≡ first_short visit.now.want (entries_of visit.now.node held.now) }
{
    match held.node(visit.node) {
        Some(refs) => first_short(visit.want, &refs),
        None => None,
    }
}

/// The part of an object that a chunk is.
fn part_at(want: u64, place: &PlaceView<'_>) -> Option<PartVisit>
    ensures { result ≡ part_at want (place_seen place.now) }
{
    match *place {
        PlaceView::Inline(_) => None,
        PlaceView::Object { id, offset, length } => Some(PartVisit {
            object: id,
            offset,
            size: length,
            want,
        }),
    }
}

/// The first part from entry number `from` on, and the number of the entry behind it.
fn part_from(want: u64, refs: &Refs, from: usize) -> Option<(PartVisit, usize)>
    ensures { FindsPart want refs.now from result }
{
    for i in from..refs.len() {
        if let Some(part) = part_at(want, &refs.at(i).place()) {
            return Some((part, i + 1));
        }
    }
    None
}

/// How many entries there are under a node's id.
fn entry_count(held: &HeldManifest, node: Id8) -> usize
    ensures { result ≡ length (entries_of node held.now) }
{
    match held.node(node) {
        Some(refs) => refs.len(),
        None => 0,
    }
}

/// The first part from entry number `from` under a node's id on, and the number of the entry behind it.
fn part_behind(held: &HeldManifest, node: Id8, want: u64, from: usize) -> Option<(PartVisit, usize)>
    ensures { FindsPart want (entries_of node held.now) from result }
{
    match held.node(node) {
        Some(refs) => part_from(want, &refs, from),
        None => None,
    }
}

impl ManifestPlace {
    /// Before the first part that a manifest names for a node.
    pub fn new(held: HeldManifest, visit: &FileVisit) -> ManifestPlace
        ensures parts { result ≡ parts_of visit.now held }
        ensures few { length result < many }
    {
        let _few = entry_count(&held, visit.node);
        ManifestPlace {
            held,
            node: visit.node,
            want: visit.want,
            at: 0,
        }
    }

    /// Takes the next part.
    pub fn next(&mut self) -> Option<PartVisit>
        ensures { TakesPart self.old result self.new }
    {
        let (part, behind) = part_behind(&self.held, self.node, self.want, self.at)?;
        self.at = behind;
        Some(part)
    }
}
