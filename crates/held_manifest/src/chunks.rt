ghost use Rattle.std.specs.Prelude.{◌≡◌, ◌<◌, Some, None, length, slice_get, slice_index, option_map, option_copied, bytes_eq, IsOk};
ghost use Rattle.zarr_path.specs.Indices.{index_cmp};
ghost use Rattle.flat_tables.specs.Rows.{follows, Ascends};
ghost use Rattle.manifest_file.specs.Manifests.{ref_key, ref_of, ref_at, refs_in};
ghost use Rattle.held_manifest.specs.Places.{place_seen};
ghost use Rattle.held_manifest.specs.Views.{rows_or_none};
ghost use Rattle.held_manifest.specs.LookUp.{place_of};

use crate::indices::{IndexView, index_of};
use crate::places::{PlaceView, place_in};
use flat_tables::{FileFault, Table, Vector};
use std::cmp::Ordering;
use std::marker::Model;
use zarr_path::Index;

/// A chunk and where it is, read in place. Contracts see it as the chunk that it stands for.
#[derive(Drop)]
pub struct RefView<'a> {
    index: IndexView<'a>,
    place: PlaceView<'a>,
}

impl<'a> Model for RefView<'a> {
    ghost use Rattle.manifest_file.specs.declared.manifest.ChunkRef.{ChunkRef};
    ghost use Rattle.held_manifest.specs.Places.{place_seen};

    ghost Value = { ChunkRef };

    ghost view = { λ r. record { index = r.index; place = place_seen r.place } };
}

impl<'a> RefView<'a> {
    /// Where the chunk's bytes are.
    pub fn place(&self) -> PlaceView<'a>
        ensures { place_seen result ≡ self.now.place }
    {
        self.place
    }

    /// Whether the chunk is the one at this index.
    pub fn is(&self, index: &Index) -> bool
        ensures { result ≡ bytes_eq self.now.index index.now }
    {
        self.compare(index).is_eq()
    }

    /// How the chunk's index stands to this one.
    fn compare(&self, index: &Index) -> Ordering
        ensures { result ≡ index_cmp self.now.index index.now }
    {
        self.index.compare(index.parts())
    }

    /// How the chunk's index stands to that of another chunk.
    fn compare_view(&self, other: &RefView) -> Ordering
        ensures { result ≡ index_cmp self.now.index other.now.index }
    {
        self.index.compare_view(&other.index)
    }

    /// How many numbers the chunk's index has.
    pub fn rank(&self) -> usize
        ensures { result ≡ length self.now.index }
    {
        self.index.len()
    }

    /// The number of the chunk's index in dimension `k`.
    pub fn part(&self, k: usize) -> u32
        requires { k < length self.now.index }
        ensures { result ≡ slice_index self.now.index k }
    {
        self.index.at(k)
    }
}

/// The chunk of a table, which is element `at`.
#[tactic(auto, unfolding(manifest_file::specs::Manifests::ref_of))]
fn ref_of<'a>(table: &Table<'a>, at: usize) -> Result<RefView<'a>, FileFault>
    ensures { result ≡ ref_of at table.now }
{
    let index = index_of(table, 0)?;
    let place = place_in(table, at)?;
    Ok(RefView { index, place })
}

/// The chunk that element `at` leads to.
#[tactic(auto, unfolding(manifest_file::specs::Manifests::ref_at))]
fn ref_at<'a>(vector: &Vector<'a>, at: usize) -> Result<RefView<'a>, FileFault>
    requires below { at < vector.now.count }
    requires offsets { vector.now.size ≡ 4 }
    ensures { result ≡ ref_at vector.now at }
{
    let table = vector.table_at(at)?;
    ref_of(&table, at)
}

/// Whether a chunk may stand behind the last one.
fn ref_follows(last: Option<&RefView>, chunk: &RefView) -> bool
    ensures { result ≡ follows (option_map ref_key (option_copied last.entry)) (ref_key chunk.now) }
{
    match last {
        None => true,
        Some(last) => last.compare_view(chunk).is_lt(),
    }
}

/// The chunks of an array, read in place. Contracts see them as the list of the chunks that they stand for.
#[derive(Drop)]
pub struct Refs<'a> {
    vector: Vector<'a>,
}

impl<'a> Model for Refs<'a> {
    ghost use Rattle.std.specs.Prelude.{List, ◌≡◌, IsOk};
    ghost use Rattle.manifest_file.specs.declared.manifest.ChunkRef.{ChunkRef};
    ghost use Rattle.manifest_file.specs.Manifests.{refs_in};
    ghost use Rattle.held_manifest.specs.Views.{rows_or_none};

    ghost Value = { List ChunkRef };

    ghost view = { λ r. rows_or_none (refs_in r.vector) };

    ghost invariant = { λ r. IsOk (refs_in r.vector) × (r.vector.size ≡ 4) };
}

/// The chunks of a vector, which stand in order; else the first fault.
pub(crate) fn refs_in<'a>(vector: Vector<'a>) -> Result<Refs<'a>, FileFault>
    requires { vector.size ≡ 4 }
    ensures { result ≡ refs_in vector.entry }
{
    let mut last: Option<RefView<'a>> = None;
    for at in 0..vector.len() {
        let chunk = ref_at(&vector, at)?;
        if !ref_follows(last.as_ref(), &chunk) {
            return Err(FileFault::Order { slot: 1, at });
        }
        last = Some(chunk);
    }
    Ok(Refs { vector })
}

/// The chunks of a vector that was read before.
pub(crate) fn held_refs<'a>(vector: Vector<'a>) -> Refs<'a>
    requires read { IsOk (refs_in vector) }
    requires offsets { vector.size ≡ 4 }
    ensures { result ≡ rows_or_none (refs_in vector.entry) }
{
    Refs { vector }
}

impl<'a> Refs<'a> {
    /// How many chunks there are. They stand in the strict order of their indices.
    pub fn len(&self) -> usize
        ensures count { result ≡ length self.now }
        ensures order { Ascends ref_key None self.now }
    {
        self.vector.len()
    }

    /// Chunk number `i`, in the order of the indices.
    pub fn at(&self, i: usize) -> RefView<'a>
        requires { i < length self.now }
        ensures { slice_get self.now i ≡ Some result }
    {
        ref_at(&self.vector, i).unwrap()
    }

    /// Where the chunk at this index is; `None` exactly where there is none. The search goes by halves.
    pub fn seek(&self, index: &Index) -> Option<PlaceView<'a>>
        ensures { option_map place_seen result ≡ place_of index.now self.now }
    {
        let mut low = 0;
        let mut high = self.len();
        while low < high {
            let middle = low + (high - low) / 2;
            let chunk = self.at(middle);
            match chunk.compare(index) {
                Ordering::Less => low = middle + 1,
                Ordering::Equal => return Some(chunk.place()),
                Ordering::Greater => high = middle,
            }
        }
        None
    }
}
