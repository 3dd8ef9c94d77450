ghost use Rattle.std.specs.Prelude.{◌≡◌, ◌+◌, ◌<◌, ◌≤◌, Some, None, length, slice_get, IfOk, IsOk, nat_lt};
ghost use Rattle.flat_tables.specs.Rows.{Ascends};
ghost use Rattle.manifest_file.specs.Manifests.{refs_limit, array_key, array_of, array_at, arrays_in};
ghost use Rattle.held_manifest.specs.Views.{rows_or_none};
ghost use Rattle.held_manifest.specs.LookUp.{refs_of_node};

use crate::chunks::{Refs, held_refs, refs_in};
use file_fields::{id_follows, id8_of};
use flat_tables::{FileFault, FlatFault, Table, Vector};
use ice_ids::Id8;
use manifest_file::REFS_LIMIT;
use std::cmp::Ordering;
use std::marker::Model;

/// An array and its chunks, read in place. Contracts see it as the array that it stands for.
#[derive(Drop)]
pub struct ArrayView<'a> {
    node: Id8,
    refs: Refs<'a>,
}

impl<'a> Model for ArrayView<'a> {
    ghost use Rattle.manifest_file.specs.declared.manifest.ArrayRefs.{ArrayRefs};

    ghost Value = { ArrayRefs };

    ghost view = { λ a. record { node = a.node; refs = a.refs } };
}

impl<'a> ArrayView<'a> {
    /// The array, by its node's id.
    pub fn id(&self) -> Id8
        ensures { result ≡ self.now.node }
    {
        self.node
    }

    /// How many chunks it has.
    pub fn len(&self) -> usize
        ensures { result ≡ length self.now.refs }
    {
        self.refs.len()
    }

    /// Its chunks.
    pub fn into_refs(self) -> Refs<'a>
        ensures { result ≡ self.entry.refs }
    {
        self.refs
    }
}

/// Whether so many more chunks pass the limit.
fn pass_limit(count: usize, before: usize) -> bool
    requires { before ≤ 4194304 }
    ensures { result ≡ nat_lt refs_limit (before + count) }
{
    count > REFS_LIMIT - before
}

/// The array of a table, where so many chunks came before.
#[tactic(auto, unfolding(manifest_file::specs::Manifests::array_of))]
fn array_of<'a>(table: &Table<'a>, before: usize) -> Result<ArrayView<'a>, FileFault>
    requires { before ≤ 4194304 }
    ensures read { result ≡ array_of before table.now }
    ensures few { IfOk result (λ array. before + length array.refs ≤ 4194304) }
{
    let node = id8_of(table, 0)?;
    let Some(vector) = table.vector(1, 4)? else {
        return Err(FileFault::Flat(FlatFault::Missing { slot: 1 }));
    };
    if pass_limit(vector.len(), before) {
        return Err(FileFault::Limit);
    }
    let refs = refs_in(vector)?;
    Ok(ArrayView { node, refs })
}

/// The array that element `at` leads to, where so many chunks came before.
#[tactic(auto, unfolding(manifest_file::specs::Manifests::array_at))]
fn array_at<'a>(vector: &Vector<'a>, at: usize, before: usize) -> Result<ArrayView<'a>, FileFault>
    requires below { at < vector.now.count }
    requires offsets { vector.now.size ≡ 4 }
    requires few { before ≤ 4194304 }
    ensures read { result ≡ array_at vector.now at before }
    ensures few { IfOk result (λ array. before + length array.refs ≤ 4194304) }
{
    let table = vector.table_at(at)?;
    array_of(&table, before)
}

/// The arrays of a manifest, read in place. Contracts see them as the list of the arrays that they stand for.
#[derive(Drop)]
pub struct Arrays<'a> {
    vector: Vector<'a>,
}

impl<'a> Model for Arrays<'a> {
    ghost use Rattle.std.specs.Prelude.{List, ◌≡◌, IsOk};
    ghost use Rattle.manifest_file.specs.declared.manifest.ArrayRefs.{ArrayRefs};
    ghost use Rattle.manifest_file.specs.Manifests.{arrays_in};
    ghost use Rattle.held_manifest.specs.Views.{rows_or_none};

    ghost Value = { List ArrayRefs };

    ghost view = { λ a. rows_or_none (arrays_in a.vector) };

    ghost invariant = { λ a. IsOk (arrays_in a.vector) × (a.vector.size ≡ 4) };
}

/// The arrays of a vector, which stand in order; else the first fault.
pub(crate) fn arrays_in<'a>(vector: Vector<'a>) -> Result<Arrays<'a>, FileFault>
    requires { vector.size ≡ 4 }
    ensures { result ≡ arrays_in vector.entry }
{
    let mut last: Option<Id8> = None;
    let mut before = 0;
    for at in 0..vector.len() {
        let array = array_at(&vector, at, before)?;
        if !id_follows(last.as_ref(), &array.id()) {
            return Err(FileFault::Order { slot: 1, at });
        }
        before += array.len();
        last = Some(array.id());
    }
    Ok(Arrays { vector })
}

/// The arrays of a vector that was read before.
pub(crate) fn held_arrays<'a>(vector: Vector<'a>) -> Arrays<'a>
    requires read { IsOk (arrays_in vector) }
    requires offsets { vector.size ≡ 4 }
    ensures { result ≡ rows_or_none (arrays_in vector.entry) }
{
    Arrays { vector }
}

impl<'a> Arrays<'a> {
    /// How many arrays there are. They stand in the strict order of their nodes' ids.
    pub fn len(&self) -> usize
        ensures count { result ≡ length self.now }
        ensures order { Ascends array_key None self.now }
    {
        self.vector.len()
    }

    /// Array number `i`, in the order of the nodes' ids.
    pub fn at(&self, i: usize) -> ArrayView<'a>
        requires { i < length self.now }
        ensures { slice_get self.now i ≡ Some result }
    {
        let table = self.vector.table_at(i).unwrap();
        let node = id8_of(&table, 0).unwrap();
        let slot = table.vector(1, 4).unwrap();
        let refs = held_refs(slot.unwrap());
        ArrayView { node, refs }
    }

    /// The chunks of a node's array; `None` exactly where there is no such array. The search goes by halves.
    pub fn node(&self, node: Id8) -> Option<Refs<'a>>
        ensures { result ≡ refs_of_node node self.now }
    {
        let mut low = 0;
        let mut high = self.len();
        while low < high {
            let middle = low + (high - low) / 2;
            let array = self.at(middle);
            match array.id().cmp(&node) {
                Ordering::Less => low = middle + 1,
                Ordering::Equal => return Some(array.into_refs()),
                Ordering::Greater => high = middle,
            }
        }
        None
    }
}
