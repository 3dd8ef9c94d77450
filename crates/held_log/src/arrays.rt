ghost use Rattle.std.specs.Prelude.{◌≡◌, ◌<◌, Some, None, length, slice_get, IsOk};
ghost use Rattle.flat_tables.specs.Rows.{Ascends};
ghost use Rattle.txn_file.specs.Logs.{array_key, array_of, array_at, arrays_in, arrays_of};
ghost use Rattle.held_manifest.specs.Views.{rows_or_none};
ghost use Rattle.held_log.specs.Views.{rows_there};
ghost use Rattle.held_log.specs.LookUp.{chunks_listed};

use crate::indices::{IndexVector, Indices, held_indices, indices_in};
use file_fields::{id_follows, id8_of};
use flat_tables::{FileFault, FlatFault, Table, Vector};
use ice_ids::Id8;
use std::cmp::Ordering;
use std::marker::Model;

/// An array and its chunks, read in place. Contracts see it as the array that it stands for.
#[derive(Drop)]
pub(crate) struct ArrayView<'a> {
    node: Id8,
    chunks: IndexVector<'a>,
}

impl<'a> Model for ArrayView<'a> {
    ghost use Rattle.zarr_tree.specs.declared.lists.ArrayChunks.{ArrayChunks};

    ghost Value = { ArrayChunks };

    ghost view = { λ a. record { node = a.node; chunks = a.chunks } };
}

impl<'a> ArrayView<'a> {
    /// The array, by its node's id.
    fn id(&self) -> Id8
        ensures { result ≡ self.now.node }
    {
        self.node
    }

    /// Its chunks.
    fn into_chunks(self) -> IndexVector<'a>
        ensures { result ≡ self.entry.chunks }
    {
        self.chunks
    }
}

/// The array that a table has, with its chunks.
#[tactic(auto, unfolding(txn_file::specs::Logs::array_of))]
fn array_of<'a>(table: &Table<'a>) -> Result<ArrayView<'a>, FileFault>
    ensures { result ≡ array_of table.now }
{
    let node = id8_of(table, 0)?;
    let Some(vector) = table.vector(1, 4)? else {
        return Err(FileFault::Flat(FlatFault::Missing { slot: 1 }));
    };
    let chunks = indices_in(vector)?;
    Ok(ArrayView { node, chunks })
}

/// The array that element `at` leads to.
#[tactic(auto, unfolding(txn_file::specs::Logs::array_at))]
fn array_at<'a>(vector: &Vector<'a>, at: usize) -> Result<ArrayView<'a>, FileFault>
    requires below { at < vector.now.count }
    requires offsets { vector.now.size ≡ 4 }
    ensures { result ≡ array_at vector.now at }
{
    let table = vector.table_at(at)?;
    array_of(&table)
}

/// The arrays of a vector, read in place. Contracts see them as the list of the arrays that they stand for.
#[derive(Drop)]
pub(crate) struct ArrayVector<'a> {
    vector: Vector<'a>,
}

impl<'a> Model for ArrayVector<'a> {
    ghost use Rattle.std.specs.Prelude.{List, ◌≡◌, IsOk};
    ghost use Rattle.zarr_tree.specs.declared.lists.ArrayChunks.{ArrayChunks};
    ghost use Rattle.txn_file.specs.Logs.{arrays_in};
    ghost use Rattle.held_manifest.specs.Views.{rows_or_none};

    ghost Value = { List ArrayChunks };

    ghost view = { λ a. rows_or_none (arrays_in a.vector) };

    ghost invariant = { λ a. IsOk (arrays_in a.vector) × (a.vector.size ≡ 4) };
}

/// The arrays of a vector, which stand in order; else the first fault.
fn arrays_in<'a>(vector: Vector<'a>) -> Result<ArrayVector<'a>, FileFault>
    requires { vector.size ≡ 4 }
    ensures { result ≡ arrays_in vector.entry }
{
    let mut last: Option<Id8> = None;
    for at in 0..vector.len() {
        let array = array_at(&vector, at)?;
        if !id_follows(last.as_ref(), &array.id()) {
            return Err(FileFault::Order { slot: 7, at });
        }
        last = Some(array.id());
    }
    Ok(ArrayVector { vector })
}

impl<'a> ArrayVector<'a> {
    /// How many arrays there are. They stand in the strict order of their nodes' ids.
    fn len(&self) -> usize
        ensures count { result ≡ length self.now }
        ensures order { Ascends array_key None self.now }
    {
        self.vector.len()
    }

    /// Array number `i`, in the order of the nodes' ids.
    fn at(&self, i: usize) -> ArrayView<'a>
        requires { i < length self.now }
        ensures { slice_get self.now i ≡ Some result }
    {
        let table = self.vector.table_at(i).unwrap();
        let node = id8_of(&table, 0).unwrap();
        let slot = table.vector(1, 4).unwrap();
        let chunks = held_indices(slot.unwrap());
        ArrayView { node, chunks }
    }

    /// The chunks of an array; none where it isn't among these. The search goes by halves.
    fn chunks_of(&self, id: &Id8) -> Indices<'a>
        ensures { result ≡ chunks_listed self.now id.now }
    {
        let mut low = 0;
        let mut high = self.len();
        while low < high {
            let middle = low + (high - low) / 2;
            let array = self.at(middle);
            match array.id().cmp(id) {
                Ordering::Less => low = middle + 1,
                Ordering::Equal => return Indices::new(Some(array.into_chunks())),
                Ordering::Greater => high = middle,
            }
        }
        Indices::new(None)
    }
}

/// The arrays that a log lists, read in place: none where the list is absent. Contracts see them as the list of the arrays that
/// they stand for.
#[derive(Drop)]
pub(crate) struct Arrays<'a> {
    rows: Option<ArrayVector<'a>>,
}

impl<'a> Model for Arrays<'a> {
    ghost use Rattle.std.specs.Prelude.{List};
    ghost use Rattle.zarr_tree.specs.declared.lists.ArrayChunks.{ArrayChunks};
    ghost use Rattle.held_log.specs.Views.{rows_there};

    ghost Value = { List ArrayChunks };

    ghost view = { λ a. rows_there a.rows };
}

/// The arrays in slot 7, none where it is absent; else the first fault.
#[tactic(auto, unfolding(txn_file::specs::Logs::arrays_of))]
pub(crate) fn arrays_of<'a>(table: &Table<'a>) -> Result<Arrays<'a>, FileFault>
    ensures { result ≡ arrays_of table.now }
{
    match table.vector(7, 4)? {
        None => Ok(Arrays { rows: None }),
        Some(vector) => Ok(Arrays {
            rows: Some(arrays_in(vector)?),
        }),
    }
}

/// The arrays in slot 7, which was read before.
pub(crate) fn held_arrays<'a>(table: &Table<'a>) -> Arrays<'a>
    requires { IsOk (arrays_of table.now) }
    ensures { result ≡ rows_or_none (arrays_of table.now) }
{
    match table.vector(7, 4).unwrap() {
        None => Arrays { rows: None },
        Some(vector) => Arrays {
            rows: Some(ArrayVector { vector }),
        },
    }
}

impl<'a> Arrays<'a> {
    /// The chunks of an array; none where it isn't among these. The search goes by halves.
    pub(crate) fn chunks_of(&self, id: &Id8) -> Indices<'a>
        ensures { result ≡ chunks_listed self.now id.now }
    {
        match &self.rows {
            None => Indices::new(None),
            Some(rows) => rows.chunks_of(id),
        }
    }
}
