ghost use Rattle.std.specs.Prelude.{◌≡◌, ◌<◌, Some, None, length, slice_get, option_map, option_copied, IsOk};
ghost use Rattle.flat_tables.specs.Rows.{follows, Ascends};
ghost use Rattle.file_fields.specs.Fields.{index_key};
ghost use Rattle.txn_file.specs.Logs.{index_at, indices_in};
ghost use Rattle.held_manifest.specs.Views.{rows_or_none};

use flat_tables::{FileFault, Vector};
use held_manifest::{IndexView, index_of};
use std::marker::Model;

/// The index that element `at` leads to.
#[tactic(auto, unfolding(txn_file::specs::Logs::index_at))]
fn index_at<'a>(vector: &Vector<'a>, at: usize) -> Result<IndexView<'a>, FileFault>
    requires below { at < vector.now.count }
    requires offsets { vector.now.size ≡ 4 }
    ensures { result ≡ index_at vector.now at }
{
    let table = vector.table_at(at)?;
    index_of(&table, 0)
}

/// Whether an index may stand behind the last one.
fn index_follows(last: Option<&IndexView>, index: &IndexView) -> bool
    ensures { result ≡ follows (option_map index_key (option_copied last.entry))
        (index_key index.now) }
{
    match last {
        None => true,
        Some(last) => last.compare_view(index).is_lt(),
    }
}

/// The indices of a vector, read in place. Contracts see them as the list of the indices that they stand for.
#[derive(Drop)]
pub(crate) struct IndexVector<'a> {
    vector: Vector<'a>,
}

impl<'a> Model for IndexVector<'a> {
    ghost use Rattle.std.specs.Prelude.{ℕ, List, ◌≡◌, IsOk};
    ghost use Rattle.txn_file.specs.Logs.{indices_in};
    ghost use Rattle.held_manifest.specs.Views.{rows_or_none};

    ghost Value = { List (List ℕ) };

    ghost view = { λ i. rows_or_none (indices_in i.vector) };

    ghost invariant = { λ i. IsOk (indices_in i.vector) × (i.vector.size ≡ 4) };
}

/// The indices of a vector, which stand in order; else the first fault.
pub(crate) fn indices_in<'a>(vector: Vector<'a>) -> Result<IndexVector<'a>, FileFault>
    requires { vector.size ≡ 4 }
    ensures { result ≡ indices_in vector.entry }
{
    let mut last: Option<IndexView<'a>> = None;
    for at in 0..vector.len() {
        let index = index_at(&vector, at)?;
        if !index_follows(last.as_ref(), &index) {
            return Err(FileFault::Order { slot: 1, at });
        }
        last = Some(index);
    }
    Ok(IndexVector { vector })
}

/// The indices of a vector that was read before.
pub(crate) fn held_indices<'a>(vector: Vector<'a>) -> IndexVector<'a>
    requires read { IsOk (indices_in vector) }
    requires offsets { vector.size ≡ 4 }
    ensures { result ≡ rows_or_none (indices_in vector.entry) }
{
    IndexVector { vector }
}

impl<'a> IndexVector<'a> {
    /// How many indices there are. They stand in strict order.
    fn len(&self) -> usize
        ensures count { result ≡ length self.now }
        ensures order { Ascends index_key None self.now }
    {
        self.vector.len()
    }

    /// Index number `i`, in their order.
    fn at(&self, i: usize) -> IndexView<'a>
        requires { i < length self.now }
        ensures { slice_get self.now i ≡ Some result }
    {
        index_at(&self.vector, i).unwrap()
    }
}

/// The chunks that a log lists of an array, read in place: none where it lists none. Contracts see them as the list of their
/// indices.
#[derive(Drop)]
pub struct Indices<'a> {
    rows: Option<IndexVector<'a>>,
}

impl<'a> Model for Indices<'a> {
    ghost use Rattle.std.specs.Prelude.{ℕ, List};
    ghost use Rattle.held_log.specs.Views.{rows_there};

    ghost Value = { List (List ℕ) };

    ghost view = { λ i. rows_there i.rows };
}

impl<'a> Indices<'a> {
    ghost use Rattle.std.specs.Prelude.{Option, List, ℕ};
    ghost use Rattle.held_log.specs.Views.{rows_there};

    /// The indices of a vector, if there is one.
    pub(crate) fn new(rows: Option<IndexVector<'a>>) -> Indices<'a>
        ensures { result ≡ rows_there rows.entry }
    {
        Indices { rows }
    }

    /// How many indices there are. They stand in strict order.
    pub fn len(&self) -> usize
        ensures count { result ≡ length self.now }
        ensures order { Ascends index_key None self.now }
    {
        match &self.rows {
            None => 0,
            Some(rows) => rows.len(),
        }
    }

    /// Index number `i`, in their order.
    pub fn at(&self, i: usize) -> IndexView<'a>
        requires { i < length self.now }
        ensures { slice_get self.now i ≡ Some result }
    {
        match &self.rows {
            None => unreachable!(),
            Some(rows) => rows.at(i),
        }
    }
}
