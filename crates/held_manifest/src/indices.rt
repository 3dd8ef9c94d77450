ghost use Rattle.std.specs.Prelude.{◌≡◌, ◌<◌, min, length, slice_index, IfOk};
ghost use Rattle.zarr_path.specs.Indices.{index_cmp};
ghost use Rattle.file_fields.specs.Fields.{index_of};

use file_fields::u32_of;
use flat_tables::{FileFault, FlatFault, Table, Vector};
use std::alloc::{AllocError, Global};
use std::cmp::Ordering;
use std::marker::Model;
use zarr_path::Index;

/// An index, read in place. Contracts see it as the list of its numbers.
#[derive(Drop)]
pub struct IndexView<'a> {
    vector: Vector<'a>,
}

impl<'a> Model for IndexView<'a> {
    ghost use Rattle.std.specs.Prelude.{ℕ, List, ◌≡◌};
    ghost use Rattle.held_manifest.specs.Views.{numbers_in};

    ghost Value = { List ℕ };

    ghost view = { λ i. numbers_in i.vector };

    ghost invariant = { λ i. i.vector.size ≡ 4 };
}

/// The index in a slot. `Flat` where the slot is absent, or where its vector doesn't lie in the payload.
#[tactic(auto, unfolding(file_fields::specs::Fields::index_of))]
pub fn index_of<'a>(table: &Table<'a>, slot: u16) -> Result<IndexView<'a>, FileFault>
    ensures { result ≡ index_of table.now slot }
{
    match table.vector(slot, 4)? {
        None => Err(FileFault::Flat(FlatFault::Missing { slot })),
        Some(vector) => Ok(IndexView { vector }),
    }
}

/// The lesser of two lengths.
fn lesser(one: usize, other: usize) -> usize
    ensures { result ≡ min one other }
{
    if one < other { one } else { other }
}

impl<'a> IndexView<'a> {
    /// How many numbers there are.
    pub fn len(&self) -> usize
        ensures { result ≡ length self.now }
    {
        self.vector.len()
    }

    /// The number in dimension `k`.
    pub fn at(&self, k: usize) -> u32
        requires { k < length self.now }
        ensures { result ≡ slice_index self.now k }
    {
        u32_of(self.vector.item(k))
    }

    /// The index in memory of its own.
    pub fn copy(&self, alloc: Global) -> Result<Index, AllocError>
        ensures { IfOk result (λ index. index ≡ self.now) }
    {
        let mut numbers: Vec<u32> = Vec::new(alloc);
        for k in 0..self.len() {
            numbers.push(self.at(k))?;
        }
        Ok(Index::from_parts(numbers))
    }

    /// How the index stands to one in memory.
    pub fn compare(&self, other: &[u32]) -> Ordering
        ensures { result ≡ index_cmp self.now other.now }
    {
        let len = self.len();
        for k in 0..lesser(len, other.len()) {
            let order = self.at(k).cmp(&other[k]);
            if order.is_ne() {
                return order;
            }
        }
        len.cmp(&other.len())
    }

    /// How the index stands to another one in a file.
    pub fn compare_view(&self, other: &IndexView) -> Ordering
        ensures { result ≡ index_cmp self.now other.now }
    {
        let len = self.len();
        for k in 0..lesser(len, other.len()) {
            let order = self.at(k).cmp(&other.at(k));
            if order.is_ne() {
                return order;
            }
        }
        len.cmp(&other.len())
    }
}
