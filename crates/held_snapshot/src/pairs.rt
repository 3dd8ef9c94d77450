ghost use Rattle.std.specs.Prelude.{◌≡◌, ◌<◌, ◌&&◌, nat_le, nat_lt, Some, length, slice_get, IfOk};
ghost use Rattle.snapshot_file.specs.Nodes.{shape_of};
ghost use Rattle.held_manifest.specs.LookUp.{within};
ghost use Rattle.held_snapshot.specs.Views.{dimensions_in, extents_in};

use crate::numbers::{dimension_of, extent_of};
use crate::slots::vector_in;
use flat_tables::{FileFault, Table, Vector};
use snapshot_file::{Extents, Shape};
use std::alloc::{AllocError, Global};
use std::marker::Model;

/// The lengths of an array's dimensions, each with that of a chunk in it, read in place. Contracts see them as the list of the
/// pairs.
#[derive(Drop)]
pub struct HeldShape<'a> {
    vector: Vector<'a>,
}

impl<'a> Model for HeldShape<'a> {
    ghost use Rattle.std.specs.Prelude.{ℕ, List, ◌≡◌};
    ghost use Rattle.held_snapshot.specs.Views.{dimensions_in};

    ghost Value = { List (ℕ × ℕ) };

    ghost view = { λ s. dimensions_in s.vector };

    ghost invariant = { λ s. s.vector.size ≡ 16 };
}

/// The shape of an array's table. `Flat` where the slot is absent, or where its vector doesn't lie in the payload.
#[tactic(auto, unfolding(snapshot_file::specs::Nodes::shape_of))]
pub(crate) fn shape_of<'a>(table: &Table<'a>) -> Result<HeldShape<'a>, FileFault>
    ensures { result ≡ shape_of table.now }
{
    let vector = vector_in(table, 0, 16)?;
    Ok(HeldShape { vector })
}

impl<'a> HeldShape<'a> {
    /// How many dimensions there are.
    pub fn len(&self) -> usize
        ensures { result ≡ length self.now }
    {
        self.vector.len()
    }

    /// The length of dimension `k`, and that of a chunk in it.
    pub fn at(&self, k: usize) -> (u64, u64)
        requires { k < length self.now }
        ensures { slice_get self.now k ≡ Some result }
    {
        dimension_of(self.vector.item(k))
    }

    /// The shape in memory of its own.
    pub fn copy(&self, alloc: Global) -> Result<Shape, AllocError>
        ensures { IfOk result (λ copy. copy ≡ self.now) }
    {
        let mut dimensions: Vec<(u64, u64)> = Vec::new(alloc);
        for k in 0..self.len() {
            dimensions.push(self.at(k))?;
        }
        Ok(Shape::from_vec(dimensions))
    }
}

/// Where the chunks of a manifest lie, for each dimension of the array, read in place. Contracts see it as the list of the
/// pairs.
#[derive(Drop)]
pub struct HeldExtents<'a> {
    vector: Vector<'a>,
}

impl<'a> Model for HeldExtents<'a> {
    ghost use Rattle.std.specs.Prelude.{ℕ, List, ◌≡◌};
    ghost use Rattle.held_snapshot.specs.Views.{extents_in};

    ghost Value = { List (ℕ × ℕ) };

    ghost view = { λ e. extents_in e.vector };

    ghost invariant = { λ e. e.vector.size ≡ 8 };
}

/// Whether a number is from the first of an extent on and below the second.
fn is_in(extent: (u32, u32), number: u32) -> bool
    ensures { result ≡ (nat_le extent.0 number && nat_lt number extent.1) }
{
    extent.0 <= number && number < extent.1
}

impl<'a> HeldExtents<'a> {
    ghost use Rattle.flat_tables.specs.Places.{VectorIn};
    ghost use Rattle.held_snapshot.specs.Views.{extents_in};

    /// The extents of a vector.
    pub(crate) fn new(vector: Vector<'a>) -> HeldExtents<'a>
        requires { vector.size ≡ 8 }
        ensures { result ≡ extents_in vector.entry }
    {
        HeldExtents { vector }
    }

    /// How many dimensions there are.
    pub fn len(&self) -> usize
        ensures { result ≡ length self.now }
    {
        self.vector.len()
    }

    /// The first index that is held in dimension `k`, and the one behind the last.
    pub fn at(&self, k: usize) -> (u32, u32)
        requires { k < length self.now }
        ensures { slice_get self.now k ≡ Some result }
    {
        extent_of(self.vector.item(k))
    }

    /// Whether they contain an index: they are as many as its numbers, and each number is from the first of its extent on and
    /// below the second.
    pub fn contain(&self, index: &[u32]) -> bool
        ensures { result ≡ within self.now index.now }
    {
        if self.len() != index.len() {
            return false;
        }
        for k in 0..index.len() {
            if !is_in(self.at(k), index[k]) {
                return false;
            }
        }
        true
    }

    /// The extents in memory of their own.
    pub fn copy(&self, alloc: Global) -> Result<Extents, AllocError>
        ensures { IfOk result (λ copy. copy ≡ self.now) }
    {
        let mut extents: Vec<(u32, u32)> = Vec::new(alloc);
        for k in 0..self.len() {
            extents.push(self.at(k))?;
        }
        Ok(Extents::from_vec(extents))
    }
}
