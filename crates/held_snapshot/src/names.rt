ghost use Rattle.std.specs.Prelude.{◌≡◌, ◌<◌, Ok, Some, length, slice_get, option_map, IfOk, IsOk};
ghost use Rattle.flat_tables.specs.Step.{Gives};
ghost use Rattle.snapshot_file.specs.Nodes.{name_at, names_in, names_of};

use flat_tables::{FileFault, Table, Vector};
use ice_base::Text;
use snapshot_file::Names;
use std::alloc::{AllocError, Global};
use std::marker::Model;

/// The name of the dimension that element `at` leads to, if it has one.
#[tactic(auto, unfolding(snapshot_file::specs::Nodes::name_at))]
fn name_at<'a>(vector: &Vector<'a>, at: usize) -> Result<Option<&'a str>, FileFault>
    requires below { at < vector.now.count }
    requires offsets { vector.now.size ≡ 4 }
    ensures { Gives (option_map (λ x. x.now)) result (name_at vector.now at) }
{
    let table = vector.table_at(at)?;
    Ok(table.text(0)?)
}

/// The names of an array's dimensions, read in place. Contracts see them as the list of the names, each of which may be missing.
#[derive(Drop)]
pub struct HeldNames<'a> {
    vector: Vector<'a>,
}

impl<'a> Model for HeldNames<'a> {
    ghost use Rattle.std.specs.Prelude.{ℕ, List, Option, ◌≡◌, IsOk};
    ghost use Rattle.snapshot_file.specs.Nodes.{names_in};
    ghost use Rattle.held_manifest.specs.Views.{rows_or_none};

    ghost Value = { List (Option (List ℕ)) };

    ghost view = { λ n. rows_or_none (names_in n.vector) };

    ghost invariant = { λ n. IsOk (names_in n.vector) × (n.vector.size ≡ 4) };
}

/// The names of a vector; else the first fault.
fn names_in<'a>(vector: Vector<'a>) -> Result<HeldNames<'a>, FileFault>
    requires { vector.size ≡ 4 }
    ensures { result ≡ names_in vector.entry }
{
    for at in 0..vector.len() {
        let _name = name_at(&vector, at)?;
    }
    Ok(HeldNames { vector })
}

/// The names of an array's table, where it has any; else the first fault.
#[tactic(auto, unfolding(snapshot_file::specs::Nodes::names_of))]
pub(crate) fn names_of<'a>(table: &Table<'a>) -> Result<Option<HeldNames<'a>>, FileFault>
    ensures { result ≡ names_of table.now }
{
    match table.vector(1, 4)? {
        None => Ok(None),
        Some(vector) => Ok(Some(names_in(vector)?)),
    }
}

/// The names of an array's table, which were read before.
pub(crate) fn held_names<'a>(table: &Table<'a>) -> Option<HeldNames<'a>>
    requires { IsOk (names_of table.now) }
    ensures { names_of table.now ≡ Ok result }
{
    match table.vector(1, 4).unwrap() {
        None => None,
        Some(vector) => Some(HeldNames { vector }),
    }
}

/// A name in memory of its own, if it is there.
fn copy_name(alloc: Global, name: Option<&str>) -> Result<Option<Text>, AllocError>
    ensures { IfOk result (λ copy. copy ≡ option_map (λ x. x.now) name.entry) }
{
    match name {
        Some(name) => Ok(Some(Text::of(alloc, name)?)),
        None => Ok(None),
    }
}

impl<'a> HeldNames<'a> {
    /// How many dimensions there are.
    pub fn len(&self) -> usize
        ensures { result ≡ length self.now }
    {
        self.vector.len()
    }

    /// The name of dimension `k`, if it has one.
    pub fn at(&self, k: usize) -> Option<&'a str>
        requires { k < length self.now }
        ensures { slice_get self.now k ≡ Some (option_map (λ x. x.now) result) }
    {
        name_at(&self.vector, k).unwrap()
    }

    /// The names in memory of their own.
    pub fn copy(&self, alloc: Global) -> Result<Names, AllocError>
        ensures { IfOk result (λ copy. copy ≡ self.now) }
    {
        let mut names: Vec<Option<Text>> = Vec::new(alloc);
        for k in 0..self.len() {
            names.push(copy_name(alloc, self.at(k))?)?;
        }
        Ok(Names::from_vec(names))
    }
}
