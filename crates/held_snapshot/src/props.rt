ghost use Rattle.std.specs.Prelude.{◌≡◌, ◌<◌, ◌≤◌, Ok, Some, length, slice_get, IfOk, IsOk};
ghost use Rattle.std.specs.List.{list_any};
ghost use Rattle.flat_tables.specs.Step.{Gives};
ghost use Rattle.snapshot_file.specs.Props.{is_blank, is_prop_name, is_prop_value, prop_limit, AreProps};
ghost use Rattle.snapshot_file.specs.Snapshots.{property_of, property_at, properties_in, few_properties_in, properties_of};
ghost use Rattle.held_manifest.specs.Files.{Checks};

use crate::order::text_follows;
use crate::slots::text_in;
use flat_tables::{FileFault, Table, Vector};
use snapshot_file::{PROP_LIMIT, Props};
use std::alloc::{AllocError, Global};
use std::marker::Model;

/// The most bytes of a property's name.
const NAME_LIMIT: usize = 200;

/// The most bytes of a property's value.
const VALUE_LIMIT: usize = 65_536;

/// Whether no name has this byte.
fn is_blank(byte: u8) -> bool
    ensures { result ≡ is_blank byte }
{
    byte < 33 || byte == 127
}

/// Whether one of these bytes is one that no name has.
fn has_blank(bytes: &[u8]) -> bool
    ensures { result ≡ list_any is_blank bytes.now }
{
    bytes.iter().any(|byte| is_blank(*byte))
}

/// Whether a property may have this name.
#[tactic(auto, unfolding(snapshot_file::specs::Props::is_prop_name))]
fn is_prop_name(name: &str) -> bool
    ensures { result ≡ is_prop_name name.now }
{
    let bytes = name.as_bytes();
    1 <= bytes.len() && bytes.len() <= NAME_LIMIT && !has_blank(bytes)
}

/// Whether a property may have this value.
#[tactic(auto, unfolding(snapshot_file::specs::Props::is_prop_value))]
fn is_prop_value(value: &str) -> bool
    ensures { result ≡ is_prop_value value.now }
{
    value.len() <= VALUE_LIMIT
}

/// Property number `at`, which a table has.
#[tactic(auto, unfolding(snapshot_file::specs::Snapshots::property_of))]
fn property_of<'a>(at: usize, table: &Table<'a>) -> Result<(&'a str, &'a str), FileFault>
    ensures { Gives (λ p. (p.0.now, p.1.now)) result (property_of at table.now) }
{
    let name = text_in(table, 0)?;
    let value = text_in(table, 1)?;
    if !is_prop_name(name) || !is_prop_value(value) {
        return Err(FileFault::Property { at });
    }
    Ok((name, value))
}

/// Property number `at`, to which that element leads.
#[tactic(auto, unfolding(snapshot_file::specs::Snapshots::property_at))]
fn property_at<'a>(vector: &Vector<'a>, at: usize) -> Result<(&'a str, &'a str), FileFault>
    requires below { at < vector.now.count }
    requires offsets { vector.now.size ≡ 4 }
    ensures { Gives (λ p. (p.0.now, p.1.now)) result (property_at vector.now at) }
{
    let table = vector.table_at(at)?;
    property_of(at, &table)
}

/// Whether a vector has properties, which stand in order; else the first fault.
fn check_properties<'a>(vector: &Vector<'a>) -> Result<(), FileFault>
    requires { vector.now.size ≡ 4 }
    ensures { Checks result (properties_in vector.now) }
{
    let mut last: Option<&'a str> = None;
    for at in 0..vector.len() {
        let (name, _) = property_at(vector, at)?;
        if !text_follows(last, name) {
            return Err(FileFault::Order { slot: 5, at });
        }
        last = Some(name);
    }
    Ok(())
}

/// The properties of a vector, read in place. Contracts see them as pairs of a name and a value.
#[derive(Drop)]
struct PropVector<'a> {
    vector: Vector<'a>,
}

impl<'a> Model for PropVector<'a> {
    ghost use Rattle.std.specs.Prelude.{ℕ, List, ◌≡◌, IsOk};
    ghost use Rattle.snapshot_file.specs.Snapshots.{few_properties_in};
    ghost use Rattle.held_manifest.specs.Views.{rows_or_none};

    ghost Value = { List (List ℕ × List ℕ) };

    ghost view = { λ p. rows_or_none (few_properties_in p.vector) };

    ghost invariant = { λ p. IsOk (few_properties_in p.vector) × (p.vector.size ≡ 4) };
}

/// The properties of a vector, if they are few enough; else the first fault.
fn few_properties_in<'a>(vector: Vector<'a>) -> Result<PropVector<'a>, FileFault>
    requires { vector.size ≡ 4 }
    ensures { result ≡ few_properties_in vector.entry }
{
    if vector.len() > PROP_LIMIT {
        return Err(FileFault::Limit);
    }
    check_properties(&vector)?;
    Ok(PropVector { vector })
}

impl<'a> PropVector<'a> {
    /// How many properties there are.
    fn len(&self) -> usize
        ensures count { result ≡ length self.now }
        ensures rule { AreProps self.now }
    {
        self.vector.len()
    }

    /// The name and the value of property number `i`.
    fn at(&self, i: usize) -> (&'a str, &'a str)
        requires { i < length self.now }
        ensures { slice_get self.now i ≡ Some (result.0.now, result.1.now) }
    {
        property_at(&self.vector, i).unwrap()
    }
}

/// The properties of a snapshot, read in place: none where the list is absent. Contracts see them as pairs of a name and a value,
/// in the strict order of the names' bytes.
#[derive(Drop)]
pub struct HeldProps<'a> {
    rows: Option<PropVector<'a>>,
}

impl<'a> Model for HeldProps<'a> {
    ghost use Rattle.std.specs.Prelude.{ℕ, List};
    ghost use Rattle.held_snapshot.specs.Views.{rows_there};

    ghost Value = { List (List ℕ × List ℕ) };

    ghost view = { λ p. rows_there p.rows };
}

/// The properties of a snapshot's table, none where the slot is absent; else the first fault.
#[tactic(auto, unfolding(snapshot_file::specs::Snapshots::properties_of))]
pub(crate) fn properties_of<'a>(table: &Table<'a>) -> Result<HeldProps<'a>, FileFault>
    ensures { result ≡ properties_of table.now }
{
    match table.vector(5, 4)? {
        None => Ok(HeldProps { rows: None }),
        Some(vector) => Ok(HeldProps {
            rows: Some(few_properties_in(vector)?),
        }),
    }
}

/// The properties of a snapshot's table, which were read before.
pub(crate) fn held_properties<'a>(table: &Table<'a>) -> HeldProps<'a>
    requires { IsOk (properties_of table.now) }
    ensures { properties_of table.now ≡ Ok result }
{
    match table.vector(5, 4).unwrap() {
        None => HeldProps { rows: None },
        Some(vector) => HeldProps {
            rows: Some(PropVector { vector }),
        },
    }
}

impl<'a> HeldProps<'a> {
    /// How many properties there are.
    pub fn len(&self) -> usize
        ensures count { result ≡ length self.now }
        ensures rule { AreProps self.now }
    {
        match &self.rows {
            None => 0,
            Some(rows) => rows.len(),
        }
    }

    /// The name and the value of property number `i`.
    pub fn at(&self, i: usize) -> (&'a str, &'a str)
        requires { i < length self.now }
        ensures { slice_get self.now i ≡ Some (result.0.now, result.1.now) }
    {
        match &self.rows {
            None => unreachable!(),
            Some(rows) => rows.at(i),
        }
    }

    /// The same in memory of their own.
    pub fn copy(&self, alloc: Global) -> Result<Props, AllocError>
        ensures { IfOk result (λ copy. copy ≡ self.now) }
    {
        let mut props = Props::new(alloc);
        for i in 0..self.len() {
            let (name, value) = self.at(i);
            // What keeps the rule of properties is refused for want of memory alone.
            let Ok(()) = props.add(name, value) else {
                return Err(AllocError);
            };
        }
        Ok(props)
    }
}
