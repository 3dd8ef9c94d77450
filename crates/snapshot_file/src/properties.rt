//! Properties: the named texts of a snapshot.

ghost use Rattle.std.specs.Prelude.{◌≡◌, ◌≤◌, ◌<◌, List, [], ℕ, length, insert, is_none, slice_get, Some, None, IfSome, IfErr, OnOk, OnErr};
ghost use Rattle.std.specs.BTreeMap.{insert_entry};
ghost use Rattle.std.specs.List.{list_any};
ghost use Rattle.flat_tables.specs.Rows.{Ascends};
ghost use Rattle.snapshot_file.specs.Props.{is_blank, is_prop_name, is_prop_value, prop_key, name_cmp, AreProps, has_name, prop_fault, RefusesProp};
ghost use Rattle.snapshot_file.specs.declared.properties.PropFault.TheVariants as refusals;

use ice_base::Text;
use std::alloc::{AllocError, AllocFailed, Global};
use std::cmp::Ordering;
use std::marker::Model;

/// The most properties of a snapshot.
pub const PROP_LIMIT: usize = 64;

/// The most bytes of a property's name.
const NAME_LIMIT: usize = 200;

/// The most bytes of a property's value.
const VALUE_LIMIT: usize = 65_536;

/// Why a property is not added.
#[derive(Clone, Copy, Debug, PartialEq, Eq)]
pub enum PropFault {
    /// The name has no bytes or more than 200, or one of them is a space, a control before it, or delete.
    Name,
    /// The value has more than 65,536 bytes.
    Value,
    /// The name is there.
    Twice,
    /// There are [`PROP_LIMIT`] properties.
    Many,
    /// Memory ran out.
    NoMemory,
}

impl From<AllocError> for PropFault {
    ghost from_gives = { λ _ e. e ≡ refusals.NoMemory };

    fn from(_error: AllocError) -> PropFault {
        PropFault::NoMemory
    }
}

impl<T: Drop> From<AllocFailed<T>> for PropFault {
    ghost from_gives = { λ _ e. e ≡ refusals.NoMemory };

    fn from(_error: AllocFailed<T>) -> PropFault {
        PropFault::NoMemory
    }
}

/// The properties of a snapshot. Contracts see them as pairs of a name and a value, in the strict order of the names'
/// bytes.
#[derive(Debug, Drop)]
pub struct Props {
    alloc: Global,
    rows: Vec<(Text, Text)>,
}

impl Model for Props {
    ghost use Rattle.std.specs.Prelude.{ℕ, List};

    ghost Value = { List (List ℕ × List ℕ) };

    ghost use Rattle.snapshot_file.specs.Props.{AreProps};

    ghost view = { λ p. p.rows.items };

    ghost invariant = { λ p. AreProps p.rows.items };
}

/// Whether no name has this byte.
fn is_blank(byte: u8) -> bool
    ensures { result ≡ is_blank byte }
{
    byte < 33 || byte == 127
}

/// Whether one of these bytes is one that no name has.
fn has_blank(bytes: &[u8]) -> bool
    ensures { result ≡ list_any is_blank bytes.now }
{
    bytes.iter().any(|byte| is_blank(*byte))
}

/// Whether a property may have this name.
#[tactic(auto, unfolding(crate::specs::Props::is_prop_name))]
pub(crate) fn is_prop_name(name: &str) -> bool
    ensures { result ≡ is_prop_name name.now }
{
    let bytes = name.as_bytes();
    1 <= bytes.len() && bytes.len() <= NAME_LIMIT && !has_blank(bytes)
}

/// Whether a property may have this value.
#[tactic(auto, unfolding(crate::specs::Props::is_prop_value))]
pub(crate) fn is_prop_value(value: &str) -> bool
    ensures { result ≡ is_prop_value value.now }
{
    value.len() <= VALUE_LIMIT
}

/// How a property's name compares with another.
fn compare(row: &(Text, Text), name: &str) -> Ordering
    ensures { result ≡ name_cmp row.now.0 name.now }
{
    row.0.as_str().cmp(name)
}

/// Where a property of this name would stand among these, and `None` where the name is there.
fn place(rows: &[(Text, Text)], name: &str) -> Option<usize>
    requires { Ascends prop_key None rows.now }
    ensures there { is_none result ≡ has_name rows.now name.now }
    ensures at { IfSome result (λ at. at ≤ length rows.now) }
    ensures order { IfSome result (λ at. (value : List ℕ) → insert rows.now at (name.now, value)
        ≡ insert_entry name_cmp rows.now name.now value) }
{
    rows.binary_search_by(|row| compare(row, name)).err()
}

impl Props {
    /// No properties. It takes no memory.
    pub fn new(alloc: Global) -> Props
        ensures { result ≡ [] }
    {
        Props {
            alloc,
            rows: Vec::new(alloc),
        }
    }

    /// These properties.
    pub(crate) fn from_rows(alloc: Global, rows: Vec<(Text, Text)>) -> Props
        requires { AreProps rows.items }
        ensures { result ≡ rows.items }
    {
        Props { alloc, rows }
    }

    /// Adds a property. It is refused with the first [`PropFault`] in their order. After a refusal all is as before.
    #[tactic(auto, unfolding(crate::specs::Props::prop_fault))]
    pub fn add(&mut self, name: &str, value: &str) -> Result<(), PropFault>
        ensures none { OnOk result (prop_fault self.old name.now value.now ≡ None) }
        ensures added { OnOk result (self.new ≡ insert_entry name_cmp self.old name.now value.now) }
        ensures refused { IfErr result (RefusesProp self.old name.now value.now) }
        ensures kept { OnErr result (self.new ≡ self.old) }
    {
        if !is_prop_name(name) {
            return Err(PropFault::Name);
        }
        if !is_prop_value(value) {
            return Err(PropFault::Value);
        }
        let rows = self.rows.as_slice();
        let Some(at) = place(rows, name) else {
            return Err(PropFault::Twice);
        };
        if rows.len() == PROP_LIMIT {
            return Err(PropFault::Many);
        }
        let name = Text::of(self.alloc, name)?;
        let value = Text::of(self.alloc, value)?;
        self.rows.insert(at, (name, value))?;
        Ok(())
    }

    /// How many properties there are.
    pub fn len(&self) -> usize
        ensures len { result ≡ length self.now }
        ensures rule { AreProps self.now }
    {
        self.rows.len()
    }

    /// The names and the values.
    pub(crate) fn rows(&self) -> &[(Text, Text)]
        ensures rows { result.now ≡ self.now }
        ensures rule { AreProps self.now }
    {
        self.rows.as_slice()
    }

    /// The name and the value of property number `i`.
    pub fn row(&self, i: usize) -> (&str, &str)
        requires { i < length self.now }
        ensures { slice_get self.now i ≡ Some (result.0.now, result.1.now) }
    {
        let row = &self.rows[i];
        (row.0.as_str(), row.1.as_str())
    }
}
