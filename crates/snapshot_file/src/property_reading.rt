ghost use Rattle.std.specs.Prelude.{◌≡◌, ◌<◌, ◌≤◌, option_map, option_copied};
ghost use Rattle.flat_tables.specs.Rows.{Reads, follows};
ghost use Rattle.snapshot_file.specs.Props.{prop_key, prop_limit};
ghost use Rattle.snapshot_file.specs.Snapshots.{property_of, property_at, properties_in, few_properties_in, properties_of};

use crate::properties::{PROP_LIMIT, Props, is_prop_name, is_prop_value};
use crate::slots::text_in;
use flat_tables::{FileFault, Table, Vector};
use ice_base::Text;
use std::alloc::Global;

/// Whether a property may stand behind the last one.
fn property_follows(last: Option<&(Text, Text)>, property: &(Text, Text)) -> bool
    ensures { result ≡ follows (option_map prop_key (option_copied last.entry))
        (prop_key property.now) }
{
    match last {
        None => true,
        Some(last) => last.0.as_str().cmp(property.0.as_str()).is_lt(),
    }
}

/// Property number `at`, which a table has.
#[tactic(auto, unfolding(crate::specs::Snapshots::property_of))]
fn property_of(alloc: Global, at: usize, table: &Table) -> Result<(Text, Text), FileFault>
    ensures { Reads (λ x. x) result (property_of at table.now) }
{
    let name = text_in(table, 0)?;
    let value = text_in(table, 1)?;
    if !is_prop_name(name) || !is_prop_value(value) {
        return Err(FileFault::Property { at });
    }
    Ok((Text::of(alloc, name)?, Text::of(alloc, value)?))
}

/// Property number `at`, to which that element leads.
#[tactic(auto, unfolding(crate::specs::Snapshots::property_at))]
fn property_at(alloc: Global, vector: &Vector, at: usize) -> Result<(Text, Text), FileFault>
    requires below { at < vector.now.count }
    requires offsets { vector.now.size ≡ 4 }
    ensures { Reads (λ x. x) result (property_at vector.now at) }
{
    let table = vector.table_at(at)?;
    property_of(alloc, at, &table)
}

/// The properties in a vector, which stand in order.
fn properties_in(alloc: Global, vector: &Vector) -> Result<Props, FileFault>
    requires offsets { vector.now.size ≡ 4 }
    requires few { vector.now.count ≤ prop_limit }
    ensures { Reads (λ x. x) result (properties_in vector.now) }
{
    let mut rows: Vec<(Text, Text)> = Vec::new(alloc);
    for at in 0..vector.len() {
        let row = property_at(alloc, vector, at)?;
        if !property_follows(rows.last(), &row) {
            return Err(FileFault::Order { slot: 5, at });
        }
        rows.push(row)?;
    }
    Ok(Props::from_rows(alloc, rows))
}

/// The properties in a vector, if they are few enough.
fn few_properties_in(alloc: Global, vector: &Vector) -> Result<Props, FileFault>
    requires { vector.now.size ≡ 4 }
    ensures { Reads (λ x. x) result (few_properties_in vector.now) }
{
    if vector.len() > PROP_LIMIT {
        return Err(FileFault::Limit);
    }
    properties_in(alloc, vector)
}

/// The properties of a snapshot, none where the slot is absent.
#[tactic(auto, unfolding(crate::specs::Snapshots::properties_of))]
pub fn properties_of(alloc: Global, table: &Table) -> Result<Props, FileFault>
    ensures { Reads (λ x. x) result (properties_of table.now) }
{
    match table.vector(5, 4)? {
        None => Ok(Props::new(alloc)),
        Some(vector) => few_properties_in(alloc, &vector),
    }
}
