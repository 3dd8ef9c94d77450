ghost use Rattle.std.specs.Prelude.{◌≡◌, IsTrue, IfOk, OnOk};
ghost use Rattle.flat_tables.specs.Layout.{part_if};
ghost use Rattle.flat_tables.specs.Trees.{layout, part_of, is_writable, is_writable_slot};
ghost use Rattle.snapshot_file.specs.Props.{AreProps};
ghost use Rattle.snapshot_file.specs.Layout.{prop_block, props_part, some_props};

use crate::fields::text_slot;
use crate::properties::Props;
use flat_tables::{Flat, Slot};
use ice_base::Text;
use std::alloc::{AllocError, Global};

/// The table of a property.
fn prop_table(alloc: Global, prop: &(Text, Text)) -> Result<Flat, AllocError>
    ensures block { IfOk result (λ f. layout f ≡ prop_block prop.now) }
    ensures writable { IfOk result (λ f. IsTrue (is_writable f)) }
{
    let name = text_slot(alloc, prop.0.as_str())?;
    let value = text_slot(alloc, prop.1.as_str())?;
    Ok(Flat {
        slots: Vec::from_array(alloc, [name, value])?,
    })
}

/// The properties of a snapshot.
fn props_slot(alloc: Global, props: &Props) -> Result<Slot, AllocError>
    ensures part { IfOk result (λ s. part_of s ≡ props_part props.now) }
    ensures writable { IfOk result (λ s. IsTrue (is_writable_slot s)) }
{
    let mut tables: Vec<Flat> = Vec::new(alloc);
    for prop in props.rows() {
        tables.push(prop_table(alloc, prop)?)?;
    }
    Ok(Slot::Tables(tables))
}

/// The properties of a snapshot, where it has any.
pub fn props_slot_if(alloc: Global, props: &Props) -> Result<Slot, AllocError>
    ensures part { IfOk result (λ s. part_of s ≡ part_if props_part (some_props props.now)) }
    ensures writable { IfOk result (λ s. IsTrue (is_writable_slot s)) }
    ensures sized { OnOk result (AreProps props.now) }
{
    if props.len() == 0 {
        return Ok(Slot::Absent);
    }
    props_slot(alloc, props)
}
