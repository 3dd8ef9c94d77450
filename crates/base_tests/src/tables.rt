//! Tables in tables, as no file has them.

ghost use Rattle.std.specs.Prelude.{◌≤◌, IfOk, IsTrue};
ghost use Rattle.flat_tables.specs.Trees.{is_writable, is_writable_slot};

use flat_tables::{Flat, FlatFault, Slot, Table, Vector, flat_write};
use std::alloc::{AllocError, Global};
use std::test::Fail;
use test_ends::holds;

/// A table that has a table with the number 7 in one byte, and a vector of two tables: one with the text `a`, and one
/// whose only slot is absent.
const NESTED: [u8; 100] = [
    0x10, 0, 0, 0, 0, 0, 0, 0, 8, 0, 12, 0, 4, 0, 8, 0, 8, 0, 0, 0, 20, 0, 0, 0, 24, 0, 0, 0, 0, 0,
    0, 0, 0, 0, 6, 0, 5, 0, 4, 0, 6, 0, 0, 0, 7, 0, 0, 0, 2, 0, 0, 0, 20, 0, 0, 0, 40, 0, 0, 0, 0,
    0, 0, 0, 0, 0, 6, 0, 8, 0, 4, 0, 6, 0, 0, 0, 4, 0, 0, 0, 1, 0, 0, 0, 0x61, 0, 0, 0, 0, 0, 6, 0,
    4, 0, 0, 0, 6, 0, 0, 0,
];

/// A table with one field.
fn one_field(alloc: Global, slot: Slot) -> Result<Flat, AllocError>
    requires { IsTrue (is_writable_slot slot) }
    ensures { IfOk result (λ f. IsTrue (is_writable f)) }
{
    Ok(Flat {
        slots: Vec::from_array(alloc, [slot])?,
    })
}

/// A vector of two tables.
#[tactic(auto, using(flat_tables::proofs::Folds::writable_tables_is))]
fn two_tables(alloc: Global, first: Flat, second: Flat) -> Result<Slot, AllocError>
    requires first { IsTrue (is_writable first) }
    requires second { IsTrue (is_writable second) }
    ensures { IfOk result (λ s. IsTrue (is_writable_slot s)) }
{
    Ok(Slot::Tables(Vec::from_array(alloc, [first, second])?))
}

/// The tables of `NESTED`.
fn nested(alloc: Global) -> Result<Flat, AllocError>
    ensures { IfOk result (λ f. IsTrue (is_writable f)) }
{
    let number = one_field(alloc, Slot::Scalar { size: 1, value: 7 })?;
    let text = one_field(alloc, Slot::Text("a".to_string(alloc)?))?;
    let nothing = one_field(alloc, Slot::Absent)?;
    let both = two_tables(alloc, text, nothing)?;
    let slots = Vec::from_array(alloc, [Slot::Table(number), both])?;
    Ok(Flat { slots })
}

/// The file of those tables.
fn written(alloc: Global) -> Option<Vec<u8>> {
    let nested = nested(alloc).ok()?;
    let written = flat_write(alloc, &nested);
    drop(nested);
    written.ok()
}

#[test]
fn nested_tables_are_written(rt: HostRuntime) -> Result<(), Fail> {
    match written(rt.alloc()) {
        Some(written) => holds(written.as_slice() == NESTED.as_slice(), "nested"),
        None => holds(false, "none were written"),
    }
}

/// Whether the first table of a root has the number 7.
fn has_number(root: &Table<'_>) -> Result<bool, FlatFault> {
    match root.table(0)? {
        Some(number) => Ok(number.scalar(0, 1)? == Some(7)),
        None => Ok(false),
    }
}

/// Whether a vector has the offsets of the two tables.
fn has_offsets(vector: &Vector<'_>) -> bool
    requires { 1 ≤ vector.now.count }
{
    vector.item(0) == [20, 0, 0, 0].as_slice()
        && vector.all() == [20, 0, 0, 0, 40, 0, 0, 0].as_slice()
}

/// Whether the vector of a root has the two tables, the first of which has the text.
fn has_tables(root: &Table<'_>) -> Result<bool, FlatFault> {
    let Some(vector) = root.vector(1, 4)? else {
        return Ok(false);
    };
    if vector.len() != 2 || !has_offsets(&vector) {
        return Ok(false);
    }
    Ok(vector.table_at(0)?.text(0)? == Some("a"))
}

/// Whether the root of those tables has all that is in it.
fn has_all(bytes: &[u8]) -> Result<bool, FlatFault> {
    let root = Table::root(bytes)?;
    Ok(has_number(&root)? && has_tables(&root)?)
}

#[test]
fn nested_tables_are_read() -> Result<(), Fail> {
    holds(has_all(&NESTED) == Ok(true), "nested")
}
