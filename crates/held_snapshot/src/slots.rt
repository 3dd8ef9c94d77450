//! Slots that must be there. `Flat` where one is absent, or where what it leads to doesn't lie in the payload.

ghost use Rattle.std.specs.Prelude.{◌≡◌, ◌⊎◌, IfOk};
ghost use Rattle.flat_tables.specs.Step.{Gives};
ghost use Rattle.flat_tables.specs.Places.{child_of, scalar_of, text_of, vector_of};
ghost use Rattle.flat_tables.specs.Rows.{required};

use flat_tables::{FileFault, FlatFault, Table, Vector};

/// The number of `size` bytes in a slot.
pub(crate) fn number_in(table: &Table, slot: u16, size: u8) -> Result<u64, FileFault>
    requires { (size ≡ 1) ⊎ (size ≡ 2) ⊎ (size ≡ 4) ⊎ (size ≡ 8) }
    ensures { result ≡ required slot (scalar_of table.now slot size) }
{
    match table.scalar(slot, size)? {
        Some(number) => Ok(number),
        None => Err(FileFault::Flat(FlatFault::Missing { slot })),
    }
}

/// The text in a slot.
pub(crate) fn text_in<'a>(table: &Table<'a>, slot: u16) -> Result<&'a str, FileFault>
    ensures { Gives (λ text. text.now) result (required slot (text_of table.now slot)) }
{
    match table.text(slot)? {
        Some(text) => Ok(text),
        None => Err(FileFault::Flat(FlatFault::Missing { slot })),
    }
}

/// The table in a slot.
pub(crate) fn table_in<'a>(table: &Table<'a>, slot: u16) -> Result<Table<'a>, FileFault>
    ensures { result ≡ required slot (child_of table.now slot) }
{
    match table.table(slot)? {
        Some(child) => Ok(child),
        None => Err(FileFault::Flat(FlatFault::Missing { slot })),
    }
}

/// The vector in a slot, whose elements have `size` bytes each.
pub(crate) fn vector_in<'a>(
    table: &Table<'a>,
    slot: u16,
    size: usize,
) -> Result<Vector<'a>, FileFault>
    ensures read { result ≡ required slot (vector_of table.now slot size) }
    ensures size { IfOk result (λ v. v.size ≡ size) }
{
    match table.vector(slot, size)? {
        Some(vector) => Ok(vector),
        None => Err(FileFault::Flat(FlatFault::Missing { slot })),
    }
}
