ghost use Rattle.std.specs.Prelude.{◌≡◌, ◌⊎◌, ◌+◌, ◌*◌, ◌^◌, ◌<◌, ◌≤◌, length, IfOk, IfSome, option_map};
ghost use Rattle.flat_tables.specs.Step.{Gives};
ghost use Rattle.flat_tables.specs.Places.{number_at, width_of, scalar_of, TableIn, VectorIn, table_at, target_of, root_of, field_of, struct_of, child_of, vector_at, vector_of, text_at, text_of, item_of, all_of, table_of};

use crate::fault::FlatFault;
use crate::place::{back_from, span, u16_at, u32_at, u64_at};
use std::marker::Model;

/// A table of a payload, from which it borrows. Contracts see it as the payload's bytes and the places in them.
#[derive(Drop)]
pub struct Table<'a> {
    payload: &'a [u8],
    at: usize,
    vtable: usize,
    entries: u16,
    size: u16,
}

impl<'a> Model for Table<'a> {
    ghost Value = { TableIn };

    ghost view = { λ t. record { bytes = t.payload.now; at = t.at; vtable = t.vtable; entries = t.entries; size = t.size } };

    ghost invariant = { λ t. (t.vtable + t.entries ≤ length t.payload.now) × (t.at + t.size ≤ length t.payload.now) × (length t.payload.now < 2 ^ 63) };
}

/// A vector of a payload, from which it borrows: elements of one size, in bytes. Contracts see it as the payload's
/// bytes, the place of the first element, the number of elements and their size.
#[derive(Drop)]
pub struct Vector<'a> {
    payload: &'a [u8],
    first: usize,
    count: u32,
    size: usize,
}

impl<'a> Model for Vector<'a> {
    ghost Value = { VectorIn };

    ghost view = { λ v. record { bytes = v.payload.now; first = v.first; count = v.count; size = v.size } };

    ghost invariant = { λ v. (v.first + v.count * v.size ≤ length v.payload.now) × (length v.payload.now < 2 ^ 63) };
}

#[tactic(auto, unfolding(crate::specs::Places::table_at))]
fn table_at(payload: &[u8], at: usize) -> Result<Table<'_>, FlatFault>
    requires { at < 2 ^ 63 + 2 ^ 32 }
    ensures { result ≡ table_at payload.now at }
{
    let offset = u32_at(payload, at)?;
    let vtable = back_from(at, offset)?;
    span(payload, vtable, 4)?;
    let entries = u16_at(payload, vtable)?;
    let size = u16_at(payload, vtable + 2)?;
    if entries < 4 {
        return Err(FlatFault::Outside { at: vtable });
    }
    span(payload, vtable, entries as usize)?;
    if size < 4 {
        return Err(FlatFault::Outside { at });
    }
    span(payload, at, size as usize)?;
    Ok(Table {
        payload,
        at,
        vtable,
        entries,
        size,
    })
}

#[tactic(auto, unfolding(crate::specs::Places::target_of))]
fn target_of(payload: &[u8], at: usize) -> Result<usize, FlatFault>
    ensures target { result ≡ target_of payload.now at }
    ensures small { IfOk result (λ t. t < 2 ^ 63 + 2 ^ 32) }
{
    let offset = u32_at(payload, at)?;
    Ok(at + offset as usize)
}

impl<'a> Table<'a> {
    /// The root table of a payload. `Outside` tells the place of the first part that does not lie in the payload: the
    /// root's offset, then the table's offset to its vtable, the vtable's sizes, the vtable, and the table.
    #[tactic(auto, unfolding(crate::specs::Places::root_of))]
    pub fn root(payload: &'a [u8]) -> Result<Table<'a>, FlatFault>
        ensures { result ≡ root_of payload.now }
    {
        let at = u32_at(payload, 0)?;
        table_at(payload, at as usize)
    }

    /// The place of a field of `len` bytes.
    #[tactic(auto, unfolding(crate::specs::Places::field_of))]
    fn field(&self, slot: u16, len: usize) -> Result<Option<usize>, FlatFault>
        ensures { result ≡ field_of self.now slot len }
    {
        let entry = 4 + 2 * slot as usize;
        if (self.entries as usize) < entry + 2 {
            return Ok(None);
        }
        let offset = u16_at(self.payload, self.vtable + entry)? as usize;
        if offset == 0 {
            return Ok(None);
        }
        if offset > self.size as usize || len > self.size as usize - offset {
            return Err(FlatFault::Outside {
                at: self.at + offset,
            });
        }
        Ok(Some(self.at + offset))
    }

    /// The bytes of a struct of `size` bytes that lies in the table, or `None` where the field is absent. `Outside`
    /// where it would pass the table's end.
    #[tactic(auto, unfolding(crate::specs::Places::struct_of))]
    pub fn bytes(&self, slot: u16, size: usize) -> Result<Option<&'a [u8]>, FlatFault>
        ensures read { Gives (option_map (λ x. x.now)) result (struct_of self.now slot size) }
        ensures len { IfOk result (λ found. IfSome found (λ x. length x.now ≡ size)) }
    {
        match self.field(slot, size)? {
            None => Ok(None),
            Some(at) => Ok(Some(span(self.payload, at, size)?)),
        }
    }

    /// A little-endian number of 1, 2, 4 or 8 bytes, or `None` where the field is absent. `Outside` where it would
    /// pass the table's end.
    #[tactic(auto, unfolding(crate::specs::Places::scalar_of))]
    pub fn scalar(&self, slot: u16, size: u8) -> Result<Option<u64>, FlatFault>
        requires { (size ≡ 1) ⊎ (size ≡ 2) ⊎ (size ≡ 4) ⊎ (size ≡ 8) }
        ensures { result ≡ scalar_of self.now slot size }
    {
        match self.field(slot, size as usize)? {
            None => Ok(None),
            Some(at) => Ok(Some(number_at(self.payload, at, size)?)),
        }
    }

    /// A string, or `None` where the field is absent. `Outside` where the field would pass the table's end, or the
    /// string and the byte behind it the payload's end; `NotText` where the bytes are not UTF-8.
    #[tactic(auto, unfolding(crate::specs::Places::text_of))]
    pub fn text(&self, slot: u16) -> Result<Option<&'a str>, FlatFault>
        ensures { Gives (option_map (λ x. x.now)) result (text_of self.now slot) }
    {
        match self.field(slot, 4)? {
            None => Ok(None),
            Some(at) => {
                let target = target_of(self.payload, at)?;
                match text_at(self.payload, target) {
                    Ok(text) => Ok(Some(text)),
                    Err(fault) => Err(fault),
                }
            }
        }
    }

    /// A table that a field leads to, or `None` where the field is absent. `Outside` as in [`Table::root`].
    #[tactic(auto, unfolding(crate::specs::Places::child_of))]
    pub fn table(&self, slot: u16) -> Result<Option<Table<'a>>, FlatFault>
        ensures { result ≡ child_of self.now slot }
    {
        match self.field(slot, 4)? {
            None => Ok(None),
            Some(at) => {
                let target = target_of(self.payload, at)?;
                Ok(Some(table_at(self.payload, target)?))
            }
        }
    }

    /// A vector whose elements have `size` bytes each, or `None` where the field is absent. `Outside` where the field
    /// would pass the table's end, or the elements the payload's end.
    #[tactic(auto, unfolding(crate::specs::Places::vector_of))]
    pub fn vector(&self, slot: u16, size: usize) -> Result<Option<Vector<'a>>, FlatFault>
        ensures read { result ≡ vector_of self.now slot size }
        ensures size { IfOk result (λ found. IfSome found (λ v. v.size ≡ size)) }
    {
        match self.field(slot, 4)? {
            None => Ok(None),
            Some(at) => {
                let target = target_of(self.payload, at)?;
                Ok(Some(vector_at(self.payload, size, target)?))
            }
        }
    }
}

#[tactic(auto, unfolding(crate::specs::Places::vector_at))]
fn vector_at(payload: &[u8], size: usize, at: usize) -> Result<Vector<'_>, FlatFault>
    requires { at < 2 ^ 63 + 2 ^ 32 }
    ensures read { result ≡ vector_at payload.now size at }
    ensures size { IfOk result (λ v. v.size ≡ size) }
{
    let count = u32_at(payload, at)?;
    let len = (count as usize).saturating_mul(size);
    span(payload, at + 4, len)?;
    Ok(Vector {
        payload,
        first: at + 4,
        count,
        size,
    })
}

fn number_at(payload: &[u8], at: usize, size: u8) -> Result<u64, FlatFault>
    requires { (size ≡ 1) ⊎ (size ≡ 2) ⊎ (size ≡ 4) ⊎ (size ≡ 8) }
    ensures { result ≡ number_at (width_of size) payload.now at }
{
    match size {
        1 => Ok(u64::from(span(payload, at, 1)?[0])),
        2 => Ok(u64::from(u16_at(payload, at)?)),
        4 => Ok(u64::from(u32_at(payload, at)?)),
        _ => u64_at(payload, at),
    }
}

#[tactic(auto, using(crate::proofs::Text::not_text, crate::proofs::Text::is_text), unfolding(crate::specs::Places::vector_at, crate::specs::Places::text_at))]
fn text_at(payload: &[u8], at: usize) -> Result<&str, FlatFault>
    requires { at < 2 ^ 63 + 2 ^ 32 }
    ensures { Gives (λ x. x.now) result (text_at payload.now at) }
{
    let count = u32_at(payload, at)? as usize;
    let first = at + 4;
    let bytes = span(payload, first, count)?;
    span(payload, first + count, 1)?;
    match std::str::from_utf8(bytes) {
        Ok(text) => Ok(text),
        Err(_) => Err(FlatFault::NotText { at: first }),
    }
}

impl<'a> Vector<'a> {
    /// The number of elements.
    pub fn len(&self) -> usize
        ensures { result ≡ self.now.count }
    {
        self.count as usize
    }

    /// The bytes of element `i`.
    pub fn item(&self, i: usize) -> &'a [u8]
        requires { i < self.now.count }
        ensures item { result.now ≡ item_of self.now i }
        ensures len { length result.now ≡ self.now.size }
    {
        let from = self.first + i * self.size;
        &self.payload[from..from + self.size]
    }

    /// The bytes of all elements, one after another.
    pub fn all(&self) -> &'a [u8]
        ensures all { result.now ≡ all_of self.now }
        ensures len { length result.now ≡ self.now.count * self.now.size }
    {
        let len = self.count as usize * self.size;
        &self.payload[self.first..self.first + len]
    }

    /// The table that element `i` leads to, where the elements are offsets of 4 bytes. `Outside` as in
    /// [`Table::root`].
    #[tactic(auto, unfolding(crate::specs::Places::table_of))]
    pub fn table_at(&self, i: usize) -> Result<Table<'a>, FlatFault>
        requires below { i < self.now.count }
        requires offsets { self.now.size ≡ 4 }
        ensures { result ≡ table_of self.now i }
    {
        let target = target_of(self.payload, self.first + i * 4)?;
        table_at(self.payload, target)
    }
}
