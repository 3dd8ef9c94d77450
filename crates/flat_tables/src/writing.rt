ghost use Rattle.std.specs.Prelude.{◌≡◌, ◌+◌, ◌*◌, ◌/◌, ◌^◌, ◌<◌, ◌≤◌, ◌++◌, List, [], ◌∷◌, length, map, take, IfOk, OnOk, IsTrue, All};
ghost use Rattle.std.specs.Int.{w16, w32, w64, to_le_bytes};
ghost use Rattle.flat_tables.specs.Layout.{Part, payload, zeros, fields_end, entries, fields, all_beneath, table_place, text_block, vector_block, tables_block, offsets, blocks, table_head, tables_head};
ghost use Rattle.flat_tables.specs.Trees.{layout, part_of, is_writable, is_writable_slot, capped};
ghost use Rattle.flat_tables.specs.File.{Writes};

use crate::ends::{
    behind_field, behind_table, gap_to, place_of, shape, slots_end, table_end, vector_align,
};
use crate::fault::WriteFault;
use crate::flat::{Flat, Slot};
use crate::header::{FILE_LIMIT, HEADER};
use std::alloc::{AllocError, Global};

/// Appends so many zero bytes.
pub fn push_zeros(out: &mut Vec<u8>, count: usize) -> Result<(), AllocError>
    ensures { OnOk result (out.new.items ≡ out.old.items ++ zeros count) }
{
    for _ in 0..count {
        out.push(0)?;
    }
    Ok(())
}

/// Appends a little-endian number of 16 bits.
pub fn push_u16(out: &mut Vec<u8>, n: usize) -> Result<(), AllocError>
    requires { n < 2 ^ 16 }
    ensures { OnOk result (out.new.items ≡ out.old.items ++ to_le_bytes w16 n) }
{
    out.extend_from_slice(&(n as u16).to_le_bytes())
}

/// Appends a little-endian number of 32 bits.
pub fn push_u32(out: &mut Vec<u8>, n: usize) -> Result<(), AllocError>
    requires { n < 2 ^ 32 }
    ensures { OnOk result (out.new.items ≡ out.old.items ++ to_le_bytes w32 n) }
{
    out.extend_from_slice(&(n as u32).to_le_bytes())
}

/// Appends a little-endian number of `size` bytes.
fn push_scalar(out: &mut Vec<u8>, size: usize, value: u64) -> Result<(), AllocError>
    requires { size ≤ 8 }
    ensures { OnOk result (out.new.items ≡ out.old.items ++ take size (to_le_bytes w64 value)) }
{
    let bytes = value.to_le_bytes();
    out.extend_from_slice(&bytes[..size])
}

/// The vtable's entries of fields that stand from `from` on.
pub fn put_entries(out: &mut Vec<u8>, slots: &[Slot], from: usize) -> Result<(), AllocError>
    requires writable { All (λ s. IsTrue (is_writable_slot s)) slots.now }
    requires few { from + 262 * length slots.now < 20000 }
    ensures { OnOk result (out.new.items ≡ out.old.items ++ entries (map part_of slots.now) from) }
{
    let mut end = from;
    for slot in slots {
        match shape(slot) {
            None => push_u16(out, 0)?,
            Some((align, size)) => {
                let at = end + gap_to(align, end);
                push_u16(out, at)?;
                end = at + size;
            }
        }
    }
    Ok(())
}

/// The bytes of a field that stands at this place, with all beneath it appended at `below`.
fn put_field(out: &mut Vec<u8>, slot: &Slot, at: usize, below: usize) -> Result<(), AllocError>
    requires writable { IsTrue (is_writable_slot slot.now) }
    requires before { at ≤ below }
    requires fits { below + length ((part_of slot.now).beneath below) ≤ 268435417 }
    ensures { OnOk result (out.new.items ≡ out.old.items ++ (part_of slot.now).field at below) }
{
    match slot {
        Slot::Absent => Ok(()),
        Slot::Scalar { size, value } => push_scalar(out, *size as usize, *value),
        Slot::Struct { bytes, .. } => out.extend_from_slice(bytes),
        Slot::Text(_) => push_u32(out, below + gap_to(4, below) - at),
        Slot::Structs { align, .. } => {
            push_u32(out, below + gap_to(vector_align(*align), below + 4) - at)
        }
        Slot::Table(flat) => {
            let head = 4 + 2 * flat.slots.len();
            push_u32(out, below + gap_to(8, below + head) + head - at)
        }
        Slot::Tables(_) => push_u32(out, below + gap_to(4, below + 4) - at),
    }
}

/// The field of a slot, where one is there, behind the fields that end at `end` from the table's place. It answers
/// the end of this one.
fn put_part(
    out: &mut Vec<u8>,
    slot: &Slot,
    place: usize,
    end: usize,
    below: usize,
) -> Result<usize, AllocError>
    requires writable { IsTrue (is_writable_slot slot.now) }
    requires small { end < 20000 }
    requires before { place + fields_end (part_of slot.now ∷ []) end ≤ below }
    requires fits { below + length ((part_of slot.now).beneath below) ≤ 268435417 }
    ensures bytes { IfOk result (λ next. (ps : List Part)
        → out.new.items ++ fields ps next place (below + length ((part_of slot.now).beneath below))
        ≡ out.old.items ++ fields (part_of slot.now ∷ ps) end place below) }
    ensures end { IfOk result (λ next. (ps : List Part)
        → fields_end ps next ≡ fields_end (part_of slot.now ∷ ps) end) }
    ensures bounded { IfOk result (λ next. next ≤ end + 262) }
{
    match shape(slot) {
        None => Ok(end),
        Some((align, size)) => {
            let gap = gap_to(align, end);
            push_zeros(out, gap)?;
            put_field(out, slot, place + (end + gap), below)?;
            Ok(end + gap + size)
        }
    }
}

/// The fields of the table at `place` that stand from `from` on, with all beneath them appended at `below`.
pub fn put_fields(
    out: &mut Vec<u8>,
    slots: &[Slot],
    from: usize,
    place: usize,
    below: usize,
) -> Result<(), AllocError>
    requires writable { All (λ s. IsTrue (is_writable_slot s)) slots.now }
    requires few { from + 262 * length slots.now < 20000 }
    requires before { place + fields_end (map part_of slots.now) from ≤ below }
    requires fits { below + length (all_beneath (map part_of slots.now) below) ≤ 268435417 }
    ensures { OnOk result (out.new.items ≡ out.old.items ++ fields (map part_of slots.now) from
        place below) }
{
    let mut end = from;
    let mut next = below;
    let mut last: Option<&Slot> = None;
    for slot in slots {
        next = behind_field(last, next);
        end = put_part(out, slot, place, end, next)?;
        last = Some(slot);
    }
    Ok(())
}

/// All of a table but what is beneath it.
fn put_head(out: &mut Vec<u8>, slots: &[Slot]) -> Result<(), AllocError>
    requires writable { All (λ s. IsTrue (is_writable_slot s)) slots.now }
    requires few { length slots.now ≤ 64 }
    requires fits { let end = table_place (length slots.now) (length out.old.items) + fields_end
        (map part_of slots.now) 4 in end + length (all_beneath (map part_of slots.now) end)
        ≤ 268435417 }
    ensures { OnOk result (out.new.items ≡ out.old.items ++ table_head (map part_of slots.now)
        (length out.old.items)) }
{
    let from = out.len();
    let head = 4 + 2 * slots.len();
    let gap = gap_to(8, from + head);
    let end = slots_end(slots, 4);
    push_zeros(out, gap)?;
    push_u16(out, head)?;
    push_u16(out, end)?;
    put_entries(out, slots, 4)?;
    push_u32(out, head)?;
    let place = from + gap + head;
    put_fields(out, slots, 4, place, place + end)
}

/// A table with all beneath it.
#[cycle(put)]
pub fn put_table(out: &mut Vec<u8>, flat: &Flat) -> Result<(), AllocError>
    requires writable { IsTrue (is_writable flat.now) }
    requires fits { length out.old.items + length ((layout flat.now).bytes (length out.old.items))
        ≤ 268435417 }
    ensures { OnOk result (out.new.items ≡ out.old.items ++ (layout flat.now).bytes
        (length out.old.items)) }
{
    put_head(out, &flat.slots)?;
    for slot in &flat.slots {
        put_beneath(out, slot)?;
    }
    Ok(())
}

/// All that is beneath a field.
#[cycle(put)]
fn put_beneath(out: &mut Vec<u8>, slot: &Slot) -> Result<(), AllocError>
    requires writable { IsTrue (is_writable_slot slot.now) }
    requires fits { length out.old.items + length ((part_of slot.now).beneath (length out.old.items))
        ≤ 268435417 }
    ensures { OnOk result (out.new.items ≡ out.old.items ++ (part_of slot.now).beneath
        (length out.old.items)) }
{
    match slot {
        Slot::Absent => Ok(()),
        Slot::Scalar { .. } => Ok(()),
        Slot::Struct { .. } => Ok(()),
        Slot::Text(text) => put_text(out, text.as_bytes()),
        Slot::Structs { align, size, bytes } => put_vector(out, *align, *size, bytes),
        Slot::Table(flat) => put_table(out, flat),
        Slot::Tables(flats) => {
            put_offsets(out, flats)?;
            for flat in flats {
                put_table(out, flat)?;
            }
            Ok(())
        }
    }
}

/// All that is beneath fields.
pub fn put_all(out: &mut Vec<u8>, slots: &[Slot]) -> Result<(), AllocError>
    requires writable { All (λ s. IsTrue (is_writable_slot s)) slots.now }
    requires fits { length out.old.items + length
        (all_beneath (map part_of slots.now) (length out.old.items)) ≤ 268435417 }
    ensures { OnOk result (out.new.items ≡ out.old.items ++ all_beneath (map part_of slots.now)
        (length out.old.items)) }
{
    for slot in slots {
        put_beneath(out, slot)?;
    }
    Ok(())
}

/// A string.
#[tactic(auto, unfolding(crate::specs::Layout::text_block))]
fn put_text(out: &mut Vec<u8>, text: &[u8]) -> Result<(), AllocError>
    requires { length out.old.items + length text.now ≤ 268435417 }
    ensures { OnOk result (out.new.items ≡ out.old.items ++ (text_block text.now).bytes
        (length out.old.items)) }
{
    push_zeros(out, gap_to(4, out.len()))?;
    push_u32(out, text.len())?;
    out.extend_from_slice(text)?;
    Ok(out.push(0)?)
}

/// A vector of elements of one size.
#[tactic(auto, unfolding(crate::specs::Layout::vector_block))]
fn put_vector(out: &mut Vec<u8>, align: u8, size: u8, bytes: &[u8]) -> Result<(), AllocError>
    requires sized { 0 < size }
    requires fits { length out.old.items + length bytes.now ≤ 268435417 }
    ensures { OnOk result
        (out.new.items ≡ out.old.items ++ (vector_block align (length bytes.now / size)
        bytes.now).bytes (length out.old.items)) }
{
    push_zeros(out, gap_to(vector_align(align), out.len() + 4))?;
    push_u32(out, bytes.len() / size as usize)?;
    out.extend_from_slice(bytes)
}

/// A vector of tables without these.
fn put_offsets(out: &mut Vec<u8>, flats: &[Flat]) -> Result<(), AllocError>
    requires writable { All (λ f. IsTrue (is_writable f)) flats.now }
    requires fits { length out.old.items + length
        ((tables_block (map layout flats.now)).bytes (length out.old.items)) ≤ 268435417 }
    ensures { OnOk result (out.new.items ≡ out.old.items ++ tables_head (map layout flats.now)
        (length out.old.items)) }
{
    let gap = gap_to(4, out.len() + 4);
    push_zeros(out, gap)?;
    push_u32(out, flats.len())?;
    let first = out.len();
    put_offsets_from(out, flats, first, first + 4 * flats.len())
}

/// The offsets from `first` on to tables that are appended at `below`.
fn put_offsets_from(
    out: &mut Vec<u8>,
    flats: &[Flat],
    first: usize,
    below: usize,
) -> Result<(), AllocError>
    requires writable { All (λ f. IsTrue (is_writable f)) flats.now }
    requires before { first + 4 * length flats.now ≤ below }
    requires fits { below + length (blocks (map layout flats.now) below) ≤ 268435417 }
    ensures { OnOk result (out.new.items ≡ out.old.items ++ offsets (map layout flats.now) first
        below) }
{
    let mut at = first;
    let mut next = below;
    let mut last: Option<&Flat> = None;
    for flat in flats {
        next = behind_table(last, next);
        push_u32(out, place_of(flat, next) - at)?;
        last = Some(flat);
        at += 4;
    }
    Ok(())
}

/// The length of the file that has this payload.
fn file_len(value: &Flat) -> usize
    requires { IsTrue (is_writable value.now) }
    ensures { result ≡ capped (39 + length (payload (layout value.now))) }
{
    table_end(value, 4).saturating_add(HEADER)
}

/// Writes the payload of a table with all beneath it, in the one layout: the root's offset, the root table, and what
/// is beneath it in the order of slots.
///
/// It asks for at most 64 slots a table, numbers of 1, 2, 4 or 8 bytes that hold their value, structs of at most 255
/// bytes, alignments of 1, 4 or 8, and vectors of whole elements of at least one byte. `TooLarge` comes exactly where
/// the payload and its header have more than [`FILE_LIMIT`](crate::FILE_LIMIT) bytes, and tells how many.
#[tactic(auto, unfolding(crate::specs::Layout::payload))]
pub fn flat_write(alloc: Global, value: &Flat) -> Result<Vec<u8>, WriteFault>
    requires { IsTrue (is_writable value.now) }
    ensures { let bytes = payload (layout value.now) in Writes result bytes (39 + length bytes) }
{
    let len = file_len(value);
    if len > FILE_LIMIT {
        return Err(WriteFault::TooLarge(len));
    }
    let mut out = Vec::with_capacity(alloc, len)?;
    push_u32(&mut out, place_of(value, 4))?;
    put_table(&mut out, value)?;
    Ok(out)
}
