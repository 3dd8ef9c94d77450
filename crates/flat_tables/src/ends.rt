ghost use Rattle.std.specs.Prelude.{◌≡◌, ◌+◌, ◌*◌, ◌<◌, ◌≤◌, length, map, max, IsTrue, IfSome, All, option_map};
ghost use Rattle.flat_tables.specs.Layout.{gap_to, fields_end, all_beneath};
ghost use Rattle.flat_tables.specs.Trees.{layout, part_of, is_writable, is_writable_slot, capped, HasShape, behind_field, behind_table};

use crate::flat::{Flat, Slot};

/// How many bytes lead from `at` to a multiple of `align`.
#[inline(always)]
fn gap(align: usize, at: usize) -> usize
    requires { 0 < align }
    ensures gap { result ≡ gap_to align at }
    ensures less { result < align }
{
    (align - at % align) % align
}

/// How many bytes lead from `at` to a multiple of `align`. The alignments that files have are told apart, since a division by a
/// number that is known beforehand is none for the machine.
pub fn gap_to(align: usize, at: usize) -> usize
    requires { 0 < align }
    ensures gap { result ≡ gap_to align at }
    ensures less { result < align }
{
    match align {
        1 => gap(1, at),
        2 => gap(2, at),
        4 => gap(4, at),
        8 => gap(8, at),
        _ => gap(align, at),
    }
}

/// The alignment and the size of a field, where it is there.
#[tactic(auto, using(crate::proofs::Folds::shapes))]
pub fn shape(slot: &Slot) -> Option<(usize, usize)>
    requires { IsTrue (is_writable_slot slot.now) }
    ensures { HasShape result (part_of slot.now) }
{
    match slot {
        Slot::Absent => None,
        Slot::Scalar { size, .. } => Some((*size as usize, *size as usize)),
        Slot::Struct { align, bytes } => Some((*align as usize, bytes.len())),
        _ => Some((4, 4)),
    }
}

/// Where fields end that stand from `from` on, both from their table's place.
pub fn slots_end(slots: &[Slot], from: usize) -> usize
    requires writable { All (λ s. IsTrue (is_writable_slot s)) slots.now }
    requires few { from + 262 * length slots.now < 20000 }
    ensures end { result ≡ fields_end (map part_of slots.now) from }
    ensures small { result ≤ from + 262 * length slots.now }
{
    let mut end = from;
    for slot in slots {
        if let Some((align, size)) = shape(slot) {
            end = end + gap_to(align, end) + size;
        }
    }
    end
}

/// What the place behind a vector's count is a multiple of.
pub fn vector_align(align: u8) -> usize
    ensures { result ≡ max 4 align }
{
    if align > 4 { align as usize } else { 4 }
}

/// Where a block of `len` bytes ends that is appended at `from`, so that what stands `ahead` bytes behind its begin
/// is aligned.
fn block_end(from: usize, align: usize, ahead: usize, len: usize) -> usize
    requires aligned { 0 < align }
    requires within { ahead ≤ len }
    ensures { result ≡ capped (from + gap_to align (from + ahead) + len) }
{
    let gap = gap_to(align, from.saturating_add(ahead));
    from.saturating_add(gap).saturating_add(len)
}

/// Where a table with all beneath it ends that is appended at `from`.
#[cycle(end)]
pub fn table_end(flat: &Flat, from: usize) -> usize
    requires { IsTrue (is_writable flat.now) }
    ensures { result ≡ capped (from + length ((layout flat.now).bytes from)) }
{
    let head = 4 + 2 * flat.slots.len();
    let mut end = block_end(from, 8, head, head + slots_end(&flat.slots, 4));
    for slot in &flat.slots {
        end = beneath_end(slot, end);
    }
    end
}

/// Where all that is beneath a field ends, if it is appended at `from`.
#[cycle(end)]
pub fn beneath_end(slot: &Slot, from: usize) -> usize
    requires { IsTrue (is_writable_slot slot.now) }
    ensures { result ≡ capped (from + length ((part_of slot.now).beneath from)) }
{
    match slot {
        Slot::Absent => from,
        Slot::Scalar { .. } => from,
        Slot::Struct { .. } => from,
        Slot::Text(text) => block_end(from, 4, 0, 4 + text.len() + 1),
        Slot::Structs { align, bytes, .. } => {
            block_end(from, vector_align(*align), 4, 4 + bytes.len())
        }
        Slot::Table(flat) => table_end(flat, from),
        Slot::Tables(flats) => {
            let mut end = offsets_end(flats.len(), from);
            for flat in flats {
                end = table_end(flat, end);
            }
            end
        }
    }
}

/// Where all that is beneath fields ends, if it is appended at `from`.
pub fn all_end(slots: &[Slot], from: usize) -> usize
    requires { All (λ s. IsTrue (is_writable_slot s)) slots.now }
    ensures { result ≡ capped (from + length (all_beneath (map part_of slots.now) from)) }
{
    let mut end = from;
    for slot in slots {
        end = beneath_end(slot, end);
    }
    end
}

/// Where all ends that is beneath the field before this one, if there was one. So what is beneath a table's last field isn't measured
/// for it.
pub fn behind_field(before: Option<&Slot>, from: usize) -> usize
    requires { IfSome before (λ s. IsTrue (is_writable_slot s.now)) }
    ensures { result ≡ capped (behind_field (option_map (λ s. s.now) before.entry) from) }
{
    match before {
        None => from,
        Some(slot) => beneath_end(slot, from),
    }
}

/// Where the table before this one ends with all beneath it, if there was one.
pub fn behind_table(before: Option<&Flat>, from: usize) -> usize
    requires { IfSome before (λ f. IsTrue (is_writable f.now)) }
    ensures { result ≡ capped (behind_table (option_map (λ f. f.now) before.entry) from) }
{
    match before {
        None => from,
        Some(flat) => table_end(flat, from),
    }
}

/// The place of a table that is appended at `from`.
pub fn place_of(flat: &Flat, from: usize) -> usize
    requires { IsTrue (is_writable flat.now) }
    ensures place { result ≡ capped ((layout flat.now).place from) }
    ensures after { from ≤ result }
    ensures small { result ≤ from + 200 }
{
    let head = 4 + 2 * flat.slots.len();
    block_end(from, 8, head, head)
}

/// Where the offsets of a vector of so many tables end, if it is appended at `from`.
pub fn offsets_end(count: usize, from: usize) -> usize
    ensures { result ≡ capped (from + gap_to 4 (from + 4) + 4 + 4 * count) }
{
    block_end(from, 4, 4, count.saturating_mul(4).saturating_add(4))
}
