//! A payload whose root table has a vector of tables that are never held all at once.

ghost use Rattle.std.specs.Prelude.{◌≡◌, ◌+◌, ◌*◌, ◌^◌, ◌<◌, ◌≤◌, ◌++◌, List, [], length, map, IfOk, OnOk, ℕ, IsTrue, All};
ghost use Rattle.flat_tables.specs.Layout.{Block, tables_block, fields_end, entries, fields, all_beneath, table_head, tables_head, table_place, table_block, payload};
ghost use Rattle.flat_tables.specs.Frames.{framed, places, offsets_to, frame_end, vector_begin, first_table, AreEnds};
ghost use Rattle.flat_tables.specs.Trees.{part_of, is_writable_slot, capped};
ghost use Rattle.flat_tables.specs.File.{Writes};

use crate::ends::{all_end, gap_to, offsets_end, slots_end};
use crate::fault::WriteFault;
use crate::flat::Slot;
use crate::header::{FILE_LIMIT, HEADER};
use crate::source::{Places, TableSource, places_of, put_each};
use crate::writing::{push_u16, push_u32, push_zeros, put_all, put_entries, put_fields};
use std::alloc::{AllocError, Global};

/// Where the fields of a table end that has a vector between these, from its place.
fn frame_end(before: &[Slot], after: &[Slot]) -> usize
    requires before { All (λ s. IsTrue (is_writable_slot s)) before.now }
    requires after { All (λ s. IsTrue (is_writable_slot s)) after.now }
    requires few { length before.now + 1 + length after.now ≤ 64 }
    ensures end { result ≡ fields_end (framed (map part_of before.now) [] (map part_of after.now))
        4 }
    ensures small { result < 20000 }
{
    let end = slots_end(before, 4);
    slots_end(after, end + gap_to(4, end) + 4)
}

/// The vtable's entries of such a table.
fn put_frame_entries(out: &mut Vec<u8>, before: &[Slot], after: &[Slot]) -> Result<(), AllocError>
    requires before { All (λ s. IsTrue (is_writable_slot s)) before.now }
    requires after { All (λ s. IsTrue (is_writable_slot s)) after.now }
    requires few { length before.now + 1 + length after.now ≤ 64 }
    ensures { OnOk result
        (out.new.items ≡ out.old.items ++ entries
        (framed (map part_of before.now) [] (map part_of after.now)) 4) }
{
    let end = slots_end(before, 4);
    let at = end + gap_to(4, end);
    put_entries(out, before, 4)?;
    push_u16(out, at)?;
    put_entries(out, after, at + 4)
}

/// The fields of such a table, with all beneath those before appended at `below`, and beneath those after at `next`.
fn put_frame_fields(
    out: &mut Vec<u8>,
    before: &[Slot],
    after: &[Slot],
    place: usize,
    below: usize,
    next: usize,
) -> Result<(), AllocError>
    requires before { All (λ s. IsTrue (is_writable_slot s)) before.now }
    requires after { All (λ s. IsTrue (is_writable_slot s)) after.now }
    requires few { length before.now + 1 + length after.now ≤ 64 }
    requires behind { place + fields_end (framed (map part_of before.now) [] (map part_of after.now)) 4
        ≤ below }
    requires vector { below + length (all_beneath (map part_of before.now) below) ≤ next }
    requires fits { next + length (all_beneath (map part_of after.now) next) ≤ 268435417 }
    ensures { OnOk result ((bs : List Block)
        → let vector = below + length (all_beneath (map part_of before.now) below) in next
        ≡ vector + length ((tables_block bs).bytes vector) → out.new.items ≡ out.old.items ++ fields
        (framed (map part_of before.now) bs (map part_of after.now)) 4 place below) }
{
    let end = slots_end(before, 4);
    let at = end + gap_to(4, end);
    let vector = all_end(before, below);
    put_fields(out, before, 4, place, below)?;
    push_zeros(out, at - end)?;
    push_u32(out, vector + gap_to(4, vector + 4) - (place + at))?;
    put_fields(out, after, at + 4, place, next)
}

/// All of such a table but what is beneath it. What is beneath the fields after the vector is appended at `next`.
fn put_frame_head(
    out: &mut Vec<u8>,
    before: &[Slot],
    after: &[Slot],
    next: usize,
) -> Result<(), AllocError>
    requires before { All (λ s. IsTrue (is_writable_slot s)) before.now }
    requires after { All (λ s. IsTrue (is_writable_slot s)) after.now }
    requires few { length before.now + 1 + length after.now ≤ 64 }
    requires vector { vector_begin (map part_of before.now) (map part_of after.now)
        (length out.old.items) ≤ next }
    requires fits { next + length (all_beneath (map part_of after.now) next) ≤ 268435417 }
    ensures { OnOk result ((bs : List Block) → let vector = vector_begin (map part_of before.now)
        (map part_of after.now) (length out.old.items) in next ≡ vector + length
        ((tables_block bs).bytes vector) → out.new.items ≡ out.old.items ++ table_head
        (framed (map part_of before.now) bs (map part_of after.now)) (length out.old.items)) }
{
    let from = out.len();
    let head = 4 + 2 * (before.len() + 1 + after.len());
    let gap = gap_to(8, from + head);
    let end = frame_end(before, after);
    push_zeros(out, gap)?;
    push_u16(out, head)?;
    push_u16(out, end)?;
    put_frame_entries(out, before, after)?;
    push_u32(out, head)?;
    let place = from + gap + head;
    put_frame_fields(out, before, after, place, place + end, next)
}

/// The offsets from `first` on to tables at these places.
fn put_offsets_to(out: &mut Vec<u8>, places: &[usize], first: usize) -> Result<(), AllocError>
    requires { All (λ place. (first + 4 * length places.now ≤ place) × (place ≤ 268435417))
        places.now }
    ensures { OnOk result (out.new.items ≡ out.old.items ++ offsets_to places.now first) }
{
    let mut at = first;
    for place in places {
        push_u32(out, *place - at)?;
        at += 4;
    }
    Ok(())
}

/// The number and the offsets of a vector of tables, which stand at these places.
fn put_vector_head<S: TableSource>(
    out: &mut Vec<u8>,
    tables: &S,
    each: &[usize],
) -> Result<(), AllocError>
    requires places { each.now ≡ places (S.layouts tables.now)
        (first_table (length (S.layouts tables.now)) (length out.old.items)) }
    requires within { All
        (λ place. (first_table (length (S.layouts tables.now)) (length out.old.items) ≤ place)
        × (place ≤ 268435417)) each.now }
    requires fits { first_table (length (S.layouts tables.now)) (length out.old.items) ≤ 268435417 }
    ensures { OnOk result (out.new.items ≡ out.old.items ++ tables_head (S.layouts tables.now)
        (length out.old.items)) }
{
    let gap = gap_to(4, out.len() + 4);
    push_zeros(out, gap)?;
    push_u32(out, tables.len())?;
    let first = out.len();
    put_offsets_to(out, each, first)
}

/// A vector of tables, which stand at these places.
fn put_vector_of<S: TableSource>(
    alloc: Global,
    out: &mut Vec<u8>,
    tables: &S,
    each: &[usize],
) -> Result<(), AllocError>
    requires places { each.now ≡ places (S.layouts tables.now)
        (first_table (length (S.layouts tables.now)) (length out.old.items)) }
    requires within { All
        (λ place. (first_table (length (S.layouts tables.now)) (length out.old.items) ≤ place)
        × (place ≤ 268435417)) each.now }
    requires fits { length out.old.items + length
        ((tables_block (S.layouts tables.now)).bytes (length out.old.items)) ≤ 268435417 }
    ensures { OnOk result
        (out.new.items ≡ out.old.items ++ (tables_block (S.layouts tables.now)).bytes
        (length out.old.items)) }
{
    put_vector_head(out, tables, each)?;
    put_each(alloc, out, tables)
}

/// All of a table with a vector between these fields, with all beneath it.
fn put_frame<S: TableSource>(
    alloc: Global,
    out: &mut Vec<u8>,
    before: &[Slot],
    tables: &S,
    after: &[Slot],
    places: &Places,
) -> Result<(), AllocError>
    requires before { All (λ s. IsTrue (is_writable_slot s)) before.now }
    requires after { All (λ s. IsTrue (is_writable_slot s)) after.now }
    requires few { length before.now + 1 + length after.now ≤ 64 }
    requires ends { AreEnds (map part_of before.now) (S.layouts tables.now) (map part_of after.now)
        (length out.old.items) places.now.each.items places.now.end }
    requires fits { length out.old.items + length
        ((table_block (framed (map part_of before.now) (S.layouts tables.now)
        (map part_of after.now))).bytes (length out.old.items)) ≤ 268435417 }
    ensures { OnOk result
        (out.new.items
        ≡ out.old.items
        ++ (table_block (framed (map part_of before.now) (S.layouts tables.now)
        (map part_of after.now))).bytes (length out.old.items)) }
{
    put_frame_head(out, before, after, places.end)?;
    put_all(out, before)?;
    put_vector_of(alloc, out, tables, places.each.as_slice())?;
    put_all(out, after)
}

/// The place of the root table of a payload, if it has so many slots.
fn root_place(count: usize) -> usize
    requires { count ≤ 64 }
    ensures place { result ≡ table_place count 4 }
    ensures small { result < 200 }
{
    let head = 4 + 2 * count;
    4 + gap_to(8, 4 + head) + head
}

/// Where the tables of a payload stand, and where it ends.
#[derive(Drop)]
struct FrameEnds {
    places: Places,
    whole: usize,
}

/// Where the tables stand of a payload whose root table has their vector between these fields, and where it ends.
fn frame_ends<S: TableSource>(
    alloc: Global,
    before: &[Slot],
    tables: &S,
    after: &[Slot],
) -> Result<FrameEnds, AllocError>
    requires before { All (λ s. IsTrue (is_writable_slot s)) before.now }
    requires after { All (λ s. IsTrue (is_writable_slot s)) after.now }
    requires few { length before.now + 1 + length after.now ≤ 64 }
    ensures whole { IfOk result
        (λ ends. ends.whole
        ≡ capped
        (4 + length
        ((table_block (framed (map part_of before.now) (S.layouts tables.now)
        (map part_of after.now))).bytes 4))) }
    ensures ends { IfOk result (λ ends. ends.whole ≤ 268435417
        → AreEnds (map part_of before.now) (S.layouts tables.now) (map part_of after.now) 4
        ends.places.each.items ends.places.end) }
    ensures told { OnOk result ((at : ℕ) → at < length (S.layouts tables.now)
        → S.tells tables.now at) }
{
    let place = root_place(before.len() + 1 + after.len());
    let vector = all_end(before, place + frame_end(before, after));
    let places = places_of(alloc, tables, offsets_end(tables.len(), vector))?;
    let whole = all_end(after, places.end);
    Ok(FrameEnds { places, whole })
}

/// Writes the payload of a table as [`flat_write`](crate::flat_write) does, where one of its fields is a vector of tables
/// that are made one at a time: twice each, first to find where they stand, and then to write them. `before` and `after`
/// are the fields before the vector and those behind it, at most 63.
#[tactic(auto, unfolding(crate::specs::Layout::payload))]
pub fn framed_write<S: TableSource>(
    alloc: Global,
    before: &[Slot],
    tables: &S,
    after: &[Slot],
) -> Result<Vec<u8>, WriteFault>
    requires before { All (λ s. IsTrue (is_writable_slot s)) before.now }
    requires after { All (λ s. IsTrue (is_writable_slot s)) after.now }
    requires few { length before.now + 1 + length after.now ≤ 64 }
    ensures written { let bytes = payload
        (table_block (framed (map part_of before.now) (S.layouts tables.now)
        (map part_of after.now))) in Writes result bytes (39 + length bytes) }
    ensures told { OnOk result ((at : ℕ) → at < length (S.layouts tables.now)
        → S.tells tables.now at) }
{
    let ends = frame_ends(alloc, before, tables, after)?;
    let len = ends.whole.saturating_add(HEADER);
    if len > FILE_LIMIT {
        return Err(WriteFault::TooLarge(len));
    }
    let mut out = Vec::with_capacity(alloc, len)?;
    push_u32(&mut out, root_place(before.len() + 1 + after.len()))?;
    put_frame(alloc, &mut out, before, tables, after, &ends.places)?;
    Ok(out)
}
