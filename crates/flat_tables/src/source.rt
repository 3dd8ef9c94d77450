//! Tables that are never held all at once.

ghost use Rattle.std.specs.Prelude.{◌≡◌, ◌+◌, ◌*◌, ◌<◌, ◌≤◌, ◌++◌, List, ℕ, length, map, drop, slice_get, Some, IfOk, OnOk, IsTrue, All};
ghost use Rattle.flat_tables.specs.Layout.{Block, blocks};
ghost use Rattle.flat_tables.specs.Frames.{places};
ghost use Rattle.flat_tables.specs.Trees.{layout, is_writable, capped};

use crate::ends::{place_of, table_end};
use crate::flat::Flat;
use crate::writing::put_table;
use std::alloc::{AllocError, Global};

/// Tables that are made one at a time, where they are written.
pub trait TableSource {
    /// Their layouts.
    ghost layouts: { Self → List Block };

    /// What is known of table number so-and-so once it was made.
    ghost tells: { Self → ℕ → Type 0 };

    /// How many they are.
    fn len(&self) -> usize
        ensures { result ≡ length (layouts self.now) };

    /// Table number `at`, which can be written.
    fn table(&self, alloc: Global, at: usize) -> Result<Flat, AllocError>
        requires { at < length (layouts self.now) }
        ensures layout { IfOk result (λ flat. slice_get (layouts self.now) at
            ≡ Some (layout flat)) }
        ensures writable { IfOk result (λ flat. IsTrue (is_writable flat)) }
        ensures told { OnOk result (tells self.now at) };
}

/// Where tables stand that are appended one after another, and where the last ends.
#[derive(Drop)]
pub struct Places {
    /// Where each stands.
    pub each: Vec<usize>,
    /// Where the last ends.
    pub end: usize,
}

/// Where these tables stand, if they are appended from `from` on.
pub fn places_of<S: TableSource>(
    alloc: Global,
    tables: &S,
    from: usize,
) -> Result<Places, AllocError>
    ensures places { IfOk result (λ p. p.end ≤ 268435417
        → p.each.items ≡ places (S.layouts tables.now) from) }
    ensures end { IfOk result
        (λ p. p.end ≡ capped (from + length (blocks (S.layouts tables.now) from))) }
    ensures within { IfOk result (λ p. All (λ place. (from ≤ place) × (place ≤ p.end))
        p.each.items) }
    ensures told { OnOk result ((at : ℕ) → at < length (S.layouts tables.now)
        → S.tells tables.now at) }
{
    let mut each = Vec::with_capacity(alloc, tables.len())?;
    let mut end = from;
    for at in 0..tables.len() {
        let table = tables.table(alloc, at)?;
        each.push(place_of(&table, end))?;
        end = table_end(&table, end);
    }
    Ok(Places { each, end })
}

/// These tables one after another.
pub fn put_each<S: TableSource>(
    alloc: Global,
    out: &mut Vec<u8>,
    tables: &S,
) -> Result<(), AllocError>
    requires { length out.old.items + length (blocks (S.layouts tables.now) (length out.old.items))
        ≤ 268435417 }
    ensures { OnOk result (out.new.items ≡ out.old.items ++ blocks (S.layouts tables.now)
        (length out.old.items)) }
{
    for at in 0..tables.len() {
        let table = tables.table(alloc, at)?;
        put_table(out, &table)?;
    }
    Ok(())
}
