//! A base under changes, walked row by row.

ghost use Rattle.std.specs.Prelude.{◌≡◌, ◌∷◌, ◌+◌, [], nat_le, length, MatchOption, IfSome, IsTrue};
ghost use Rattle.std.specs.FinMap as map;
ghost use Rattle.zarr_path.specs.Paths.{is_path};
ghost use Rattle.zarr_tree.specs.Rows.{node_found, row_found, IsInOrder};
ghost use Rattle.zarr_tree.specs.Changes.{patched};
ghost use Rattle.zarr_tree.specs.Held.{meta_in, nodes_over};
ghost use Rattle.zarr_changes.specs.Rows.{own_rows};

use crate::added::AddedRows;
use crate::set::ChangeSet;
use std::cmp::Ordering;
use std::marker::Model;
use zarr_tree::{Found, TreeLike};

/// A path and the node that stands there.
pub type Row<'a> = (&'a str, Found<'a>);

/// The first row of a base from row number `from` on that isn't gone, and the number of the row behind it.
fn first_own<'a, B: TreeLike>(set: &ChangeSet, base: &'a B, from: usize) -> Option<(usize, Row<'a>)>
    ensures row { MatchOption result
        (own_rows set.now (B.nodes base.now) from ≡ [])
        (λ first. own_rows set.now (B.nodes base.now) from ≡ (first.1.0.now, patched (meta_in set.now.metas) (node_found first.1.1)) ∷ own_rows set.now (B.nodes base.now) first.0) }
    ensures path { IfSome result (λ first. IsTrue (is_path first.1.0.now)) }
{
    for at in from..base.len() {
        let row = base.row(at);
        if !set.is_gone(base, row.0) {
            return Some((at + 1, row));
        }
    }
    None
}

/// The rows of a base that stay under changes. Contracts see those that are left, with their other texts.
#[derive(Drop)]
struct OwnRows<'a, B: TreeLike> {
    set: &'a ChangeSet,
    base: &'a B,
    at: usize,
}

impl<'a, B: TreeLike> Model for OwnRows<'a, B> {
    ghost use Rattle.zarr_tree.specs.Held.{Rows};
    ghost use Rattle.zarr_changes.specs.Rows.{own_rows};

    ghost Value = { Rows };

    ghost view = { λ a. own_rows a.set.now (B.nodes a.base.now) a.at };
}

impl<'a, B: TreeLike> OwnRows<'a, B> {
    /// The next row, if any are left.
    fn next(&mut self) -> Option<Row<'a>>
        ensures row { MatchOption result (self.old ≡ [])
            (λ row. self.old ≡ row_found row ∷ self.new) }
        ensures path { IfSome result (λ row. IsTrue (is_path row.0.now)) }
        ensures order { IsInOrder self.old }
    {
        let (at, (path, found)) = first_own(self.set, self.base, self.at)?;
        self.at = at;
        Some((path, self.set.patched(found)))
    }
}

/// The nodes of a base under changes in the order of the bytes of their paths, as they are walked. Contracts see the rows
/// that are left.
#[derive(Drop)]
pub struct Overlay<'a, B: TreeLike> {
    added: AddedRows<'a>,
    next_added: Option<Row<'a>>,
    own: OwnRows<'a, B>,
    next_own: Option<Row<'a>>,
}

impl<'a, B: TreeLike> Model for Overlay<'a, B> {
    ghost use Rattle.std.specs.Prelude.{IsTrue};
    ghost use Rattle.std.specs.FinMap as map;
    ghost use Rattle.zarr_tree.specs.Held.{Rows};
    ghost use Rattle.zarr_changes.specs.Rows.{overlay, rows_from, is_named};
    ghost use Rattle.zarr_tree.specs.Rows.{IsInOrder};

    ghost Value = { Rows };

    ghost view = { λ a. map.entries (overlay (rows_from a.next_added a.added) (rows_from a.next_own a.own)) };

    ghost invariant = { λ a. IsInOrder (rows_from a.next_added a.added) × IsInOrder (rows_from a.next_own a.own) × IsTrue (is_named a.next_added) × IsTrue (is_named a.next_own) };
}

impl<'a, B: TreeLike> Overlay<'a, B> {
    /// The next path and the node that stands there, if any are left. It takes no memory.
    pub fn next(&mut self) -> Option<Row<'a>>
        ensures row { MatchOption result (self.old ≡ [])
            (λ row. self.old ≡ row_found row ∷ self.new) }
        ensures path { IfSome result (λ row. IsTrue (is_path row.0.now)) }
    {
        let Some(row) = self.next_added else {
            let own = self.next_own?;
            self.next_own = self.own.next();
            return Some(own);
        };
        let Some(own) = self.next_own else {
            self.next_added = self.added.next();
            return Some(row);
        };
        match row.0.cmp(own.0) {
            Ordering::Less => {
                self.next_added = self.added.next();
                Some(row)
            }
            Ordering::Equal => {
                self.next_added = self.added.next();
                self.next_own = self.own.next();
                Some(row)
            }
            Ordering::Greater => {
                self.next_own = self.own.next();
                Some(own)
            }
        }
    }

    /// Whether this many rows are left.
    pub fn reaches(mut self, count: usize) -> bool
        ensures { result ≡ nat_le count (length self.entry) }
    {
        for _ in 0..count {
            if self.next().is_none() {
                return false;
            }
        }
        true
    }
}

impl ChangeSet {
    /// The overlay's nodes, to be walked in the order of the bytes of their paths. It takes no memory.
    pub fn over<'a, B: TreeLike>(&'a self, base: &'a B) -> Overlay<'a, B>
        ensures { result ≡ map.entries (nodes_over self.now (B.nodes base.now)) }
    {
        let mut added = self.added.rows();
        let next_added = added.next();
        let mut own = OwnRows {
            set: self,
            base,
            at: 0,
        };
        let next_own = own.next();
        Overlay {
            added,
            next_added,
            own,
            next_own,
        }
    }
}
