//! Indices of chunks.

ghost use Rattle.std.specs.Prelude.{◌≡◌, IfOk, IsTrue};
ghost use Rattle.zarr_path.specs.Indices.{is_index};

use std::alloc::{AllocError, Global};
use std::cmp::Ordering;
use std::marker::Model;

/// The place of a chunk in an array's grid: a number for each dimension. Contracts see it as the list of its numbers.
#[derive(Debug, Drop)]
pub struct Index {
    numbers: Vec<u32>,
}

impl Model for Index {
    ghost use Rattle.std.specs.Prelude.{ℕ, List, IsTrue};
    ghost use Rattle.zarr_path.specs.Indices.{is_index};

    ghost Value = { List ℕ };

    ghost view = { λ i. i.numbers.items };

    ghost invariant = { λ i. IsTrue (is_index i.numbers.items) };
}

impl Index {
    /// The index of these numbers, one for each dimension. It takes no memory.
    pub fn from_parts(numbers: Vec<u32>) -> Index
        ensures { result ≡ numbers.items }
    {
        numbers_fit(numbers.as_slice());
        Index { numbers }
    }

    /// The numbers, one for each dimension.
    pub fn parts(&self) -> &[u32]
        ensures value { result.now ≡ self.now }
        ensures index { IsTrue (is_index self.now) }
    {
        self.numbers.as_slice()
    }

    /// The numbers, given back without memory.
    pub fn into_parts(self) -> Vec<u32>
        ensures { result.items ≡ self }
    {
        self.numbers
    }

    /// The same index once more.
    pub fn copy(&self, alloc: Global) -> Result<Index, AllocError>
        ensures { IfOk result (λ i. i ≡ self.now) }
    {
        Ok(Index {
            numbers: Vec::from_slice(alloc, self.numbers.as_slice())?,
        })
    }
}

/// Numbers of 32 bits are those of an index; this is said for contracts alone.
fn numbers_fit(numbers: &[u32])
    ensures { IsTrue (is_index numbers.now) }
{}

impl PartialEq for Index {
    ghost use Rattle.std.specs.Prelude.{nat_eq};
    ghost use Rattle.std.specs.Cmp.{partial_equiv_from_equiv};
    ghost use Rattle.std.specs.Cmp.Lexicographic.{pointwise};
    ghost use Rattle.std.proofs.lemmas.Cmp.{nat_list_eq_equiv};

    ghost eq = { pointwise nat_eq };

    ghost laws = { partial_equiv_from_equiv nat_list_eq_equiv };

    fn eq(&self, other: &Index) -> bool {
        self.parts() == other.parts()
    }
}

impl Eq for Index {
    ghost use Rattle.std.proofs.lemmas.Cmp.{nat_list_eq_equiv};

    ghost laws = { nat_list_eq_equiv };
}

impl PartialOrd for Index {
    ghost use Rattle.zarr_path.specs.Indices.{index_cmp};
    ghost use Rattle.std.specs.Ordering.{as_partial_cmp};
    ghost use Rattle.std.specs.Cmp.{partial_order_from_own_ties};
    ghost use Rattle.std.specs.Cmp.Rules.{comparing};
    ghost use Rattle.std.proofs.Common.{rules};

    ghost partial_cmp = { as_partial_cmp index_cmp };

    ghost laws = { partial_order_from_own_ties (Prim.search (comparing, rules)) (Prim.search (comparing, rules)) };

    fn partial_cmp(&self, other: &Index) -> Option<Ordering> {
        Some(self.cmp(other))
    }
}

impl Ord for Index {
    ghost use Rattle.zarr_path.specs.Indices.{index_cmp};
    ghost use Rattle.std.specs.Cmp.Rules.{comparing};
    ghost use Rattle.std.proofs.Common.{rules};

    ghost cmp = { index_cmp };

    ghost total = { Prim.search (comparing, rules) };

    ghost matches_partial_cmp = { Prim.search (comparing, rules) };

    ghost matches_eq = { Prim.search (comparing, rules) };

    fn cmp(&self, other: &Index) -> Ordering {
        self.parts().cmp(other.parts())
    }
}
