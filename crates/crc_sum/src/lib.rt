//! Cyclic redundancy checks of 32 bits: the crc32c of RFC 3720 and the crc32 of RFC 1952, eight bytes at a step.
//!
//! A [`Table`] is that of one polynomial, and is made once. [`Table::check`] sums bytes that lie in memory; bytes that
//! come in pieces are summed by [`start`], [`Table::feed`] and [`finish`], whatever the pieces.
#![tactic(auto)]

mod rows;

ghost use Rattle.std.specs.Prelude.{◌≡◌, ◌++◌, ℕ, List, IfOk, bit_xor};
ghost use Rattle.crc_sum.specs.Crc.{remainder_behind, check_by, ones, gzip_polynomial, castagnoli_polynomial};

use rows::{remainder_behind, rows_for};
use std::alloc::{AllocError, Global};
use std::marker::Model;

/// The polynomial of gzip's crc32 (RFC 1952, section 8), its highest power in the lowest bit.
const GZIP: u32 = 0xEDB8_8320;

/// The polynomial of Castagnoli, of crc32c (RFC 3720, section 12.1), its highest power in the lowest bit.
const CASTAGNOLI: u32 = 0x82F6_3B78;

/// The tables of a polynomial. A clause sees the polynomial.
#[derive(Drop)]
pub struct Table {
    polynomial: u32,
    rows: Vec<u32>,
}

impl Model for Table {
    ghost use Rattle.std.specs.Prelude.{ℕ};
    ghost use Rattle.crc_sum.specs.Crc.{AreRows};

    ghost Value = { ℕ };

    ghost view = { λ t. t.polynomial };

    ghost invariant = { λ t. AreRows t.polynomial t.rows.items };
}

impl Table {
    /// The tables of a polynomial.
    fn of(alloc: Global, polynomial: u32) -> Result<Table, AllocError>
        ensures { IfOk result (λ t. t ≡ polynomial) }
    {
        let rows = rows_for(alloc, polynomial)?;
        Ok(Table { polynomial, rows })
    }

    /// The tables of crc32, as gzip has it (RFC 1952, section 8).
    pub fn gzip(alloc: Global) -> Result<Table, AllocError>
        ensures { IfOk result (λ t. t ≡ gzip_polynomial) }
    {
        Table::of(alloc, GZIP)
    }

    /// The tables of crc32c (RFC 3720, section 12.1).
    pub fn castagnoli(alloc: Global) -> Result<Table, AllocError>
        ensures { IfOk result (λ t. t ≡ castagnoli_polynomial) }
    {
        Table::of(alloc, CASTAGNOLI)
    }

    /// The check of bytes: their crc32 by [`Table::gzip`], their crc32c by [`Table::castagnoli`].
    pub fn check(&self, bytes: &[u8]) -> u32
        ensures { result ≡ check_by self.now bytes.now }
    {
        finish(self.feed(start(), bytes))
    }

    /// The remainder behind a piece more.
    pub fn feed(&self, remainder: u32, piece: &[u8]) -> u32
        ensures behind { result ≡ remainder_behind self.now remainder piece.now }
        // the remainder behind some bytes becomes that behind these and the piece
        ensures appended { (bytes : List ℕ) → remainder ≡ remainder_behind self.now ones bytes
            → result ≡ remainder_behind self.now ones (bytes ++ piece.now) }
    {
        remainder_behind(&self.rows, remainder, piece)
    }
}

/// The remainder before the first byte.
pub fn start() -> u32
    ensures { result ≡ ones }
{
    u32::MAX
}

/// The check of the bytes whose remainder this is.
pub fn finish(remainder: u32) -> u32
    ensures turned { result ≡ bit_xor ones remainder }
    ensures check { (polynomial : ℕ) (bytes : List ℕ)
        → remainder ≡ remainder_behind polynomial ones bytes → result ≡ check_by polynomial bytes }
{
    u32::MAX ^ remainder
}

#[cfg(test)]
mod tests {
    use super::*;
    use std::test::Fail;

    // from RFC 3720, B.4, and from the check values that catalogues give
    #[test]
    fn sums(rt: HostRuntime) -> Result<(), Fail> {
        let castagnoli = Table::castagnoli(rt.alloc())?;
        assert_eq!(rt; castagnoli.check(b"123456789"), 0xE306_9283);
        assert_eq!(rt; castagnoli.check(&[0; 32]), 0x8A91_36AA);
        assert_eq!(rt; castagnoli.check(&[255; 32]), 0x62A8_AB43);
        let gzip = Table::gzip(rt.alloc())?;
        assert_eq!(rt; gzip.check(b"123456789"), 0xCBF4_3926);
        let front = gzip.feed(start(), b"12345");
        assert_eq!(rt; finish(gzip.feed(front, b"6789")), 0xCBF4_3926);
        Ok(())
    }
}
