//! The rows of eight tables, and the remainder behind bytes by them.

ghost use Rattle.std.specs.Prelude.{◌≡◌, ◌≤◌, ◌<◌, ℕ, Some, IfOk, length, drop, slice_get, bit_xor};
ghost use Rattle.crc_sum.specs.Crc.{moved, moved_by, remainder_behind, row_at, AreRows};

use std::alloc::{AllocError, Global};

/// The remainder moves down by a bit.
fn moved(polynomial: u32, remainder: u32) -> u32
    ensures { result ≡ moved polynomial remainder }
{
    if remainder % 2 == 1 {
        (remainder / 2) ^ polynomial
    } else {
        remainder / 2
    }
}

/// The remainder moves down by eight bits.
#[tactic(auto, unfolding(crate::specs::Crc::moved_by))]
fn moved_by_byte(polynomial: u32, remainder: u32) -> u32
    ensures { result ≡ moved_by 8 polynomial remainder }
{
    let half = moved(
        polynomial,
        moved(polynomial, moved(polynomial, moved(polynomial, remainder))),
    );
    moved(
        polynomial,
        moved(polynomial, moved(polynomial, moved(polynomial, half))),
    )
}

/// The row of a place: in the first table that of its number, in each other the row of the table before, moved down by a
/// byte more.
fn next_row(polynomial: u32, rows: &[u32], place: u32) -> u32
    requires { length rows.now ≡ place }
    ensures { ((k : ℕ) → k < place → slice_get rows.now k ≡ Some (row_at polynomial k)) → result ≡ row_at polynomial place }
{
    if place < 256 {
        moved_by_byte(polynomial, place)
    } else {
        moved_by_byte(polynomial, rows[place as usize - 256])
    }
}

/// The rows of a polynomial.
pub fn rows_for(alloc: Global, polynomial: u32) -> Result<Vec<u32>, AllocError>
    ensures { IfOk result (λ rows. AreRows polynomial rows.items) }
{
    let mut rows = Vec::new(alloc);
    for place in 0..2048u32 {
        let row = next_row(polynomial, &rows, place);
        rows.push(row)?;
    }
    Ok(rows)
}

/// The remainder behind eight bytes more: each byte, and with it the remainder's byte that lies at its place, comes down
/// through the table that has its distance from the last.
#[inline]
fn behind_eight(rows: &[u32], remainder: u32, bytes: &[u8]) -> u32
    requires sized { length rows.now ≡ 2048 }
    requires eight { 8 ≤ length bytes.now }
    ensures { (polynomial : ℕ) → AreRows polynomial rows.now
        → remainder_behind polynomial result (drop 8 bytes.now) ≡ remainder_behind polynomial remainder bytes.now }
{
    let first = (remainder % 256) as usize ^ bytes[0] as usize;
    let second = (remainder / 256 % 256) as usize ^ bytes[1] as usize;
    let third = (remainder / 65536 % 256) as usize ^ bytes[2] as usize;
    let fourth = (remainder / 16_777_216) as usize ^ bytes[3] as usize;
    rows[1792 + first]
        ^ rows[1536 + second]
        ^ rows[1280 + third]
        ^ rows[1024 + fourth]
        ^ rows[768 + bytes[4] as usize]
        ^ rows[512 + bytes[5] as usize]
        ^ rows[256 + bytes[6] as usize]
        ^ rows[bytes[7] as usize]
}

/// The remainder behind a byte more.
#[inline]
fn behind_one(rows: &[u32], remainder: u32, byte: u8) -> u32
    requires { length rows.now ≡ 2048 }
    ensures { (polynomial : ℕ) → AreRows polynomial rows.now → result ≡ moved_by 8 polynomial (bit_xor remainder byte) }
{
    let row = ((remainder ^ u32::from(byte)) % 256) as usize;
    (remainder / 256) ^ rows[row]
}

/// The remainder behind bytes, by the tables of its polynomial.
pub fn remainder_behind(rows: &[u32], remainder: u32, bytes: &[u8]) -> u32
    requires { length rows.now ≡ 2048 }
    ensures { (polynomial : ℕ) → AreRows polynomial rows.now
        → result ≡ remainder_behind polynomial remainder bytes.now }
{
    let mut remainder = remainder;
    let mut rest = bytes;
    while rest.len() >= 8 {
        remainder = behind_eight(rows, remainder, rest);
        rest = &rest[8..];
    }
    for byte in rest {
        remainder = behind_one(rows, remainder, *byte);
    }
    remainder
}
