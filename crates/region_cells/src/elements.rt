//! The elements of a chunk.

ghost use Rattle.std.specs.Prelude.{◌≡◌, ◌≤◌, ◌<◌, ◌++◌, ◌^◌, ℕ, ℤ, pos, length, drop, IsTrue};
ghost use Rattle.byteorder.specs.Endian.{big_number, little_number, big_bytes, little_bytes};
ghost use Rattle.zarr_meta.specs.Kinds.{size_of, is_in_range};
ghost use Rattle.region_cells.specs.Numbers.{bits_in, values_of, number_of_bits, number_of, bits_of_number, bytes_of};

use byteorder::{BigEndian, ByteOrder, LittleEndian};
use zarr_meta::IntKind;

/// How an element stands in a chunk: its type, and whether its most significant byte is the first.
#[derive(Clone, Copy, Debug)]
pub struct Element {
    /// The type.
    pub kind: IntKind,
    /// Whether the most significant byte is the first.
    pub big: bool,
}

/// The bits of an element whose most significant byte is the first.
fn big_bits(kind: IntKind, bytes: &[u8]) -> u64
    requires { size_of kind ≤ length bytes.now }
    ensures { result ≡ big_number (size_of kind) bytes.now }
{
    match kind {
        IntKind::Int8 | IntKind::Uint8 => u64::from(bytes[0]),
        IntKind::Int16 | IntKind::Uint16 => u64::from(BigEndian::read_u16(bytes)),
        IntKind::Int32 | IntKind::Uint32 => u64::from(BigEndian::read_u32(bytes)),
        IntKind::Int64 | IntKind::Uint64 => BigEndian::read_u64(bytes),
    }
}

/// The bits of an element whose least significant byte is the first.
fn little_bits(kind: IntKind, bytes: &[u8]) -> u64
    requires { size_of kind ≤ length bytes.now }
    ensures { result ≡ little_number (size_of kind) bytes.now }
{
    match kind {
        IntKind::Int8 | IntKind::Uint8 => u64::from(bytes[0]),
        IntKind::Int16 | IntKind::Uint16 => u64::from(LittleEndian::read_u16(bytes)),
        IntKind::Int32 | IntKind::Uint32 => u64::from(LittleEndian::read_u32(bytes)),
        IntKind::Int64 | IntKind::Uint64 => LittleEndian::read_u64(bytes),
    }
}

/// How many values the bits of an element have.
fn values_of(kind: IntKind) -> i128
    ensures { result ≡ pos (values_of kind) }
{
    match kind {
        IntKind::Int8 | IntKind::Uint8 => 0x100,
        IntKind::Int16 | IntKind::Uint16 => 0x1_0000,
        IntKind::Int32 | IntKind::Uint32 => 0x1_0000_0000,
        IntKind::Int64 | IntKind::Uint64 => 0x1_0000_0000_0000_0000,
    }
}

/// Bits as a number of the type.
fn number_of_bits(kind: IntKind, bits: u64) -> i128
    ensures { result ≡ number_of_bits kind bits }
{
    let number = i128::from(bits);
    if number <= kind.greatest() {
        number
    } else {
        number - values_of(kind)
    }
}

/// The bits of a number of the type.
fn bits_of_number(kind: IntKind, number: i128) -> u64
    requires { IsTrue (is_in_range kind number) }
    ensures value { result ≡ bits_of_number kind number }
    ensures few { result < values_of kind }
{
    if number >= 0 {
        number as u64
    } else {
        (number + values_of(kind)) as u64
    }
}

/// Writes the bits of an element with the most significant byte first.
fn write_big(kind: IntKind, bits: u64, bytes: &mut [u8])
    requires room { size_of kind ≤ length bytes.old }
    requires few { bits < values_of kind }
    ensures { bytes.new ≡ big_bytes (size_of kind) bits ++ drop (size_of kind) bytes.old }
{
    match kind {
        IntKind::Int8 | IntKind::Uint8 => bytes[0] = bits as u8,
        IntKind::Int16 | IntKind::Uint16 => BigEndian::write_u16(bytes, bits as u16),
        IntKind::Int32 | IntKind::Uint32 => BigEndian::write_u32(bytes, bits as u32),
        IntKind::Int64 | IntKind::Uint64 => BigEndian::write_u64(bytes, bits),
    }
}

/// Writes the bits of an element with the least significant byte first.
fn write_little(kind: IntKind, bits: u64, bytes: &mut [u8])
    requires room { size_of kind ≤ length bytes.old }
    requires few { bits < values_of kind }
    ensures { bytes.new ≡ little_bytes (size_of kind) bits ++ drop (size_of kind) bytes.old }
{
    match kind {
        IntKind::Int8 | IntKind::Uint8 => bytes[0] = bits as u8,
        IntKind::Int16 | IntKind::Uint16 => LittleEndian::write_u16(bytes, bits as u16),
        IntKind::Int32 | IntKind::Uint32 => LittleEndian::write_u32(bytes, bits as u32),
        IntKind::Int64 | IntKind::Uint64 => LittleEndian::write_u64(bytes, bits),
    }
}

impl Element {
    /// The number that the bytes begin with.
    pub fn read(self, bytes: &[u8]) -> i128
        requires { size_of self.kind ≤ length bytes.now }
        ensures { result ≡ number_of self.kind self.big bytes.now }
    {
        let bits = if self.big {
            big_bits(self.kind, bytes)
        } else {
            little_bits(self.kind, bytes)
        };
        number_of_bits(self.kind, bits)
    }

    /// Writes a number in place of the first bytes.
    pub fn write(self, number: i128, bytes: &mut [u8])
        requires room { size_of self.kind ≤ length bytes.old }
        requires range { IsTrue (is_in_range self.kind number) }
        ensures { bytes.new ≡ bytes_of self.kind self.big number ++ drop (size_of self.kind)
            bytes.old }
    {
        let bits = bits_of_number(self.kind, number);
        if self.big {
            write_big(self.kind, bits, bytes);
        } else {
            write_little(self.kind, bits, bytes);
        }
    }
}
