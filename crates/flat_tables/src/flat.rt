/// A table to be written, its fields by slot.
#[cycle(flat)]
#[derive(Debug, Drop)]
pub struct Flat {
    /// At most 64.
    pub slots: Vec<Slot>,
}

/// A field of a table to be written.
#[cycle(flat)]
#[derive(Debug, Drop)]
pub enum Slot {
    /// No field.
    Absent,
    /// A number of 1, 2, 4 or 8 bytes, aligned to its size.
    Scalar { size: u8, value: u64 },
    /// A struct of at most 255 bytes that stands in the table, with an alignment of 1, 4 or 8.
    Struct { align: u8, bytes: Vec<u8> },
    /// A string.
    Text(String),
    /// A vector of elements of `size` bytes, which stand in `bytes` one after another, with an alignment of 1, 4 or 8.
    Structs { align: u8, size: u8, bytes: Vec<u8> },
    /// A table.
    Table(Flat),
    /// A vector of tables.
    Tables(Vec<Flat>),
}
