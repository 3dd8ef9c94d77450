//! What a read of a chunk answers.

use ice_base::Bytes;

/// What a read of a chunk answers.
#[derive(Debug, Drop)]
pub enum Value {
    /// The chunk has these bytes.
    Bytes(Bytes),
    /// No chunk is held: it reads as the array's fill value.
    Fill,
}
