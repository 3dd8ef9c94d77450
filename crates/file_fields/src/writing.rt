ghost use Rattle.std.specs.Prelude.{◌≡◌, ◌<◌, ◌^◌, IsTrue, IfOk, OnOk, All};
ghost use Rattle.flat_tables.specs.Layout.{scalar};
ghost use Rattle.flat_tables.specs.Trees.{part_of, is_writable_slot};
ghost use Rattle.ice_ids.specs.Text as ids;
ghost use Rattle.file_fields.specs.Fields.{id8_part, id12_part, index_part, bytes_part, IsId8, IsId12, IsIndex};

use flat_tables::Slot;
use ice_ids::{Id8, Id12};
use std::alloc::{AllocError, Global};
use zarr_path::Index;

/// Bytes are below 256. It does nothing: the contract tells what the type says.
fn bytes_fit(bytes: &[u8])
    ensures { All (λ byte. byte < 256) bytes.now }
{}

/// The bytes of a node id.
pub fn id8_bytes(id: &Id8) -> [u8; 8]
    ensures bytes { result ≡ id.now.0 }
    ensures sized { IsId8 id.now }
    ensures id { ids.IsId8 id.now }
{
    bytes_fit(&id.0);
    id.0
}

/// The bytes of an object id.
pub fn id12_bytes(id: &Id12) -> [u8; 12]
    ensures bytes { result ≡ id.now.0 }
    ensures sized { IsId12 id.now }
    ensures id { ids.IsId12 id.now }
{
    bytes_fit(&id.0);
    id.0
}

/// The field of a node id.
pub fn id8_slot(alloc: Global, id: &Id8) -> Result<Slot, AllocError>
    ensures part { IfOk result (λ s. part_of s ≡ id8_part id.now) }
    ensures writable { IfOk result (λ s. IsTrue (is_writable_slot s)) }
    ensures sized { IsId8 id.now }
    ensures id { ids.IsId8 id.now }
{
    Ok(Slot::Struct {
        align: 1,
        bytes: Vec::from_slice(alloc, &id8_bytes(id))?,
    })
}

/// The field of an object id.
pub fn id12_slot(alloc: Global, id: &Id12) -> Result<Slot, AllocError>
    ensures part { IfOk result (λ s. part_of s ≡ id12_part id.now) }
    ensures writable { IfOk result (λ s. IsTrue (is_writable_slot s)) }
    ensures sized { IsId12 id.now }
    ensures id { ids.IsId12 id.now }
{
    Ok(Slot::Struct {
        align: 1,
        bytes: Vec::from_slice(alloc, &id12_bytes(id))?,
    })
}

/// The field of bytes.
pub fn bytes_slot(alloc: Global, bytes: &[u8]) -> Result<Slot, AllocError>
    ensures part { IfOk result (λ s. part_of s ≡ bytes_part bytes.now) }
    ensures writable { IfOk result (λ s. IsTrue (is_writable_slot s)) }
{
    Ok(Slot::Structs {
        align: 1,
        size: 1,
        bytes: Vec::from_slice(alloc, bytes)?,
    })
}

/// The field of a number of 64 bits.
pub fn u64_slot(value: u64) -> Slot
    ensures part { part_of result ≡ scalar 8 value }
    ensures writable { IsTrue (is_writable_slot result) }
    ensures small { value < 2 ^ 64 }
{
    Slot::Scalar { size: 8, value }
}

/// The field of an index.
pub fn index_slot(alloc: Global, index: &Index) -> Result<Slot, AllocError>
    ensures part { IfOk result (λ s. part_of s ≡ index_part index.now) }
    ensures writable { IfOk result (λ s. IsTrue (is_writable_slot s)) }
    ensures sized { OnOk result (IsIndex index.now) }
{
    let mut bytes: Vec<u8> = Vec::new(alloc);
    for number in index.parts() {
        bytes.extend_from_slice(&number.to_le_bytes())?;
    }
    Ok(Slot::Structs {
        align: 4,
        size: 4,
        bytes,
    })
}
