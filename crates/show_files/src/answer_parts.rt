//! Parts of answers.

ghost use Rattle.std.specs.Prelude.{◌≡◌, IfOk, string_bytes};
ghost use Rattle.hex.specs.Hex.{encode_lower};

use crate::words::NoAnswer;
use ice_base::Text;
use ice_ids::Id8;
use std::alloc::{AllocError, Global};
use std::fmt::Debug;
use zarr_path::Index;

/// What is told of a fault.
pub fn fault_told<F: Debug + Drop>(alloc: Global, fault: F) -> Result<String, NoAnswer> {
    Ok(format!(in alloc; "{fault:?}")?)
}

/// The hexadecimal digits of bytes.
pub fn digits(alloc: Global, bytes: &[u8]) -> Result<String, AllocError>
    ensures { IfOk result (λ text. string_bytes text ≡ encode_lower bytes.now) }
{
    hex::encode(alloc, bytes)
}

/// What is told of bytes that were read, and then written again.
pub fn again(alloc: Global, bytes: &[u8], written: &[u8]) -> Result<String, AllocError> {
    if written == bytes {
        return String::from_str(alloc, "the same bytes");
    }
    digits(alloc, written)
}

/// Appends bytes, a number each. The only error is want of memory, behind which some of them may stand there.
pub fn push_bytes(told: &mut String, bytes: &[u8]) -> Result<(), AllocError> {
    told.push_str(" bytes")?;
    for byte in bytes {
        write!(told, " {byte}")?;
    }
    Ok(())
}

/// Appends an index. The only error is want of memory, behind which a part of it may stand there.
pub fn push_index(told: &mut String, index: &Index) -> Result<(), AllocError> {
    told.push_str(" at")?;
    for number in index.parts() {
        write!(told, " {number}")?;
    }
    Ok(())
}

/// Appends a list of ids.
pub fn push_ids(told: &mut String, list: &str, ids: &[Id8]) -> Result<(), AllocError> {
    told.push_str(list)?;
    for id in ids {
        write!(told, " {id}")?;
    }
    Ok(())
}

/// Appends the names of dimensions.
pub fn push_names(told: &mut String, names: &[Option<Text>]) -> Result<(), AllocError> {
    told.push_str(" names")?;
    for name in names {
        match name {
            Some(name) => write!(told, " {:?}", name.as_str())?,
            None => told.push_str(" -")?,
        }
    }
    Ok(())
}
