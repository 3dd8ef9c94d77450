//! Bytes that were kept under names.

use std::alloc::{AllocError, Global};

/// Bytes under names, for later cases.
#[derive(Drop)]
pub struct Kept {
    rows: Vec<(String, Vec<u8>)>,
}

impl Kept {
    /// Nothing.
    pub fn new(alloc: Global) -> Kept {
        Kept {
            rows: Vec::new(alloc),
        }
    }

    /// Keeps bytes under a name; the last ones of a name count.
    pub fn keep(&mut self, alloc: Global, name: &str, bytes: Vec<u8>) -> Result<(), AllocError> {
        let name = String::from_str(alloc, name)?;
        self.rows.push((name, bytes))?;
        Ok(())
    }

    /// The bytes under a name.
    pub fn find(&self, name: &str) -> Option<&[u8]> {
        let mut found = None;
        for (key, bytes) in self.rows.as_slice() {
            if key.as_str() == name {
                found = Some(bytes.as_slice());
            }
        }
        found
    }
}
