//! What is printed, kept until there is enough of it.

ghost use Rattle.std.specs.Prelude.{◌≡◌, ◌++◌, None, OnOk};
ghost use Rattle.ice_base.specs.Ends.{raised};

use ice_base::{Failed, Sink};
use std::alloc::{AllocError, Global};

/// What is to be printed next. A report is written to it as to any sink.
#[derive(Drop)]
pub struct Page {
    bytes: Vec<u8>,
    /// How often a report found no memory here.
    pub faults: u64,
}

impl Page {
    /// An empty page.
    pub fn new(alloc: Global) -> Page {
        Page {
            bytes: Vec::new(alloc),
            faults: 0,
        }
    }

    /// What stands on it.
    pub fn as_slice(&self) -> &[u8] {
        self.bytes.as_slice()
    }

    /// Leaves it empty.
    pub fn clear(&mut self) {
        self.bytes.clear();
    }

    /// Appends bytes.
    pub fn add_bytes(&mut self, bytes: &[u8]) -> Result<(), AllocError>
        ensures bytes { OnOk result (self.new.bytes.items ≡ self.old.bytes.items ++ bytes.now) }
        ensures faults { self.new.faults ≡ self.old.faults }
    {
        self.bytes.extend_from_slice(bytes)
    }

    /// Appends a text.
    pub fn add(&mut self, text: &str) -> Result<(), AllocError> {
        self.add_bytes(text.as_bytes())
    }

    /// Appends a number's digits.
    pub fn add_number(&mut self, alloc: Global, number: u64) -> Result<(), AllocError> {
        let digits = format!(in alloc; "{number}")?;
        self.add(digits.as_str())
    }

    /// Appends a text and a number behind it.
    pub fn add_counted(
        &mut self,
        alloc: Global,
        text: &str,
        number: u64,
    ) -> Result<(), AllocError> {
        self.add(text)?;
        self.add_number(alloc, number)
    }
}

/// A count of faults with one more. At its end it stands still.
fn one_more(count: u64) -> u64
    ensures { result ≡ raised count }
{
    count.saturating_add(1)
}

impl Sink for Page {
    ghost at = { λ s. record { written = None; faults = s.faults } };

    fn write(&mut self, from: &[u8]) -> Result<usize, Failed> {
        match self.add_bytes(from) {
            Ok(()) => Ok(from.len()),
            Err(_) => {
                self.faults = one_more(self.faults);
                Err(Failed)
            }
        }
    }
}
