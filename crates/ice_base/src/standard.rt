//! The machine's standard input and output. They tell no bytes.

ghost use Rattle.std.specs.Prelude.{◌≡◌, None};

use crate::ends::one_more;
use crate::{Failed, Sink, Source};
use std::io::Read;

/// Standard input. What the machine gives is trusted: no contract speaks of its bytes.
#[derive(Drop)]
pub struct StdSource<R: Input + Drop> {
    reader: R::Reader,
    rt: R,
    /// The reads that failed.
    pub faults: u64,
}

impl<R: Input + Drop> StdSource<R> {
    /// Standard input, with no fault so far.
    pub fn new(rt: R) -> StdSource<R>
        ensures { result.faults ≡ 0 }
    {
        StdSource {
            reader: rt.reader(),
            rt,
            faults: 0,
        }
    }
}

impl<R: Input + Drop> Source for StdSource<R> {
    ghost at = { λ s. record { left = None; faults = s.faults } };

    fn read(&mut self, into: &mut [u8]) -> Result<usize, Failed> {
        match self.reader.read(into) {
            Ok(count) => Ok(count),
            Err(_) => {
                self.faults = one_more(self.faults);
                Err(Failed)
            }
        }
    }
}

/// Standard output. What the machine does with the bytes is trusted: no contract speaks of them.
#[derive(Drop)]
pub struct StdSink<R: Print + Drop> {
    rt: R,
    /// The writes that failed, or took nothing.
    pub faults: u64,
}

impl<R: Print + Drop> StdSink<R> {
    /// Standard output, with no fault so far.
    pub fn new(rt: R) -> StdSink<R>
        ensures { result.faults ≡ 0 }
    {
        StdSink { rt, faults: 0 }
    }
}

impl<R: Print + Drop> Sink for StdSink<R> {
    ghost at = { λ s. record { written = None; faults = s.faults } };

    /// A standard output that takes nothing counts as a fault.
    fn write(&mut self, from: &[u8]) -> Result<usize, Failed> {
        match self.rt.write_some(from) {
            Ok(count) if count > 0 => Ok(count),
            _ => {
                self.faults = one_more(self.faults);
                Err(Failed)
            }
        }
    }
}
