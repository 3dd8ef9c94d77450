//! Where bytes come from and where they go.

ghost use Rattle.std.specs.Prelude.{◌≡◌, ◌<◌, ◌≤◌, length, MatchResult};
ghost use Rattle.ice_base.specs.Ends.{InputAt, OutputAt, raised, ReadsOnce, WritesOnce, IsInput, IsInputFault, WroteWhole, WroteLess};

use crate::Bytes;
use std::alloc::Global;

/// A read or a write failed, and was counted as a fault.
#[derive(Clone, Copy, Debug, PartialEq, Eq)]
pub struct Failed;

/// Where bytes come from.
pub trait Source {
    // What is left, where it is told, and the faults so far.
    ghost at: { Self → InputAt };

    /// Writes the next bytes of the input to the front of `into` and says how many they are: 0 only
    /// at the end of the input. A failure takes nothing and is counted.
    fn read(&mut self, into: &mut [u8]) -> Result<usize, Failed>
        requires { 0 < length into.old }
        ensures { ReadsOnce (at self.old) (at self.new) into.new result };
}

/// Where bytes go.
pub trait Sink {
    // What was written, where it is told, and the faults so far.
    ghost at: { Self → OutputAt };

    /// Appends the first bytes of `from`, at least one, and says how many. A failure appends nothing
    /// and is counted.
    fn write(&mut self, from: &[u8]) -> Result<usize, Failed>
        requires { 0 < length from.now }
        ensures { WritesOnce (at self.old) (at self.new) from.now result };
}

/// A count of faults with one more. At its end it stands still.
pub(crate) fn one_more(count: u64) -> u64
    ensures { result ≡ raised count }
{
    count.saturating_add(1)
}

/// Why an input wasn't read.
#[derive(Clone, Copy, Debug, Drop, PartialEq, Eq)]
pub enum InputFault {
    /// A read failed.
    Fault,
    /// There was no memory for it.
    NoMemory,
}

/// The most bytes that are asked of a source at once.
const PIECE: usize = 4096;

/// The whole input, or its first `most` bytes where it has more. No byte past them is read. What was
/// read before a fault is lost.
pub fn read_input<S: Source>(
    alloc: Global,
    source: &mut S,
    most: usize,
) -> Result<Bytes, InputFault>
    ensures { MatchResult result
        (IsInput most (S.at source.old) (S.at source.new))
        (IsInputFault most (S.at source.old) (S.at source.new)) }
{
    let mut buffer = [0u8; PIECE];
    let mut bytes = Bytes::new(alloc);
    while bytes.len() < most {
        let room = (most - bytes.len()).min(PIECE);
        let Ok(count) = source.read(&mut buffer[..room]) else {
            return Err(InputFault::Fault);
        };
        if count == 0 {
            break;
        }
        if bytes.extend(&buffer[..count]).is_err() {
            return Err(InputFault::NoMemory);
        }
    }
    Ok(bytes)
}

/// Writes all these bytes, in as many writes as it takes. After a failure the first of them are
/// written, and not all.
pub fn write_whole<K: Sink>(sink: &mut K, bytes: &[u8]) -> Result<(), Failed>
    ensures { MatchResult result
        (λ _. WroteWhole (K.at sink.old) (K.at sink.new) bytes.now)
        (λ _. WroteLess (K.at sink.old) (K.at sink.new) bytes.now) }
{
    let mut at = 0;
    while at < bytes.len() {
        at += sink.write(&bytes[at..])?;
    }
    Ok(())
}
