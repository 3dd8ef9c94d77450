ghost use Rattle.std.specs.Prelude.{◌≡◌};
ghost use Rattle.flat_tables.specs.declared.fault.FileFault.TheVariants as faults;
ghost use Rattle.flat_tables.specs.declared.fault.WriteFault.TheVariants as refusals;

use crate::header::{HeaderFault, Kind};
use std::alloc::{AllocError, AllocFailed};

/// What is wrong with a payload, the first that is met.
#[derive(Clone, Copy, Debug, PartialEq, Eq)]
pub enum FlatFault {
    /// What should stand from this place on would not lie in the payload or the table.
    Outside { at: usize },
    /// The bytes from this place on are not UTF-8.
    NotText { at: usize },
    /// A required field is absent.
    Missing { slot: u16 },
}

/// What is wrong with a file, the first that is met. Each `at` is an element's number in its own vector.
#[derive(Clone, Copy, Debug, PartialEq, Eq)]
pub enum FileFault {
    /// The file, or one of its vectors, is longer than allowed.
    Limit,
    /// The header is not one that is read.
    Header(HeaderFault),
    /// The file is of this other kind.
    Kind(Kind),
    /// The payload is not one of flat tables, or lacks a field.
    Flat(FlatFault),
    /// A node's path is not a path.
    Path { at: usize },
    /// A node is neither an array nor a group.
    NodeKind { at: usize },
    /// A chunk lies outside of the store.
    VirtualRef { at: usize },
    /// A chunk has both bytes of its own and an object, or neither.
    RefKind { at: usize },
    /// A property's name or value is not one that a property may have.
    Property { at: usize },
    /// An element of the vector in this slot does not stand after the one before.
    Order { slot: u16, at: usize },
    /// A node names a manifest that is not among the snapshot's manifest files.
    Unlisted { at: usize },
    /// Memory ran out.
    NoMemory,
}

/// Why a file was not written.
#[derive(Clone, Copy, Debug, PartialEq, Eq)]
pub enum WriteFault {
    /// It would have this many bytes, which is more than a file may have. A number past the machine's word is told as
    /// the greatest `usize`.
    TooLarge(usize),
    /// Memory ran out.
    NoMemory,
}

impl From<FlatFault> for FileFault {
    ghost from_gives = { λ f e. e ≡ faults.Flat f };

    fn from(fault: FlatFault) -> FileFault {
        FileFault::Flat(fault)
    }
}

impl From<HeaderFault> for FileFault {
    ghost from_gives = { λ f e. e ≡ faults.Header f };

    fn from(fault: HeaderFault) -> FileFault {
        FileFault::Header(fault)
    }
}

impl From<AllocError> for FileFault {
    ghost from_gives = { λ _ e. e ≡ faults.NoMemory };

    fn from(_error: AllocError) -> FileFault {
        FileFault::NoMemory
    }
}

impl<T: Drop> From<AllocFailed<T>> for FileFault {
    ghost from_gives = { λ _ e. e ≡ faults.NoMemory };

    fn from(_error: AllocFailed<T>) -> FileFault {
        FileFault::NoMemory
    }
}

impl From<AllocError> for WriteFault {
    ghost from_gives = { λ _ e. e ≡ refusals.NoMemory };

    fn from(_error: AllocError) -> WriteFault {
        WriteFault::NoMemory
    }
}

impl<T: Drop> From<AllocFailed<T>> for WriteFault {
    ghost from_gives = { λ _ e. e ≡ refusals.NoMemory };

    fn from(_error: AllocFailed<T>) -> WriteFault {
        WriteFault::NoMemory
    }
}
