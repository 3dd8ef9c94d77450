//! Why a directory can't be used.

ghost use Rattle.std.specs.Prelude.{◌≡◌};
ghost use Rattle.dir_store.specs.declared.faults.OpenFault.TheVariants as Opening;
ghost use Rattle.dir_store.specs.Faults.{open_fault};
ghost use Rattle.dir_store.specs.Texts.{open_text};

use folder::{FileFault, Trouble};
use std::fmt;

/// Why a directory can't be used.
#[derive(Clone, Copy, Debug, PartialEq, Eq)]
pub enum OpenFault {
    /// Nothing is there.
    Missing,
    /// It isn't a directory.
    NotDirectory,
    /// Another program has claimed it.
    Taken,
    /// A call on its files failed, or the system has no locks of files.
    Failed(Trouble),
    /// The system gives no random bytes.
    NoRandom,
    /// There was no memory.
    NoMemory,
}

impl fmt::Display for OpenFault {
    ghost output = { open_text };

    fn fmt<W: fmt::Write>(&self, f: &mut fmt::Formatter<W>) -> fmt::Result {
        match self {
            OpenFault::Missing => f.write_str("nothing is there"),
            OpenFault::NotDirectory => f.write_str("it isn't a directory"),
            OpenFault::Taken => f.write_str("another program uses it"),
            OpenFault::Failed(trouble) => write!(f, "it can't be listed or written: {trouble}"),
            OpenFault::NoRandom => f.write_str("there are no random bytes"),
            OpenFault::NoMemory => f.write_str("there is no memory"),
        }
    }
}

impl From<Trouble> for OpenFault {
    ghost from_gives = { λ trouble fault. fault ≡ Opening.Failed trouble };

    fn from(trouble: Trouble) -> OpenFault {
        OpenFault::Failed(trouble)
    }
}

impl From<FileFault> for OpenFault {
    ghost from_gives = { λ fault told. told ≡ open_fault fault };

    fn from(fault: FileFault) -> OpenFault {
        match fault {
            FileFault::Failed(trouble) => OpenFault::Failed(trouble),
            FileFault::NoMemory => OpenFault::NoMemory,
        }
    }
}
