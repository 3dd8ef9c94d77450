//! Why the bytes of an object aren't what its key asks for.

use flat_tables::FileFault;
use ice_ids::{Id8, Id12};
use ref_file::RefFault;
use std::alloc::{AllocError, AllocFailed};
use zarr_meta::MetaFault;

/// Why the bytes of an object aren't what its key asks for.
#[derive(Debug, Drop)]
pub enum Bad {
    /// The file has this fault.
    File(FileFault),
    /// The bytes are no reference.
    Ref(RefFault),
    /// The file tells another id than its key's: this one.
    WrongId(Id12),
    /// A node of the snapshot, by its number, has a text that is no metadata, or that of another kind of node than its row
    /// says (`NodeType`).
    Node {
        /// The node's number in its snapshot.
        at: usize,
        /// What is wrong with its text.
        fault: MetaFault,
    },
    /// The log doesn't tell what its commit did to this node: the node is gone, or a part of its metadata has changed that stays
    /// as it is.
    Unlisted(Id8),
    /// The bytes of a chunk aren't as many as a chunk of its array has, or its part runs past the end of the object.
    Chunk {
        /// How many a chunk has.
        want: u64,
        /// How many there are.
        got: u64,
    },
}

/// Why an object isn't read.
#[derive(Debug, Drop)]
pub enum Unread {
    /// Its bytes aren't what its key asks for.
    Bad(Bad),
    /// Memory ran out.
    NoMemory,
}

impl From<AllocError> for Unread {
    ghost use Rattle.std.specs.Prelude.{◌≡◌};
    ghost use Rattle.repo_objects.specs.declared.bad_objects.Unread.TheVariants.{NoMemory};

    ghost from_gives = { λ _ why. why ≡ NoMemory };

    fn from(_error: AllocError) -> Unread {
        Unread::NoMemory
    }
}

impl<T: Drop> From<AllocFailed<T>> for Unread {
    ghost use Rattle.std.specs.Prelude.{◌≡◌};
    ghost use Rattle.repo_objects.specs.declared.bad_objects.Unread.TheVariants.{NoMemory};

    ghost from_gives = { λ _ why. why ≡ NoMemory };

    fn from(_error: AllocFailed<T>) -> Unread {
        Unread::NoMemory
    }
}
