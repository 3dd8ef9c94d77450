//! Why a tree doesn't take an edit.

use std::alloc::AllocError;

/// The most nodes that a tree may have.
pub const MOST_NODES: usize = 65536;

/// The parts of a node's metadata that stay as they are while the node is there.
#[derive(Clone, Copy, Debug, PartialEq, Eq)]
pub enum Frozen {
    /// Whether it is a group or an array.
    NodeType,
    /// How many dimensions the array has.
    Rank,
    /// The type of its elements.
    DataType,
    /// The lengths of its chunks.
    ChunkGrid,
    /// The order of the bytes of an element, where an element has more than one.
    Codecs,
}

/// Why a tree doesn't take an edit: the first that holds in this order.
#[derive(Clone, Copy, Debug, PartialEq, Eq)]
pub enum EditFault {
    /// A node stands at the path.
    NodeExists,
    /// The path isn't `/`, and no group stands at its parent.
    NoParent,
    /// The tree has 65,536 nodes.
    Full,
    /// No node stands at the path.
    NoNode,
    /// The new metadata differs in a part that stays: the first one.
    FrozenField(Frozen),
    /// The node at the path is no array.
    NotArray,
    /// The array has no chunk of this index.
    OutOfGrid,
    /// The bytes aren't as many as a chunk of the array has.
    ChunkLength {
        /// How many a chunk has.
        want: u64,
        /// How many there are.
        got: u64,
    },
    /// Memory ran out.
    NoMemory,
}

impl From<AllocError> for EditFault {
    ghost use Rattle.std.specs.Prelude.{◌≡◌};
    ghost use Rattle.zarr_tree.specs.declared.edit.EditFault.TheVariants.{NoMemory};

    ghost from_gives = { λ _ fault. fault ≡ NoMemory };

    fn from(_error: AllocError) -> EditFault {
        EditFault::NoMemory
    }
}
