//! Lists of what changes touch.

use ice_ids::Id8;
use ice_items::Items;
use zarr_path::Index;

/// A list of ids of nodes.
pub type Ids = Items<Id8>;

/// An array, by its node's id, and indices of chunks in it.
#[derive(Debug, Drop)]
pub struct ArrayChunks {
    /// The array.
    pub node: Id8,
    /// The chunks.
    pub chunks: Items<Index>,
}

/// What changes touch, by the ids of nodes, each list in the strict order of the ids' bytes. (Icechunk specification version
/// 1, transaction logs.)
#[derive(Debug, Drop)]
pub struct Touched {
    /// Groups that were added.
    pub new_groups: Ids,
    /// Arrays that were added.
    pub new_arrays: Ids,
    /// Groups that were deleted.
    pub deleted_groups: Ids,
    /// Arrays that were deleted.
    pub deleted_arrays: Ids,
    /// Arrays whose metadata was changed.
    pub updated_arrays: Ids,
    /// Groups whose metadata was changed.
    pub updated_groups: Ids,
    /// Arrays in which chunks were written or deleted, and the indices of those, in strict order.
    pub updated_chunks: Items<ArrayChunks>,
}
