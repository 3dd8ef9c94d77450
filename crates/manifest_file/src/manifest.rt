use ice_base::Bytes;
use ice_ids::{Id8, Id12};
use ice_items::Items;
use zarr_path::Index;

/// The greatest number of chunks in one manifest, over all its arrays. (Own.)
pub const REFS_LIMIT: usize = 4_194_304;

/// Where the bytes of a chunk are. (Icechunk specification version 1, "Manifests"; chunks outside of the store are not
/// read.)
#[derive(Debug, Drop)]
pub enum Place {
    /// In the manifest: these bytes.
    Inline(Bytes),
    /// In an object: so many bytes of it, from an offset on.
    Object {
        /// The object.
        id: Id12,
        /// The place of the chunk's first byte in it.
        offset: u64,
        /// The number of the chunk's bytes.
        length: u64,
    },
}

/// A chunk of an array, and where it is.
#[derive(Debug, Drop)]
pub struct ChunkRef {
    /// The chunk's place in the array's grid.
    pub index: Index,
    /// Where its bytes are.
    pub place: Place,
}

/// An array and its chunks. In a file these are in the strict order of their indices.
#[derive(Debug, Drop)]
pub struct ArrayRefs {
    /// The array, by its node's id.
    pub node: Id8,
    /// Its chunks.
    pub refs: Items<ChunkRef>,
}

/// The chunks of some arrays. In a file the arrays are in the strict order of their ids.
#[derive(Debug, Drop)]
pub struct ManifestFile {
    /// The manifest's own id.
    pub id: Id12,
    /// The arrays.
    pub arrays: Items<ArrayRefs>,
}
