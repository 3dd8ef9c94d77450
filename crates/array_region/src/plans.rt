//! What is read.

ghost use Rattle.std.specs.Prelude.{◌≡◌, true};
ghost use Rattle.array_region.specs.Planning.{box_count, is_box_of};

use ice_ids::Id8;
use region_cells::{count_within, is_in_shape};
use store_api::{Refusal, RegionFault};
use zarr_meta::ArrayView;
use zarr_path::Path;

/// A box of cells of the array at a path.
#[derive(Debug, Drop)]
pub struct Region {
    /// Where the array is.
    pub path: Path,
    /// Where the box begins along each dimension.
    pub from: Vec<u64>,
    /// Where it ends; that isn't in it.
    pub to: Vec<u64>,
}

/// A box, its array, and how many cells it has.
#[derive(Debug, Drop)]
pub(crate) struct Plan {
    pub(crate) node: Id8,
    pub(crate) array: ArrayView,
    pub(crate) region: Region,
    pub(crate) count: usize,
    ghost within: { is_box_of array region.from.items region.to.items count ≡ true },
}

/// How many cells a box of an array has.
pub(crate) fn counted(array: &ArrayView, region: &Region) -> Result<usize, Refusal>
    ensures { result ≡ box_count array.now region.now.from.items region.now.to.items }
{
    let from = region.from.as_slice();
    let to = region.to.as_slice();
    if !is_in_shape(array.shape.as_slice(), from, to) {
        return Err(Refusal::Region(RegionFault::OutOfShape));
    }
    match count_within(from, to) {
        Some(count) => Ok(count),
        None => Err(Refusal::Region(RegionFault::Large)),
    }
}
