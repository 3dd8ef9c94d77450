ghost use Rattle.std.specs.Prelude.{◌≡◌, option_map};
ghost use Rattle.held_manifest.specs.Places.{place_seen};
ghost use Rattle.held_manifest.specs.LookUp.{within, entry_seen, look_up, chunk_place};

use crate::held::HeldManifest;
use crate::places::PlaceView;
use ice_ids::Id8;
use ice_items::Items;
use zarr_path::Index;

/// Whether extents contain an index: they are as many as its numbers, and each number is from the first of its extent on
/// and below the second.
pub fn is_within(extents: &[(u32, u32)], index: &[u32]) -> bool
    ensures { result ≡ within extents.now index.now }
{
    if extents.len() != index.len() {
        return false;
    }
    for k in 0..index.len() {
        if index[k] < extents[k].0 {
            return false;
        }
        if extents[k].1 <= index[k] {
            return false;
        }
    }
    true
}

/// Where a manifest of a node's list has the chunk at an index, if its extents there contain the index.
fn seek_seen<'a>(
    extents: &Items<(u32, u32)>,
    held: &'a HeldManifest,
    node: Id8,
    index: &Index,
) -> Option<PlaceView<'a>>
    ensures { option_map place_seen result ≡ entry_seen node index.now (extents.now, held.now) }
{
    if is_within(extents.as_slice(), index.parts()) {
        held.seek(node, index)
    } else {
        None
    }
}

/// Where the manifests of a node's list, each with its extents there, have the chunk at an index: the first one has it
/// whose extents contain the index and which has an entry for the node and the index.
pub fn look_up<'a>(
    manifests: &'a [(Items<(u32, u32)>, HeldManifest)],
    node: Id8,
    index: &Index,
) -> Option<PlaceView<'a>>
    ensures { option_map place_seen result ≡ look_up node index.now manifests.now }
{
    for (extents, held) in manifests {
        if let Some(place) = seek_seen(extents, held, node, index) {
            return Some(place);
        }
    }
    None
}

/// Where the manifests of an array's list have the chunk at an index; an index of another rank than the array's has
/// nothing.
pub fn chunk_place<'a>(
    manifests: &'a [(Items<(u32, u32)>, HeldManifest)],
    rank: usize,
    node: Id8,
    index: &Index,
) -> Option<PlaceView<'a>>
    ensures { option_map place_seen result ≡ chunk_place rank node index.now manifests.now }
{
    if index.parts().len() == rank {
        look_up(manifests, node, index)
    } else {
        None
    }
}
