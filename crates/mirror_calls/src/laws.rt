//! Laws of mirrors, as the contracts of functions that do nothing.

ghost use Rattle.mirror_calls.specs.Laws.{MirrorLaw, MirroredTreesLaw};

use held_manifest::laws::objects_law;
use repo_objects::{ref_law, snapshot_law};

/// Exact mirror. Whatever others do in either store: each operation of a mirror is polite, and one that it may make next, by what it did
/// and was told; so at each moment each ref that it puts names a snapshot that is copied with all before it and all that these name. And
/// what it tells is so: of each ref that it tells, and, where it ends well, of each ref of the source's listings; how many objects it put;
/// or why it was refused.
pub fn mirror_law()
    ensures { MirrorLaw }
{
    snapshot_law();
    ref_law();
    objects_law();
}

/// Mirrored trees. Whatever others do, where nothing is put again in the source, nor by others in the target: each ref that is put in the
/// target names a snapshot that the source's named, and that has the same tree in both stores.
pub fn mirrored_trees_law()
    ensures { MirroredTreesLaw }
{
    snapshot_law();
    ref_law();
    objects_law();
}
