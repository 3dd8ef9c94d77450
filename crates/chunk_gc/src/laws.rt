//! Laws of collections, as the contracts of functions that do nothing.

ghost use Rattle.chunk_gc.specs.Gone.{GoneLaw};
ghost use Rattle.chunk_gc.specs.Laws.{CollectLaw};

use held_manifest::laws::objects_law;
use repo_objects::{manifest_law, snapshot_law};

/// Exact collection. Whatever others do, each operation of a collection is polite, and one that it may make by what it was told; so
/// it removes nothing but what is doomed: objects that it listed, after all that its own gets of refs and leases reach was marked,
/// as older than the cutoff and not marked; and that in the order of the listings. Where it ends well, each of these was removed, or absent
/// at its removal. Where it is refused, the last of its own operations has the cause. Its report counts those removals that were
/// told as done, whatever its end.
pub fn collect_law()
    ensures { CollectLaw }
{
    snapshot_law();
    manifest_law();
    objects_law();
}

/// What became of it: in a legal journal in which a client made what a collection may, and that ends as one that ended well, each
/// key of what is doomed was removed, by whomever, behind the client's own listing that has it.
pub fn gone_law()
    ensures { GoneLaw }
{}
