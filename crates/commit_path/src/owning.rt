//! The law of what a client puts itself.

ghost use Rattle.commit_path.specs.Own.{OwningLaw};

use changed_snapshot::{frozen_law, nodes_law, own_law, proper_law, ranked_law, tree_law};
use manifest_index::{extents_law, merged_law, new_list_law};
use repo_objects::{initial_law, log_law, manifest_law, ref_law, snapshot_law};

/// Whatever others do, each object that a commit puts is put where its client put none before, if its source draws no id twice; and
/// where its branch is put over, whatever its snapshot holds is held by its base, or was put by the client itself. What the client
/// owns with a session it owns behind edits, and behind a commit that was lost.
pub fn owning_law()
    ensures { OwningLaw }
{
    snapshot_law();
    log_law();
    ref_law();
    initial_law();
    proper_law();
    nodes_law();
    tree_law();
    frozen_law();
    ranked_law();
    own_law();
    manifest_law();
    merged_law();
    new_list_law();
    extents_law();
}
