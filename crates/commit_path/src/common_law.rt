//! The law of what a client's snapshots have in common.

ghost use Rattle.commit_path.specs.Single.{SingleLaw};

use changed_snapshot::{frozen_law, nodes_law, own_law, proper_law, ranked_law, tree_law};
use manifest_index::{extents_law, merged_law, new_list_law};
use repo_objects::{initial_law, log_law, manifest_law, ref_law, snapshot_law};

/// Whatever others do, an opening puts no snapshot; and a client that put such snapshots alone as a session's are, with the
/// nodes that it added and dropped, puts no others by a commit of the session.
pub fn single_law()
    ensures { SingleLaw }
{
    snapshot_law();
    log_law();
    ref_law();
    initial_law();
    proper_law();
    nodes_law();
    tree_law();
    frozen_law();
    ranked_law();
    own_law();
    manifest_law();
    merged_law();
    new_list_law();
    extents_law();
}
