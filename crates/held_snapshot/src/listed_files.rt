ghost use Rattle.std.specs.Prelude.{◌≡◌};
ghost use Rattle.snapshot_file.specs.Snapshots.{all_listed, first_unlisted};

use crate::files::HeldFiles;
use crate::nodes::HeldNodes;
use crate::rows::HeldNode;

/// Whether all manifests that a node names are among these. Each is looked up by halves.
fn all_listed(files: &HeldFiles, node: &HeldNode) -> bool
    ensures { result ≡ all_listed files.now node.now }
{
    let manifests = node.manifests();
    for i in 0..manifests.len() {
        if !files.has(&manifests.at(i).id()) {
            return false;
        }
    }
    true
}

/// The number of the first node that names a manifest which isn't among these.
pub(crate) fn first_unlisted(files: &HeldFiles, nodes: &HeldNodes) -> Option<usize>
    ensures { result ≡ first_unlisted files.now nodes.now }
{
    for at in 0..nodes.len() {
        if !all_listed(files, &nodes.at(at)) {
            return Some(at);
        }
    }
    None
}
