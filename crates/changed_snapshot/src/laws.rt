//! Laws of snapshots under changes: each function's clause is the law, and its body is empty.

ghost use Rattle.changed_snapshot.specs.Laws.{FineLaw, FrozenLaw, NodesLaw, OwnLaw, ProperLaw, RankedLaw, TreeLaw};

/// The nodes of the rows are the base's under the changes.
pub fn nodes_law()
    ensures { NodesLaw }
{}

/// Where the new lists are what the changes ask for, the tree of the rows is the base's tree under the changes.
pub fn tree_law()
    ensures { TreeLaw }
{}

/// Normal changes keep what stays of metadata.
pub fn frozen_law()
    ensures { FrozenLaw }
{}

/// The entries of normal changes have the ranks of their arrays.
pub fn ranked_law()
    ensures { RankedLaw }
{}

/// Under changes whose texts are metadata, each node can be written.
pub fn fine_law()
    ensures { FineLaw }
{}

/// Under such changes, and with new lists whose numbers have their widths, the snapshot can be written.
pub fn proper_law()
    ensures { ProperLaw }
{}

/// The rows name manifests that the base's rows name, and new ones.
pub fn own_law()
    ensures { OwnLaw }
{}
