use ice_ids::Id12;
use zarr_tree::Touched;

/// A transaction log.
#[derive(Debug, Drop)]
pub struct TxnFile {
    /// The log's own id, which is that of its snapshot.
    pub id: Id12,
    /// What its commit changed, by ids of nodes.
    pub lists: Touched,
}
