ghost use Rattle.std.specs.Prelude.{◌≡◌, ◌<◌, not, Bool, None, length, position, option_map, option_copied, IfOk};
ghost use Rattle.flat_tables.specs.Step.{Gives};
ghost use Rattle.flat_tables.specs.Places.{struct_of, text_of};
ghost use Rattle.flat_tables.specs.Rows.{Ascends, Reads, follows, flat, required};
ghost use Rattle.snapshot_file.specs.Snapshots.{node_key, file_key, nodes_in, nodes_of, files_in, files_of, is_listed, all_listed, first_unlisted, parent_of, rest_of, payload_of, snapshot_of};
ghost use Rattle.snapshot_file.specs.Layout.{IsWritable};

use crate::node_reading::node_at;
use crate::nodes::{ManifestRef, NodeRow};
use crate::numbers::info_of;
use crate::properties::Props;
use crate::property_reading::properties_of;
use crate::slots::{number_in, text_in, vector_in};
use crate::snapshot::{ManifestInfo, NODE_LIMIT, SnapshotFile};
use file_fields::{id12, id12_of, payload_in};
use flat_tables::{FileFault, Kind, Table, Vector};
use ice_base::Text;
use ice_ids::Id12;
use ice_items::Items;
use std::alloc::Global;

/// Whether a node may stand behind the last one.
pub fn node_follows(last: Option<&NodeRow>, node: &NodeRow) -> bool
    ensures { result ≡ follows (option_map node_key (option_copied last.entry))
        (node_key node.now) }
{
    match last {
        None => true,
        Some(last) => last.path.cmp(&node.path).is_lt(),
    }
}

/// Whether a manifest may stand behind the last one.
fn file_follows(last: Option<&ManifestInfo>, file: &ManifestInfo) -> bool
    ensures { result ≡ follows (option_map file_key (option_copied last.entry))
        (file_key file.now) }
{
    match last {
        None => true,
        Some(last) => last.id.cmp(&file.id).is_lt(),
    }
}

/// The nodes in a vector, which stand in order.
fn nodes_in(alloc: Global, vector: &Vector) -> Result<Items<NodeRow>, FileFault>
    requires { vector.now.size ≡ 4 }
    ensures { Reads (λ x. x) result (nodes_in vector.now) }
{
    let mut nodes: Vec<NodeRow> = Vec::new(alloc);
    for at in 0..vector.len() {
        let node = node_at(alloc, vector, at)?;
        if !node_follows(nodes.last(), &node) {
            drop(node);
            return Err(FileFault::Order { slot: 2, at });
        }
        nodes.push(node)?;
    }
    Ok(Items::from_vec(nodes))
}

/// The nodes of a snapshot.
#[tactic(auto, unfolding(crate::specs::Snapshots::nodes_of))]
fn nodes_of(alloc: Global, table: &Table) -> Result<Items<NodeRow>, FileFault>
    ensures { Reads (λ x. x) result (nodes_of table.now) }
{
    let vector = vector_in(table, 2, 4)?;
    if vector.len() > NODE_LIMIT {
        return Err(FileFault::Limit);
    }
    nodes_in(alloc, &vector)
}

/// The manifests in a vector, which stand in order.
fn files_in(alloc: Global, vector: &Vector) -> Result<Items<ManifestInfo>, FileFault>
    requires { vector.now.size ≡ 32 }
    ensures value { Reads (λ x. x) result (files_in vector.now) }
    ensures ascend { IfOk result (Ascends file_key None) }
{
    let mut files: Vec<ManifestInfo> = Vec::new(alloc);
    for at in 0..vector.len() {
        let file = info_of(vector.item(at));
        if !file_follows(files.last(), &file) {
            return Err(FileFault::Order { slot: 6, at });
        }
        files.push(file)?;
    }
    Ok(Items::from_vec(files))
}

/// The manifests of a snapshot, none where the slot is absent.
#[tactic(auto, unfolding(crate::specs::Snapshots::files_of))]
fn files_of(alloc: Global, table: &Table) -> Result<Items<ManifestInfo>, FileFault>
    ensures value { Reads (λ x. x) result (files_of table.now) }
    ensures ascend { IfOk result (Ascends file_key None) }
{
    match table.vector(6, 32)? {
        None => Ok(Items::from_vec(Vec::new(alloc))),
        Some(vector) => files_in(alloc, &vector),
    }
}

/// Whether a manifest is among the snapshot's, by halves.
fn is_listed(files: &[ManifestInfo], manifest: &ManifestRef) -> bool
    requires { Ascends file_key None files.now }
    ensures { result ≡ is_listed files.now manifest.now }
{
    files
        .binary_search_by_key(&manifest.id, |file| file.id)
        .is_ok()
}

/// Whether all manifests that a node names are among the snapshot's.
fn all_listed(files: &[ManifestInfo], node: &NodeRow) -> bool
    requires { Ascends file_key None files.now }
    ensures { result ≡ all_listed files.now node.now }
{
    let manifests = node.kind.manifests();
    manifests.iter().all(|manifest| is_listed(files, manifest))
}

/// The number of the first node that names a manifest which isn't among the snapshot's.
#[tactic(auto, unfolding(crate::specs::Snapshots::first_unlisted))]
pub fn first_unlisted(files: &[ManifestInfo], nodes: &[NodeRow]) -> Option<usize>
    requires { Ascends file_key None files.now }
    ensures { result ≡ first_unlisted files.now nodes.now }
{
    nodes.iter().position(|node| !all_listed(files, node))
}

/// The id of the snapshot that it followed, if there is one.
fn parent_of(table: &Table) -> Result<Option<Id12>, FileFault>
    ensures { Reads (λ x. x) result (parent_of table.now) }
{
    match table.bytes(1, 12)? {
        None => Ok(None),
        Some(bytes) => Ok(Some(id12(bytes))),
    }
}

/// What stands in the slots behind the nodes.
#[derive(Drop)]
struct Rest<'a> {
    flushed_at: u64,
    message: &'a str,
    props: Props,
    manifest_files: Items<ManifestInfo>,
}

/// The slots behind the nodes.
#[tactic(auto, unfolding(crate::specs::Snapshots::rest_of))]
fn rest_of<'a>(alloc: Global, table: &Table<'a>) -> Result<Rest<'a>, FileFault>
    ensures value { Reads
        (λ rest. (rest.flushed_at, (rest.message.now, (rest.props, rest.manifest_files)))) result
        (rest_of table.now) }
    ensures ascend { IfOk result (λ rest. Ascends file_key None rest.manifest_files) }
{
    let flushed_at = number_in(table, 3, 8)?;
    let message = text_in(table, 4)?;
    let props = properties_of(alloc, table)?;
    let manifest_files = files_of(alloc, table)?;
    Ok(Rest {
        flushed_at,
        message,
        props,
        manifest_files,
    })
}

/// What a payload says.
#[tactic(auto, unfolding(crate::specs::Snapshots::payload_of))]
fn payload_of(alloc: Global, payload: &[u8]) -> Result<SnapshotFile, FileFault>
    ensures { Reads (λ x. x) result (payload_of payload.now) }
{
    let table = Table::root(payload)?;
    let id = id12_of(&table, 0)?;
    let parent = parent_of(&table)?;
    let nodes = nodes_of(alloc, &table)?;
    let rest = rest_of(alloc, &table)?;
    if let Some(at) = first_unlisted(rest.manifest_files.as_slice(), nodes.as_slice()) {
        return Err(FileFault::Unlisted { at });
    }
    let message = Text::of(alloc, rest.message)?;
    Ok(SnapshotFile {
        id,
        parent,
        nodes,
        flushed_at: rest.flushed_at,
        message,
        props: rest.props,
        manifest_files: rest.manifest_files,
    })
}

/// Reads the file of a snapshot: the value that the file stands for, or its first fault. The faults of the file itself
/// come first, in the order of [`payload_in`]. Then come the root table and its slots in order, each vector's elements in
/// order, and each element's slots in order: `Flat` where a part lies outside of the payload or a required slot is
/// absent; `Limit` at more than [`NODE_LIMIT`] nodes, before the first of them; after a node's slots `Path`, `NodeKind`
/// where its type is neither 1 nor 2, and `Order` where it doesn't stand behind the one before; `Limit` at more than
/// [`PROP_LIMIT`](crate::PROP_LIMIT) properties, before the first of them; after a property's slots `Property` where its name
/// or its value isn't one, and `Order`; `Order` for the manifest files; and last `Unlisted`, where a node names a manifest
/// that isn't among them. (Icechunk specification version 1, "Snapshot"; the order of faults is own.)
#[tactic(auto, using(file_fields::proofs::Payloads::read_is, file_fields::proofs::Payloads::fault_is), unfolding(crate::specs::Snapshots::snapshot_of))]
pub fn read(alloc: Global, file: &[u8]) -> Result<SnapshotFile, FileFault>
    ensures value { Reads (λ x. x) result (snapshot_of file.now) }
    // What was read can be written.
    ensures writable { IfOk result IsWritable }
{
    payload_of(alloc, payload_in(Kind::Snapshot, file)?)
}
