//! Look-ups.

ghost use Rattle.std.specs.Prelude.{◌≡◌, bytes_eq, option_map};
ghost use Rattle.std.specs.FinMap as map;
ghost use Rattle.zarr_tree.specs.Rows.{node_found};
ghost use Rattle.ice_model.specs.Alike.{same_found, same_node};

use tree_model::Nodes;
use zarr_tree::Found;

/// Whether two lists of bytes are the same.
pub fn same(bytes: &[u8], other: &[u8]) -> bool
    ensures { result ≡ bytes_eq bytes.now other.now }
{
    bytes == other
}

/// Whether two nodes are the same.
pub fn same_node(node: Found<'_>, other: Found<'_>) -> bool
    ensures { result ≡ same_node (node_found node.entry) (node_found other.entry) }
{
    node.id == other.id && node.meta.text == other.meta.text
}

/// Whether two look-ups found the same.
pub fn same_found(found: Option<Found<'_>>, other: Option<Found<'_>>) -> bool
    ensures { result ≡ same_found (option_map node_found found.entry)
        (option_map node_found other.entry) }
{
    match (found, other) {
        (Some(node), Some(other)) => same_node(node, other),
        (None, None) => true,
        (Some(_), None) | (None, Some(_)) => false,
    }
}

/// The node at a path.
pub fn found_in<'a>(nodes: &'a Nodes, path: &str) -> Option<Found<'a>>
    ensures { option_map node_found result ≡ map.get nodes.entry.now path.now }
{
    match nodes.find(path) {
        Some(node) => Some(node.found()),
        None => None,
    }
}
