//! Chunks of the array that a node is.

ghost use Rattle.std.specs.Prelude.{◌≡◌};
ghost use Rattle.std.specs.Option.{option_copied};
ghost use Rattle.zarr_tree.specs.Nodes.{array_in};
ghost use Rattle.zarr_tree.specs.Rows.{node_found};
ghost use Rattle.tree_model.specs.inside.Lengths.{length_in, length_at};

use zarr_grid::{chunk_bytes, in_grid};
use zarr_meta::MetaView;
use zarr_path::Index;
use zarr_tree::{EditFault, Found, Node, grid_law};

/// How many bytes the chunk of this index of the array that a node is has.
fn length_in(found: Found<'_>, index: &Index) -> Result<u64, EditFault>
    ensures { result ≡ length_in index.now (array_in (node_found found.entry).text) }
{
    grid_law();
    let MetaView::Array(array) = &found.meta.view else {
        return Err(EditFault::NotArray);
    };
    if !in_grid(array.shape.as_slice(), array.chunks.as_slice(), index) {
        return Err(EditFault::OutOfGrid);
    }
    Ok(chunk_bytes(array.kind.size(), array.chunks.as_slice()))
}

/// How many bytes the chunk of this index of the array that is found has.
pub(crate) fn chunk_bytes_of(node: Option<&Node>, index: &Index) -> Result<u64, EditFault>
    ensures { result ≡ length_at index.now (option_copied node.entry) }
{
    match node {
        Some(node) => length_in(node.found(), index),
        None => Err(EditFault::NoNode),
    }
}
