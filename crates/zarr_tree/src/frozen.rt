//! The parts of a node's metadata that stay as they are while the node is there.

ghost use Rattle.std.specs.Prelude.{◌≡◌};
ghost use Rattle.zarr_tree.specs.Nodes.{same_kind, same_codecs, same_numbers, array_change, frozen_change};

use crate::edit::Frozen;
use zarr_meta::{ArrayView, Lengths, Meta, MetaView};

/// Whether two arrays have elements of one type.
fn same_kind(a: &ArrayView, b: &ArrayView) -> bool
    ensures { result ≡ same_kind a.now b.now }
{
    a.kind.name() == b.kind.name()
}

/// Whether two lists of lengths are the same.
fn same_lengths(a: &Lengths, b: &Lengths) -> bool
    ensures { result ≡ same_numbers a.now b.now }
{
    a.as_slice() == b.as_slice()
}

/// Whether elements are written as the same bytes. Those of one byte are the same in either order of bytes.
fn same_codecs(a: &ArrayView, b: &ArrayView) -> bool
    ensures { result ≡ same_codecs a.now b.now }
{
    a.kind.size() == 1 || a.big == b.big
}

/// The first part that stays in which two arrays differ.
fn array_change(a: &ArrayView, b: &ArrayView) -> Option<Frozen>
    ensures { result ≡ array_change a.now b.now }
{
    if a.shape.len() != b.shape.len() {
        return Some(Frozen::Rank);
    }
    if !same_kind(a, b) {
        return Some(Frozen::DataType);
    }
    if !same_lengths(&a.chunks, &b.chunks) {
        return Some(Frozen::ChunkGrid);
    }
    if !same_codecs(a, b) {
        return Some(Frozen::Codecs);
    }
    None
}

/// The first part that stays in which later metadata differs.
pub fn frozen_change(meta: &Meta, later: &Meta) -> Option<Frozen>
    ensures { result ≡ frozen_change meta.now.text later.now.text }
{
    match (&meta.view, &later.view) {
        (MetaView::Array(a), MetaView::Array(b)) => array_change(a, b),
        (MetaView::Group, MetaView::Group) => None,
        _ => Some(Frozen::NodeType),
    }
}
