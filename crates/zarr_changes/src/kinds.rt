//! Whether metadata is a group's or an array's.

ghost use Rattle.std.specs.Prelude.{◌≡◌};
ghost use Rattle.zarr_tree.specs.Nodes.{is_group, is_array};

use zarr_meta::{Meta, MetaView};

/// Whether this is the metadata of a group.
pub fn is_group(meta: &Meta) -> bool
    ensures { result ≡ is_group meta.now.text }
{
    matches!(meta.view, MetaView::Group)
}

/// Whether this is the metadata of an array. What isn't a group's is.
pub fn is_array(meta: &Meta) -> bool
    ensures { result ≡ is_array meta.now.text }
{
    matches!(meta.view, MetaView::Array(_))
}
