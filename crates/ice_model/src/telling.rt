//! Edits in words.

use std::alloc::AllocError;
use tree_model::Edit;
use zarr_meta::{Meta, MetaView};
use zarr_path::Path;

/// Appends what metadata says.
fn push_meta(told: &mut String, meta: &Meta) -> Result<(), AllocError> {
    match &meta.view {
        MetaView::Group => write!(told, " group of {} bytes", meta.text.len()),
        MetaView::Array(array) => write!(
            told,
            " array {:?} in {:?} of {}, fill {}",
            array.shape.as_slice(),
            array.chunks.as_slice(),
            array.kind.name(),
            array.fill
        ),
    }
}

/// Appends an edit.
fn push_words(told: &mut String, edit: &Edit) -> Result<(), AllocError> {
    match edit {
        Edit::Add { path, id, meta } => {
            write!(told, "add {path} as {id}")?;
            push_meta(told, meta)
        }
        Edit::SetMeta { path, meta } => {
            write!(told, "change {path} to")?;
            push_meta(told, meta)
        }
        Edit::Drop { path } => write!(told, "drop {path}"),
        Edit::Set { path, index, bytes } => {
            let numbers = index.parts();
            let bytes = bytes.as_slice();
            write!(told, "set {path} {numbers:?} to {bytes:?}")
        }
        Edit::Unset { path, index } => {
            let numbers = index.parts();
            write!(told, "unset {path} {numbers:?}")
        }
    }
}

/// Appends a line of an edit.
pub fn push_edit(told: &mut String, edit: &Edit) -> Result<(), AllocError> {
    told.push_str("  ")?;
    push_words(told, edit)?;
    told.push_str("\n")
}

/// Appends a line that all chunks at a path are set.
pub fn push_all(told: &mut String, path: &Path, bytes: &[u8]) -> Result<(), AllocError> {
    write!(told, "  set all of {path} to {bytes:?}\n")
}
