//! Nodes once more.

ghost use Rattle.std.specs.Prelude.{◌≡◌, IfOk};

use crate::lists::Names;
use crate::nodes::{ManifestRef, NodeKind, NodeRow};
use crate::properties::Props;
use ice_base::Text;
use ice_items::Items;
use std::alloc::{AllocError, Global};

/// A name once more, if it is there.
fn copy_name(alloc: Global, name: &Option<Text>) -> Result<Option<Text>, AllocError>
    ensures { IfOk result (λ copy. copy ≡ name.now) }
{
    match name {
        Some(name) => Ok(Some(name.copy(alloc)?)),
        None => Ok(None),
    }
}

/// The same names once more.
fn copy_list(alloc: Global, names: &Names) -> Result<Names, AllocError>
    ensures { IfOk result (λ copy. copy ≡ names.now) }
{
    let mut copy = Vec::with_capacity(alloc, names.len())?;
    for name in names.as_slice() {
        copy.push(copy_name(alloc, name)?)?;
    }
    Ok(Items::from_vec(copy))
}

/// The names of an array's dimensions once more, if they are there.
pub fn copy_names(alloc: Global, names: &Option<Names>) -> Result<Option<Names>, AllocError>
    ensures { IfOk result (λ copy. copy ≡ names.now) }
{
    match names {
        Some(names) => Ok(Some(copy_list(alloc, names)?)),
        None => Ok(None),
    }
}

/// The same manifests once more.
pub fn copy_manifests(
    alloc: Global,
    manifests: &[ManifestRef],
) -> Result<Items<ManifestRef>, AllocError>
    ensures { IfOk result (λ copy. copy ≡ manifests.now) }
{
    let mut copy = Vec::with_capacity(alloc, manifests.len())?;
    for manifest in manifests {
        copy.push(manifest.copy(alloc)?)?;
    }
    Ok(Items::from_vec(copy))
}

impl Props {
    /// The same properties once more.
    pub fn copy(&self, alloc: Global) -> Result<Props, AllocError>
        ensures { IfOk result (λ copy. copy ≡ self.now) }
    {
        let mut rows = Vec::with_capacity(alloc, self.len())?;
        for (name, value) in self.rows() {
            rows.push((name.copy(alloc)?, value.copy(alloc)?))?;
        }
        Ok(Props::from_rows(alloc, rows))
    }
}

impl ManifestRef {
    /// The same manifest once more.
    pub fn copy(&self, alloc: Global) -> Result<ManifestRef, AllocError>
        ensures { IfOk result (λ manifest. manifest ≡ self.now) }
    {
        Ok(ManifestRef {
            id: self.id,
            extents: self.extents.copy(alloc)?,
        })
    }
}

impl NodeKind {
    /// The same once more.
    pub fn copy(&self, alloc: Global) -> Result<NodeKind, AllocError>
        ensures { IfOk result (λ kind. kind ≡ self.now) }
    {
        match self {
            NodeKind::Group => Ok(NodeKind::Group),
            NodeKind::Array {
                shape,
                names,
                manifests,
            } => Ok(NodeKind::Array {
                shape: shape.copy(alloc)?,
                names: copy_names(alloc, names)?,
                manifests: copy_manifests(alloc, manifests.as_slice())?,
            }),
        }
    }
}

impl NodeRow {
    /// The same node once more.
    pub fn copy(&self, alloc: Global) -> Result<NodeRow, AllocError>
        ensures { IfOk result (λ node. node ≡ self.now) }
    {
        Ok(NodeRow {
            id: self.id,
            path: self.path.copy(alloc)?,
            user_data: self.user_data.copy(alloc)?,
            kind: self.kind.copy(alloc)?,
        })
    }
}
