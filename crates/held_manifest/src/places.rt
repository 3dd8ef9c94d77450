ghost use Rattle.std.specs.Prelude.{◌≡◌};
ghost use Rattle.flat_tables.specs.Step.{Gives};
ghost use Rattle.manifest_file.specs.Manifests.{place_in};
ghost use Rattle.held_manifest.specs.Places.{place_seen};
ghost use Rattle.held_manifest.specs.Objects.{object_of};

use file_fields::id12;
use flat_tables::{FileFault, Table};
use ice_ids::Id12;

/// Where the bytes of a chunk are, as a manifest that is read in place has it.
#[derive(Clone, Copy, Debug)]
pub enum PlaceView<'a> {
    /// In the manifest: these bytes.
    Inline(&'a [u8]),
    /// In an object: so many bytes of it, from an offset on.
    Object {
        /// The object.
        id: Id12,
        /// The place of the chunk's first byte in it.
        offset: u64,
        /// The number of the chunk's bytes.
        length: u64,
    },
}

impl<'a> PlaceView<'a> {
    /// The object that has the bytes; `None` where they are in the manifest.
    pub fn object(&self) -> Option<Id12>
        ensures { result ≡ object_of (place_seen self.now) }
    {
        match *self {
            PlaceView::Inline(_) => None,
            PlaceView::Object { id, .. } => Some(id),
        }
    }
}

/// Where a table, which is element `at`, has its chunk.
#[tactic(auto, unfolding(manifest_file::specs::Manifests::place_in))]
pub(crate) fn place_in<'a>(table: &Table<'a>, at: usize) -> Result<PlaceView<'a>, FileFault>
    ensures { Gives place_seen result (place_in table.now at) }
{
    let inline = table.vector(1, 1)?;
    let offset = table.scalar(2, 8)?.unwrap_or(0);
    let length = table.scalar(3, 8)?.unwrap_or(0);
    let object = table.bytes(4, 12)?;
    if table.text(5)?.is_some() {
        return Err(FileFault::VirtualRef { at });
    }
    match (inline, object) {
        (Some(bytes), None) => Ok(PlaceView::Inline(bytes.all())),
        (None, Some(bytes)) => Ok(PlaceView::Object {
            id: id12(bytes),
            offset,
            length,
        }),
        _ => Err(FileFault::RefKind { at }),
    }
}
