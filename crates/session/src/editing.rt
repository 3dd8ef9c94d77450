//! Edits of nodes.

ghost use Rattle.std.specs.Prelude.{◌≡◌, ℕ, List, None, Err};
ghost use Rattle.ice_ids.specs.Drawing.{drawn8};
ghost use Rattle.session.specs.Editing.{Adds, Leaves, array_added, array_fault, entered, group_added, group_fault, meta_set, node_added, node_dropped, node_fault, refusal_of_edit};
ghost use Rattle.session.specs.inside.Reads.{Reads};

use crate::Session;
use ice_ids::{Id8, Ids};
use kept_ids::KeptIds;
use store_api::Refusal;
use zarr_meta::{MetaFault, MetaView, SharedMeta};
use zarr_path::Path;
use zarr_tree::EditFault;

/// A session refuses an edit as its tree does.
pub(crate) fn refusal_of_edit(fault: EditFault) -> Refusal
    ensures { result ≡ refusal_of_edit fault }
{
    match fault {
        EditFault::NodeExists
        | EditFault::NoParent
        | EditFault::Full
        | EditFault::NoNode
        | EditFault::FrozenField(_)
        | EditFault::NotArray
        | EditFault::OutOfGrid
        | EditFault::ChunkLength { .. } => Refusal::Edit(fault),
        EditFault::NoMemory => Refusal::NoMemory,
    }
}

impl Session {
    /// The metadata that a text says, of a group or an array.
    fn read_node(&mut self, text: &[u8]) -> Result<SharedMeta, Refusal>
        ensures reads { Reads node_fault text.now result }
        ensures same { self.new ≡ self.old }
    {
        match self.reader.read(self.alloc, text) {
            Ok(meta) => Ok(meta),
            Err(MetaFault::NoMemory) => Err(Refusal::NoMemory),
            Err(fault) => Err(Refusal::BadMeta(fault)),
        }
    }

    /// The metadata of a group that a text says.
    fn read_group(&mut self, text: &[u8]) -> Result<SharedMeta, Refusal>
        ensures reads { Reads group_fault text.now result }
        ensures same { self.new ≡ self.old }
    {
        let meta = self.read_node(text)?;
        match meta.view {
            MetaView::Group => Ok(meta),
            MetaView::Array(_) => {
                drop(meta);
                Err(Refusal::BadMeta(MetaFault::NodeType))
            }
        }
    }

    /// The metadata of an array that a text says.
    fn read_array(&mut self, text: &[u8]) -> Result<SharedMeta, Refusal>
        ensures reads { Reads array_fault text.now result }
        ensures same { self.new ≡ self.old }
    {
        let meta = self.read_node(text)?;
        match meta.view {
            MetaView::Group => {
                drop(meta);
                Err(Refusal::BadMeta(MetaFault::NodeType))
            }
            MetaView::Array(_) => Ok(meta),
        }
    }

    /// Why no node is added at a path where no id is left.
    fn spent(&self, path: &Path) -> Refusal
        requires { drawn8 self.now.ids ≡ None }
        ensures { (text : List ℕ) → Adds (entered self.now path.now text) self.now (Err result)
            self.now }
    {
        match self.changes.may_add(&self.loaded, path) {
            Ok(()) => Refusal::IdsSpent,
            Err(fault) => refusal_of_edit(fault),
        }
    }

    /// Adds a node with this metadata at a path, and answers its id. The id counts as drawn only where the node is there.
    fn add(&mut self, path: &Path, meta: SharedMeta) -> Result<Id8, Refusal>
        ensures { Adds (entered self.old path.now meta.text) self.old result self.new }
    {
        let mut ids = self.ids.ids();
        let Some(id) = ids.next8() else {
            drop(meta);
            return Err(self.spent(path));
        };
        if let Err(fault) = self.changes.add(self.alloc, &self.loaded, path, id, meta) {
            return Err(refusal_of_edit(fault));
        }
        self.ids = KeptIds::new(ids);
        Ok(id)
    }

    /// Adds a group with this metadata at a path, and answers its id. It is refused by `ReadOnly`, `BadMeta` (the text is no
    /// metadata, or an array's), `NodeExists`, `NoParent`, `Full`, `IdsSpent` or `NoMemory`, the first in this order. A
    /// refused session is as before, apart from one id that may have been drawn where memory ran out.
    pub fn add_group(&mut self, path: &Path, text: &[u8]) -> Result<Id8, Refusal>
        ensures { Adds (group_added self.old path.now text.now) self.old result self.new }
    {
        if !self.writes() {
            return Err(Refusal::ReadOnly);
        }
        let meta = self.read_group(text)?;
        self.add(path, meta)
    }

    /// Adds an array with this metadata at a path, and answers its id. It is refused as [`Session::add_group`] is, by
    /// `BadMeta` where the text is no metadata, or a group's.
    pub fn add_array(&mut self, path: &Path, text: &[u8]) -> Result<Id8, Refusal>
        ensures { Adds (array_added self.old path.now text.now) self.old result self.new }
    {
        if !self.writes() {
            return Err(Refusal::ReadOnly);
        }
        let meta = self.read_array(text)?;
        self.add(path, meta)
    }

    /// Adds a group or an array, as the text says, and answers its id. It is refused as [`Session::add_group`] is, by
    /// `BadMeta` where the text is no metadata.
    pub fn add_node(&mut self, path: &Path, text: &[u8]) -> Result<Id8, Refusal>
        ensures { Adds (node_added self.old path.now text.now) self.old result self.new }
    {
        if !self.writes() {
            return Err(Refusal::ReadOnly);
        }
        let meta = self.read_node(text)?;
        self.add(path, meta)
    }

    /// Gives the node at a path this metadata. It is refused by `ReadOnly`, `BadMeta`, `NoNode`, `FrozenField` (with the first
    /// part that differs and has to stay: the type of node, the rank, the data type, the chunk grid, the codecs) or `NoMemory`,
    /// the first in this order, and the session is as before.
    pub fn set_meta(&mut self, path: &Path, text: &[u8]) -> Result<(), Refusal>
        ensures { Leaves (meta_set self.old path.now text.now) self.old result self.new }
    {
        if !self.writes() {
            return Err(Refusal::ReadOnly);
        }
        let meta = self.read_node(text)?;
        match self.changes.set_meta(self.alloc, &self.loaded, path, meta) {
            Ok(()) => Ok(()),
            Err(fault) => Err(refusal_of_edit(fault)),
        }
    }

    /// Takes away the node at a path and all beneath it. It is refused by `ReadOnly`, `NoNode` or `NoMemory`, the first in
    /// this order, and the session is as before.
    pub fn drop_node(&mut self, path: &Path) -> Result<(), Refusal>
        ensures { Leaves (node_dropped self.old path.now) self.old result self.new }
    {
        if !self.writes() {
            return Err(Refusal::ReadOnly);
        }
        match self.changes.drop_node(self.alloc, &self.loaded, path) {
            Ok(()) => Ok(()),
            Err(fault) => Err(refusal_of_edit(fault)),
        }
    }
}
