//! Added nodes by their paths.

ghost use Rattle.std.specs.Prelude.{◌≡◌, [], ◌∷◌, not, is_some, if◌then◌else◌, IfOk, OnOk, OnErr, IfSome, MatchOption, IsTrue};
ghost use Rattle.std.specs.String.{string_bytes, string_cmp};
ghost use Rattle.std.specs.BTreeMap as tree;
ghost use Rattle.zarr_path.specs.Paths.{is_path, is_within};
ghost use Rattle.zarr_tree.specs.Rows.{row_found, IsInOrder};
ghost use Rattle.zarr_changes.specs.inside.Touching.{has_metadata};
ghost use Rattle.std.specs.Option.{option_copied};
ghost use Rattle.std.specs.FinMap as map;

use crate::shared_nodes::SharedNode;
use ice_ids::Id8;
use std::alloc::{AllocError, Global};
use std::collections::BTreeMap;
use std::collections::btree_map::{Entry, Iter};
use std::marker::Model;
use zarr_meta::SharedMeta;
use zarr_path::{Path, is_within};
use zarr_tree::Found;

/// Nodes by the texts of their paths.
type Nodes = BTreeMap<String, SharedNode>;

/// Enters a node at the path of this text, if none stands there, which it tells. The path is searched for once.
fn enter_new(nodes: &mut Nodes, text: String, node: SharedNode) -> Result<bool, AllocError>
    ensures free { IfOk result (λ free. free ≡ not (is_some (tree.get string_cmp nodes.old text))) }
    ensures entries { IfOk result
        (λ free. nodes.new.entries ≡ (if free then tree.insert_entry string_cmp nodes.old.entries
        text node else nodes.old.entries)) }
    ensures err { OnErr result (nodes.new.entries ≡ nodes.old.entries) }
{
    let Entry::Vacant(place) = nodes.entry(text)? else {
        return Ok(false);
    };
    place.insert_entry(node);
    Ok(true)
}

/// Nodes by their paths. Contracts see a finite map from the bytes of the paths.
#[derive(Debug, Drop)]
pub(crate) struct Added {
    nodes: Nodes,
}

impl Model for Added {
    ghost use Rattle.std.specs.FinMap as map;
    ghost use Rattle.zarr_path.specs.Paths.{path_cmp};
    ghost use Rattle.zarr_tree.specs.Codes.{coded_path, coded_node};
    ghost use Rattle.zarr_tree.specs.Nodes.{Node as TheNode};
    ghost use Rattle.zarr_tree.specs.Rows.{IsInOrder, ArePaths, node_rows};

    ghost Value = { map.FinMap path_cmp TheNode };

    ghost coded = { map.code coded_path coded_node };

    ghost view = { λ a. map.from_entries (node_rows a.nodes.entries) };

    ghost invariant = { λ a. IsInOrder (node_rows a.nodes.entries) × ArePaths (node_rows a.nodes.entries) };
}

impl Added {
    /// No nodes. It takes no memory.
    pub(crate) fn new(alloc: Global) -> Added
        ensures { result ≡ map.empty }
    {
        Added {
            nodes: BTreeMap::new(alloc),
        }
    }

    /// How many nodes there are.
    pub(crate) fn len(&self) -> usize
        ensures { result ≡ map.len self.now }
    {
        self.nodes.len()
    }

    /// Whether there are none.
    pub(crate) fn is_empty(&self) -> bool
        ensures { result ≡ not (has_metadata (map.entries self.now)) }
    {
        self.rows().next().is_none()
    }

    /// The node at a path. It takes no memory.
    pub(crate) fn find(&self, path: &str) -> Option<&SharedNode>
        ensures { option_copied result ≡ map.get self.now path.now }
    {
        self.nodes.get(path)
    }

    /// Enters a node of this id with this metadata at a path, in place of one that stands there. Where memory runs out, all
    /// is as before.
    pub(crate) fn insert(
        &mut self,
        alloc: Global,
        path: &Path,
        id: Id8,
        meta: SharedMeta,
    ) -> Result<(), AllocError>
        ensures ok { OnOk result
            (self.new ≡ map.insert self.old path.now (record { id = id; text = meta.text })) }
        ensures err { OnErr result (self.new ≡ self.old) }
    {
        let text = String::from_str(alloc, path.as_str())?;
        self.enter(text, SharedNode::new(id, meta))
    }

    /// Enters a node at the path of this text.
    fn enter(&mut self, text: String, node: SharedNode) -> Result<(), AllocError>
        requires { IsTrue (is_path (string_bytes text)) }
        ensures ok { OnOk result (self.new ≡ map.insert self.old (string_bytes text) node) }
        ensures err { OnErr result (self.new ≡ self.old) }
    {
        self.nodes.insert(text, node)?;
        Ok(())
    }

    /// Enters a node of this id with this metadata at a path where none stands, which it tells. Else, and where memory runs
    /// out, all is as before. The path is searched for once.
    pub(crate) fn insert_new(
        &mut self,
        alloc: Global,
        path: &Path,
        id: Id8,
        meta: SharedMeta,
    ) -> Result<bool, AllocError>
        ensures free { IfOk result (λ free. free ≡ not (is_some (map.get self.old path.now))) }
        ensures entered { IfOk result
            (λ free. self.new
            ≡ (if free then map.insert self.old path.now (record { id = id; text = meta.text })
            else self.old)) }
        ensures err { OnErr result (self.new ≡ self.old) }
    {
        let text = String::from_str(alloc, path.as_str())?;
        self.enter_new(text, SharedNode::new(id, meta))
    }

    /// Enters a node at the path of this text, if none stands there.
    fn enter_new(&mut self, text: String, node: SharedNode) -> Result<bool, AllocError>
        requires { IsTrue (is_path (string_bytes text)) }
        ensures free { IfOk result
            (λ free. free ≡ not (is_some (map.get self.old (string_bytes text)))) }
        ensures entered { IfOk result
            (λ free. self.new ≡ (if free then map.insert self.old (string_bytes text) node
            else self.old)) }
        ensures err { OnErr result (self.new ≡ self.old) }
    {
        enter_new(&mut self.nodes, text, node)
    }

    /// Takes away the node at a path, and all beneath it.
    pub(crate) fn remove_within(&mut self, of: &str)
        ensures { self.new ≡ map.retain_keys self.old (λ path. not (is_within of.now path)) }
    {
        self.nodes.retain(|text, _| !is_within(of, text.as_str()));
    }

    /// The same nodes once more.
    pub(crate) fn copy(&self, alloc: Global) -> Result<Added, AllocError>
        ensures { IfOk result (λ nodes. nodes ≡ self.now) }
    {
        let mut copy = Added::new(alloc);
        for (text, node) in self.nodes.iter() {
            copy.enter(text.clone()?, node.copy()?)?;
        }
        Ok(copy)
    }

    /// The paths and their nodes, in the order of the bytes of the paths.
    pub(crate) fn rows(&self) -> AddedRows<'_>
        ensures { result ≡ map.entries self.now }
    {
        AddedRows {
            rest: self.nodes.iter(),
        }
    }
}

/// Nodes that are walked in the order of the bytes of their paths. Contracts see the rows that are left.
#[derive(Drop)]
pub(crate) struct AddedRows<'a> {
    rest: Iter<'a, String, SharedNode>,
}

impl<'a> Model for AddedRows<'a> {
    ghost use Rattle.zarr_tree.specs.Held.{Rows};
    ghost use Rattle.zarr_tree.specs.Rows.{IsInOrder, ArePaths, node_rows};

    ghost Value = { Rows };

    ghost view = { λ a. node_rows a.rest };

    ghost invariant = { λ a. IsInOrder (node_rows a.rest) × ArePaths (node_rows a.rest) };
}

impl<'a> AddedRows<'a> {
    /// The next path and its node, if any are left.
    pub(crate) fn next(&mut self) -> Option<(&'a str, Found<'a>)>
        ensures row { MatchOption result (self.old ≡ [])
            (λ row. self.old ≡ row_found row ∷ self.new) }
        ensures path { IfSome result (λ row. IsTrue (is_path row.0.now)) }
        ensures order { IsInOrder self.old }
    {
        let (text, node) = self.rest.next()?;
        Some((text.as_str(), node.found()))
    }
}
