//! Nodes by their paths.

ghost use Rattle.std.specs.Prelude.{◌≡◌, [], ◌∷◌, ◌<◌, not, slice_get, Some, IfOk, OnOk, OnErr, IfSome, MatchOption, IsTrue};
ghost use Rattle.std.specs.String.{string_bytes};
ghost use Rattle.zarr_path.specs.Paths.{is_path, is_within};
ghost use Rattle.zarr_tree.specs.Rows.{row_found, IsInOrder};
ghost use Rattle.std.specs.Option.{option_copied};
ghost use Rattle.std.specs.FinMap as map;

use std::alloc::{AllocError, Global};
use std::collections::BTreeMap;
use std::collections::btree_map::Iter;
use std::marker::Model;
use zarr_path::{Path, is_within};
use zarr_tree::{Found, Node};

/// Nodes by their paths. Contracts see a finite map from the bytes of the paths.
#[derive(Debug, Drop)]
pub struct Nodes {
    nodes: BTreeMap<String, Node>,
}

impl Model for Nodes {
    ghost use Rattle.std.specs.FinMap as map;
    ghost use Rattle.zarr_path.specs.Paths.{path_cmp};
    ghost use Rattle.zarr_tree.specs.Codes.{coded_path, coded_node};
    ghost use Rattle.zarr_tree.specs.Nodes.{Node as TheNode};
    ghost use Rattle.zarr_tree.specs.Rows.{IsInOrder, ArePaths, node_rows};

    ghost Value = { map.FinMap path_cmp TheNode };

    ghost coded = { map.code coded_path coded_node };

    ghost view = { λ a. map.from_entries (node_rows a.nodes.entries) };

    ghost invariant = { λ a. IsInOrder (node_rows a.nodes.entries) × ArePaths (node_rows a.nodes.entries) };
}

impl Nodes {
    /// No nodes. It takes no memory.
    pub fn new(alloc: Global) -> Nodes
        ensures { result ≡ map.empty }
    {
        Nodes {
            nodes: BTreeMap::new(alloc),
        }
    }

    /// How many nodes there are.
    pub fn len(&self) -> usize
        ensures { result ≡ map.len self.now }
    {
        self.nodes.len()
    }

    /// The node at a path. It takes no memory.
    pub fn find(&self, path: &str) -> Option<&Node>
        ensures { option_copied result ≡ map.get self.now path.now }
    {
        self.nodes.get(path)
    }

    /// Enters a node at a path, in place of one that stands there. Where memory runs out, all is as before.
    pub fn insert(&mut self, alloc: Global, path: &Path, node: Node) -> Result<(), AllocError>
        ensures ok { OnOk result (self.new ≡ map.insert self.old path.now node) }
        ensures err { OnErr result (self.new ≡ self.old) }
    {
        self.put(alloc, path.as_str(), node)
    }

    /// Enters a node at the path of this text, which it copies.
    pub(crate) fn put(&mut self, alloc: Global, path: &str, node: Node) -> Result<(), AllocError>
        requires { IsTrue (is_path path.now) }
        ensures ok { OnOk result (self.new ≡ map.insert self.old path.now node) }
        ensures err { OnErr result (self.new ≡ self.old) }
    {
        let text = String::from_str(alloc, path)?;
        self.enter(text, node)
    }

    /// Enters a node at the path of this text.
    fn enter(&mut self, text: String, node: Node) -> Result<(), AllocError>
        requires { IsTrue (is_path (string_bytes text)) }
        ensures ok { OnOk result (self.new ≡ map.insert self.old (string_bytes text) node) }
        ensures err { OnErr result (self.new ≡ self.old) }
    {
        self.nodes.insert(text, node)?;
        Ok(())
    }

    /// Takes away the node at a path, and all beneath it.
    pub fn remove_within(&mut self, of: &str)
        ensures { self.new ≡ map.retain_keys self.old (λ path. not (is_within of.now path)) }
    {
        self.nodes.retain(|text, _| !is_within(of, text.as_str()));
    }

    /// The same nodes once more.
    pub fn copy(&self, alloc: Global) -> Result<Nodes, AllocError>
        ensures { IfOk result (λ nodes. nodes ≡ self.now) }
    {
        let mut copy = Nodes::new(alloc);
        for (text, node) in self.nodes.iter() {
            copy.enter(text.clone()?, node.copy(alloc)?)?;
        }
        Ok(copy)
    }

    /// The paths and their nodes, in the order of the bytes of the paths.
    pub fn rows(&self) -> Rows<'_>
        ensures { result ≡ map.entries self.now }
    {
        Rows {
            rest: self.nodes.iter(),
        }
    }

    /// Row number `at`, found by a walk.
    pub fn row(&self, at: usize) -> (&str, Found<'_>)
        requires { at < map.len self.now }
        ensures row { slice_get (map.entries self.now) at ≡ Some (row_found result) }
        ensures path { IsTrue (is_path result.0.now) }
    {
        let mut rows = self.rows();
        for _ in 0..at {
            rows.next();
        }
        match rows.next() {
            Some(row) => row,
            None => unreachable!(),
        }
    }
}

/// Nodes that are walked in the order of the bytes of their paths. Contracts see the rows that are left.
#[derive(Drop)]
pub struct Rows<'a> {
    rest: Iter<'a, String, Node>,
}

impl<'a> Model for Rows<'a> {
    ghost use Rattle.zarr_tree.specs.Held.{Rows};
    ghost use Rattle.zarr_tree.specs.Rows.{IsInOrder, ArePaths, node_rows};

    ghost Value = { Rows };

    ghost view = { λ a. node_rows a.rest };

    ghost invariant = { λ a. IsInOrder (node_rows a.rest) × ArePaths (node_rows a.rest) };
}

impl<'a> Rows<'a> {
    /// The next path and its node, if any are left.
    pub fn next(&mut self) -> Option<(&'a str, Found<'a>)>
        ensures row { MatchOption result (self.old ≡ [])
            (λ row. self.old ≡ row_found row ∷ self.new) }
        ensures path { IfSome result (λ row. IsTrue (is_path row.0.now)) }
        ensures order { IsInOrder self.old }
    {
        let (text, node) = self.rest.next()?;
        Some((text.as_str(), node.found()))
    }
}
