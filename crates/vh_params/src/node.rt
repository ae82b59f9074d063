//! The nodes of a session.

ghost use Rattle.std.specs.Prelude.{◌≡◌, ◌≢◌, ◌≤◌, ◌<◌, ◌++◌, ◌∷◌, [], ◌↔◌, IsTrue, ℕ, true, List, length, take, map, slice_index_or, All, Option, OnOk, OnErr, IfSome, IfNone, IfOk, option_copied};
ghost use Rattle.vh_params.specs.Names.{is_name};

use crate::class::ClassInfo;
use crate::label::Label;
use crate::param::ParamInfo;
use crate::table::ParamTable;
use indexmap::IndexMap;
use std::alloc::{AllocError, Global};

/// A node's class and parameters.
#[derive(Drop)]
struct Node {
    class_name: Label,
    table: ParamTable,
}

/// The nodes of a session, at most 64, numbered from 0 in the order in which they were added. Each has a
/// name of its own, and its class's parameters.
#[derive(Drop)]
pub struct NodeTable {
    nodes: IndexMap<Label, Node>,
    ghost most: { length nodes.entries ≤ 64 },
    ghost names: { All (λ entry. is_name (take entry.0.len entry.0.bytes) ≡ true) nodes.entries },
}

impl NodeTable {
    ghost use Rattle.vh_params.specs.Short.{label_text};
    ghost use Rattle.vh_params.specs.Tables.{params_of, units_of};
    ghost use Rattle.vh_params.specs.Params.{IsLawful};
    ghost use Rattle.vh_params.specs.Nodes.{nodes_of, node_at, LacksName, AreApart, node_of, info_in, Entry, stored_node};

    /// A table without nodes.
    pub fn new(alloc: Global) -> NodeTable
        ensures { nodes_of result ≡ [] }
    {
        NodeTable {
            nodes: IndexMap::new(alloc),
        }
    }

    /// How many nodes there are.
    pub fn len(&self) -> u32
        ensures count { result ≡ length (nodes_of self.now) }
        ensures most { result ≤ 64 }
        ensures apart { AreApart (nodes_of self.now) }
    {
        self.nodes.len() as u32
    }

    /// Whether there is no node.
    pub fn is_empty(&self) -> bool
        ensures { IsTrue result ↔ (length (nodes_of self.now) ≡ 0) }
    {
        self.len() == 0
    }

    /// A node's name.
    pub fn name(&self, node: u32) -> &Label
        requires { node < length (nodes_of self.now) }
        ensures text { label_text result.now ≡ (node_at (nodes_of self.now) node).name }
        ensures is_name { is_name (label_text result.now) ≡ true }
    {
        self.entry(node as usize).0
    }

    /// The name of a node's class.
    pub fn class_name(&self, node: u32) -> &Label
        requires { node < length (nodes_of self.now) }
        ensures { label_text result.now ≡ (node_at (nodes_of self.now) node).class_name }
    {
        &self.entry(node as usize).1.class_name
    }

    /// A node's parameters.
    pub fn table(&self, node: u32) -> &ParamTable
        requires { node < length (nodes_of self.now) }
        ensures params { params_of result.now ≡ (node_at (nodes_of self.now) node).params }
        ensures units { units_of result.now ≡ (node_at (nodes_of self.now) node).units }
    {
        &self.entry(node as usize).1.table
    }

    /// The number of the node of a name.
    pub fn node(&self, name: &[u8]) -> Option<u32>
        ensures some { IfSome result (λ node. (node < length (nodes_of self.now)) × ((node_at (nodes_of self.now) node).name ≡ name.now)) }
        ensures first { IfSome result (λ node. (before : ℕ) → before < node → (node_at (nodes_of self.now) before).name ≢ name.now) }
        ensures none { IfNone result (LacksName (nodes_of self.now) name.now) }
    {
        if name.len() > 32 {
            return None;
        }
        let node = self.nodes.get_index_of(&Label::new(name))?;
        Some(node as u32)
    }

    /// A parameter of a node; None where the node or the parameter isn't there.
    pub fn info(&self, node: u32, id: u32) -> Option<&ParamInfo>
        ensures value { option_copied result ≡ info_in (nodes_of self.now) node id }
        ensures lawful { IfSome result (λ param. IsLawful (node_at (nodes_of self.now) node).units param.now) }
    {
        if node >= self.len() {
            return None;
        }
        self.table(node).find(id)
    }

    /// Adds a node of a class, and answers its number. After want of memory the table is as before.
    pub fn add(&mut self, alloc: Global, name: Label, class: &ClassInfo) -> Result<u32, AllocError>
        requires name { is_name (label_text name) ≡ true }
        requires new { LacksName (nodes_of self.old) (label_text name) }
        requires room { length (nodes_of self.old) < 64 }
        ensures number { IfOk result (λ node. node ≡ length (nodes_of self.old)) }
        ensures added { OnOk result (nodes_of self.new ≡ nodes_of self.old ++ node_of name class.now ∷ []) }
        ensures err { OnErr result (nodes_of self.new ≡ nodes_of self.old) }
    {
        let number = self.nodes.len() as u32;
        self.put(name, class.name, class.params.copy(alloc)?)?;
        Ok(number)
    }

    /// An equal table.
    pub fn copy(&self, alloc: Global) -> Result<NodeTable, AllocError>
        ensures { IfOk result (λ table. nodes_of table ≡ nodes_of self.now) }
    {
        let mut copy = NodeTable::new(alloc);
        for i in 0..self.nodes.len() {
            let (name, node) = self.entry(i);
            copy.put(*name, node.class_name, node.table.copy(alloc)?)?;
        }
        Ok(copy)
    }

    /// What is stored under a number.
    fn entry(&self, node: usize) -> (&Label, &Node)
        requires { node < length self.now.nodes.entries }
        ensures entry { (d : Entry) → slice_index_or self.now.nodes.entries node d ≡ (result.0.now, result.1.now) }
        ensures stored { node_at (nodes_of self.now) node ≡ stored_node (result.0.now, result.1.now) }
    {
        self.nodes.get_index(node).unwrap()
    }

    /// Stores a node.
    fn put(&mut self, name: Label, class_name: Label, table: ParamTable) -> Result<(), AllocError>
        requires name { is_name (label_text name) ≡ true }
        requires new { LacksName (nodes_of self.old) (label_text name) }
        requires room { length (nodes_of self.old) < 64 }
        ensures added { OnOk result (nodes_of self.new ≡ nodes_of self.old ++ record { name = label_text name; class_name = label_text class_name; params = params_of table; units = units_of table } ∷ []) }
        ensures err { OnErr result (nodes_of self.new ≡ nodes_of self.old) }
    {
        match self.nodes.insert(name, Node { class_name, table }) {
            Ok(_) => Ok(()),
            Err(_) => Err(AllocError),
        }
    }
}

/// Whether a text is a name: 1 to 32 bytes, a lower-case letter and then lower-case letters, digits and
/// `_`, other than `in` and `out`.
pub fn is_name(text: &[u8]) -> bool
    ensures { result ≡ is_name text.now }
{
    if text.is_empty() || text.len() > 32 || !text[0].is_ascii_lowercase() {
        return false;
    }
    if text == b"in".as_slice() || text == b"out".as_slice() {
        return false;
    }
    for &b in text {
        if !(b.is_ascii_lowercase() || b.is_ascii_digit() || b == b'_') {
            return false;
        }
    }
    true
}
