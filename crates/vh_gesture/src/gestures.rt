ghost use Rattle.std.specs.Prelude.{◌≡◌, ◌<◌, ◌++◌, ◌∷◌, [], List, length, Some, None, OnOk, IfErr, IfOk};
ghost use Rattle.vh_params.specs.Nodes.{Node, nodes_of, info_in};
ghost use Rattle.vh_params.specs.declared.command.Command.TheVariants.{Begin, Perform, End};
ghost use Rattle.vh_params.specs.declared.command.Word.TheVariants.{Edit};
ghost use Rattle.vh_gesture.specs.Rules.{NamesNode, rules, judged, no_reference, too_many_holds, unknown, read_only};
ghost use Rattle.vh_gesture.specs.Tables.{IsOf, counts_in, fault_at, fresh, after, references_at, is_open, marked, mark, gates_of};

use crate::fault::GestureFault;
use std::alloc::{AllocError, Global};
use std::marker::Model;
use vh_num::ONE;
use vh_params::{Command, NodeTable, ParamInfo, Word};

/// The holds of a node that an editor may make.
const MOST_HOLDS: u32 = 64;

/// How often an editor held a node's controller, and how many references to it the editor has.
#[derive(Clone, Copy, Debug, PartialEq, Eq)]
struct References {
    holds: u32,
    held: u32,
}

/// Whether the gesture on a parameter is open.
#[derive(Clone, Copy, Debug, PartialEq, Eq)]
struct Gate {
    node: u32,
    id: u32,
    opened: bool,
}

impl Gate {
    /// The gate after the gestures on a parameter are opened or closed.
    fn marked(self, node: u32, id: u32, opened: bool) -> Gate
        ensures { result ≡ marked node id opened self }
    {
        if self.node == node && self.id == id {
            return Gate { node, id, opened };
        }
        self
    }
}

/// What one editor has: of each node its holds and references, and of each parameter whether its gesture is
/// open.
#[derive(Drop)]
pub struct Gestures {
    references: Vec<References>,
    gates: Vec<Gate>,
}

impl Model for Gestures {
    ghost use Rattle.vh_gesture.specs.Tables.{Table};

    ghost Value = { Table };

    ghost use Rattle.vh_gesture.specs.Gestures.{table_of, AreBacked};

    ghost view = { table_of };

    ghost invariant = { AreBacked };
}

impl Gestures {
    /// One reference to each node, and no gesture open.
    pub fn new(alloc: Global, nodes: &NodeTable) -> Result<Gestures, AllocError>
        ensures { IfOk result (λ made. made ≡ fresh (nodes_of nodes.now)) }
    {
        let one = References { holds: 0, held: 1 };
        let references = Vec::from_elem(alloc, one, nodes.len() as usize)?;
        let mut gates = Vec::new(alloc);
        for node in 0..nodes.len() {
            push_gates(&mut gates, node, nodes.table(node).params())?;
        }
        Ok(Gestures { references, gates })
    }

    /// Whether the editor's next word is accepted.
    pub fn check(&self, nodes: &NodeTable, word: &Word) -> Result<(), GestureFault>
        requires nodes { IsOf (nodes_of nodes.now) self.now }
        requires node { NamesNode (nodes_of nodes.now) word.now }
        ensures ok { OnOk result (fault_at (nodes_of nodes.now) self.now word.now ≡ None) }
        ensures refused { IfErr result (λ fault. fault_at (nodes_of nodes.now) self.now word.now ≡ Some fault) }
    {
        match *word {
            Word::Edit(command) => self.check_edit(nodes, command),
            Word::Unhold(node) => self.check_reference(node),
            Word::Hold(node) => self.check_hold(node),
            Word::Wait(_) => Ok(()),
        }
    }

    /// Counts an accepted word.
    pub fn apply(&mut self, word: &Word)
        requires { (nodes : List Node) × IsOf nodes self.old × NamesNode nodes word.now × (fault_at nodes self.old word.now ≡ None) }
        ensures counted { self.new ≡ after self.old word.now }
        ensures nodes { (nodes : List Node) → IsOf nodes self.old → IsOf nodes self.new }
    {
        match *word {
            Word::Edit(Command::Begin { node, id }) => set_gate(&mut self.gates, node, id, true),
            Word::Edit(Command::End { node, id }) => set_gate(&mut self.gates, node, id, false),
            Word::Hold(node) => {
                let references = &mut self.references[node as usize];
                references.holds += 1;
                references.held += 1;
            }
            Word::Unhold(node) => self.references[node as usize].held -= 1,
            _ => {}
        }
    }

    /// How many holds of a node were accepted.
    pub fn holds(&self, node: u32) -> u32
        requires { node < length self.now.references }
        ensures { result ≡ (references_at self.now node).holds }
    {
        self.references[node as usize].holds
    }

    /// How many references to a node the editor has.
    pub fn held(&self, node: u32) -> u32
        requires { node < length self.now.references }
        ensures { result ≡ (references_at self.now node).held }
    {
        self.references[node as usize].held
    }
}

/// The rules that words share.
impl Gestures {
    /// A reference to the node is held.
    fn check_reference(&self, node: u32) -> Result<(), GestureFault>
        requires { node < length self.now.references }
        ensures { result ≡ judged (no_reference (counts_in self.now) node ∷ []) }
    {
        if self.references[node as usize].held == 0 {
            return Err(GestureFault::NoReference);
        }
        Ok(())
    }

    fn check_hold(&self, node: u32) -> Result<(), GestureFault>
        requires { node < length self.now.references }
        ensures { result ≡ judged (no_reference (counts_in self.now) node ∷ too_many_holds (counts_in self.now) node ∷ []) }
    {
        self.check_reference(node)?;
        if self.references[node as usize].holds >= MOST_HOLDS {
            return Err(GestureFault::TooManyHolds);
        }
        Ok(())
    }

    /// A reference is held, and the parameter is one that can be set.
    fn check_param(&self, nodes: &NodeTable, node: u32, id: u32) -> Result<(), GestureFault>
        requires { node < length self.now.references }
        ensures { result ≡ judged (no_reference (counts_in self.now) node ∷ unknown (nodes_of nodes.now) node id ∷ read_only (nodes_of nodes.now) node id ∷ []) }
    {
        self.check_reference(node)?;
        match nodes.info(node, id) {
            None => Err(GestureFault::UnknownParam),
            Some(param) => {
                if param.is_read_only() {
                    return Err(GestureFault::ReadOnly);
                }
                Ok(())
            }
        }
    }

    fn is_open(&self, node: u32, id: u32) -> bool
        ensures { result ≡ is_open self.now.gates node id }
    {
        self.gates
            .iter()
            .any(|gate| gate.node == node && gate.id == id && gate.opened)
    }

    fn check_edit(&self, nodes: &NodeTable, command: Command) -> Result<(), GestureFault>
        requires nodes { IsOf (nodes_of nodes.now) self.now }
        requires node { NamesNode (nodes_of nodes.now) (Edit command) }
        ensures { result ≡ judged (rules (nodes_of nodes.now) (counts_in self.now) (Edit command)) }
    {
        match command {
            Command::Begin { node, id } => self.check_begin(nodes, node, id),
            Command::Perform { node, id, value } => self.check_perform(nodes, node, id, value),
            Command::End { node, id } => self.check_end(nodes, node, id),
            Command::Tell { node, .. } => self.check_reference(node),
        }
    }

    fn check_begin(&self, nodes: &NodeTable, node: u32, id: u32) -> Result<(), GestureFault>
        requires { node < length self.now.references }
        ensures { result ≡ judged (rules (nodes_of nodes.now) (counts_in self.now) (Edit (Begin node id))) }
    {
        self.check_param(nodes, node, id)?;
        if self.is_open(node, id) {
            return Err(GestureFault::AlreadyOpen);
        }
        Ok(())
    }

    fn check_perform(
        &self,
        nodes: &NodeTable,
        node: u32,
        id: u32,
        value: u32,
    ) -> Result<(), GestureFault>
        requires { node < length self.now.references }
        ensures { result ≡ judged (rules (nodes_of nodes.now) (counts_in self.now) (Edit (Perform node id value))) }
    {
        self.check_param(nodes, node, id)?;
        if value > ONE {
            return Err(GestureFault::OutOfRange(value));
        }
        if !self.is_open(node, id) {
            return Err(GestureFault::NotOpen);
        }
        Ok(())
    }

    fn check_end(&self, nodes: &NodeTable, node: u32, id: u32) -> Result<(), GestureFault>
        requires { node < length self.now.references }
        ensures { result ≡ judged (rules (nodes_of nodes.now) (counts_in self.now) (Edit (End node id))) }
    {
        self.check_param(nodes, node, id)?;
        if !self.is_open(node, id) {
            return Err(GestureFault::NotOpen);
        }
        Ok(())
    }
}

/// The gates of a node with these parameters.
fn push_gates(gates: &mut Vec<Gate>, node: u32, params: &[ParamInfo]) -> Result<(), AllocError>
    ensures { OnOk result (gates.new.items ≡ gates.old.items ++ gates_of node params.now) }
{
    for param in params {
        gates.push(Gate {
            node,
            id: param.id,
            opened: false,
        })?;
    }
    Ok(())
}

/// Opens or closes the gate of a parameter.
fn set_gate(gates: &mut Vec<Gate>, node: u32, id: u32, opened: bool)
    ensures { gates.new.items ≡ mark node id opened gates.old.items }
{
    for i in 0..gates.len() {
        gates[i] = gates[i].marked(node, id, opened);
    }
}
