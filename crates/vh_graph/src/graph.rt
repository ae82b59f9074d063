//! A graph of nodes and wires.

ghost use Rattle.std.specs.Prelude.{◌≡◌, ◌<◌, ℕ, ◌^◌, List, [], length, All, IfOk, IfErr, OnOk};
ghost use Rattle.std.specs.declared.alloc.Global.{Global};
ghost use Rattle.vh_graph.specs.Paths.{AreLinked, AreLayers, IsOnCycle, sources_of};
ghost use Rattle.vh_graph.specs.Order.{IsOrder};
ghost use Rattle.vh_graph.specs.Model.{NamesLeast};

use crate::layer::layers_of;
use crate::order::order_of;
use crate::search::least_on_cycle;
use crate::wires::sources_by_node;
use std::alloc::{AllocError, Global};
use thiserror::Error;
use vh_num::Refusal;

/// The least node that is on a cycle.
#[derive(Clone, Copy, Debug, PartialEq, Eq, Error)]
#[error("node {node} is on a cycle")]
pub struct Cycle {
    pub node: u32,
}

/// Why these wires have no order.
fn refused(alloc: Global, sources: &[Vec<u32>]) -> Refusal<Cycle>
    requires count { length sources.now < 2 ^ 32 }
    requires cyclic { (wires : List (ℕ × ℕ)) × AreLinked wires sources.now × (¬ ((order : List ℕ) × IsOrder (length sources.now) wires order)) }
    ensures { (wires : List (ℕ × ℕ)) → AreLinked wires sources.now → NamesLeast wires result }
{
    match least_on_cycle(alloc, sources) {
        Ok(found) => Refusal::Fault(Cycle {
            node: found.unwrap(),
        }),
        Err(AllocError) => Refusal::Memory,
    }
}

/// Nodes, numbered from 0, and wires from node to node, without a cycle.
#[derive(Drop)]
pub struct Graph {
    order: Vec<u32>,
    layers: Vec<u32>,
    sources: Vec<Vec<u32>>,
}

impl Graph {
    ghost use Rattle.vh_graph.specs.Model.{node_count, order_in, layers_in, sources_in};

    /// The graph of so many nodes and these wires (source, node). Takes time linear in nodes and wires, up to a
    /// logarithm.
    ///
    /// Refused where the wires have a cycle, by the least node on any. A wire from a node to itself is a cycle.
    pub fn new(alloc: Global, n: u32, wires: &[(u32, u32)]) -> Result<Graph, Refusal<Cycle>>
        requires within { All (λ wire. (wire.0 < n) × (wire.1 < n)) wires.now }
        ensures nodes { IfOk result (λ graph. node_count graph ≡ n) }
        ensures order { IfOk result (λ graph. IsOrder n wires.now (order_in graph)) }
        ensures layers_long { IfOk result (λ graph. length (layers_in graph) ≡ n) }
        ensures layers { IfOk result (λ graph. AreLayers wires.now (layers_in graph)) }
        ensures sources { IfOk result (λ graph. (node : ℕ) → node < n → sources_in graph node ≡ sources_of wires.now node) }
        ensures free { OnOk result ((node : ℕ) → ¬ IsOnCycle wires.now node) }
        ensures cycle { IfErr result (NamesLeast wires.now) }
    {
        let sources = sources_by_node(alloc, n, wires)?;
        let found = order_of(alloc, &sources)?;
        let Some(order) = found else {
            return Err(refused(alloc, &sources));
        };
        let layers = layers_of(alloc, &sources, &order)?;
        Ok(Graph {
            order,
            layers,
            sources,
        })
    }

    /// The nodes in the order in which they run: each after its sources, the least number first among those that
    /// are ready.
    pub fn order(&self) -> &[u32]
        ensures { result.now ≡ order_in self.now }
    {
        &self.order
    }

    /// Each node's longest distance, in wires, from a node without sources.
    pub fn layers(&self) -> &[u32]
        ensures { result.now ≡ layers_in self.now }
    {
        &self.layers
    }

    /// The nodes that have a wire to this one, in the wires' order.
    pub fn sources(&self, node: u32) -> &[u32]
        requires { node < node_count self.now }
        ensures { result.now ≡ sources_in self.now node }
    {
        &self.sources[node as usize]
    }
}
