//! The nodes' classes and their wires.

ghost use Rattle.std.specs.Prelude.{◌≡◌, ◌<◌, ◌≤◌, ◌++◌, map, false, All, IfOk, OnOk};
ghost use Rattle.std.specs.List.{range_with_len};
ghost use Rattle.vh_gen.specs.Draws.{draw};
ghost use Rattle.vh_gen.specs.Nodes.{source_from, behind_node, node_state, kinds_from, wire_out, wires_from};

use crate::draws::Draws;
use std::alloc::{AllocError, Global};
use vh_session::{End, Wire};

/// What is drawn of the nodes.
#[derive(Drop)]
pub(crate) struct Graph {
    /// The place of each node's class, of the first eight.
    pub(crate) kinds: Vec<u32>,
    pub(crate) wires: Vec<Wire>,
}

/// A node's class, and where its wire begins.
fn draw_node(draws: &mut Draws, node: u32) -> (u32, End)
    ensures kind { result.0 ≡ draw draws.old.state 0 8 }
    ensures within { result.0 < 8 }
    ensures source { result.1 ≡ source_from draws.old.state node }
    ensures state { draws.new.state ≡ behind_node node draws.old.state }
{
    let kind = draws.below(8);
    if node == 0 {
        (kind, End::In)
    } else {
        (kind, End::Node(draws.below(node)))
    }
}

/// A wire into a main bus.
fn wire(from: End, to: End) -> Wire
    ensures { result ≡ record { from = from; to = to; aux = false } }
{
    Wire {
        from,
        to,
        aux: false,
    }
}

/// The nodes, so many, with a wire to each, and a wire from each to the output.
pub(crate) fn draw_graph(alloc: Global, draws: &mut Draws, count: u32) -> Result<Graph, AllocError>
    requires { count ≤ 64 }
    ensures kinds { IfOk result (λ graph. graph.kinds.items ≡ kinds_from draws.old.state count) }
    ensures within { IfOk result (λ graph. All (λ kind. kind < 8) graph.kinds.items) }
    ensures wires { IfOk result (λ graph. graph.wires.items ≡ wires_from draws.old.state count) }
    ensures state { OnOk result (draws.new.state ≡ node_state draws.old.state count) }
{
    let mut kinds = Vec::new(alloc);
    let mut wires = Vec::new(alloc);
    for node in 0..count {
        let (kind, from) = draw_node(draws, node);
        kinds.push(kind)?;
        wires.push(wire(from, End::Node(node)))?;
    }
    add_outs(&mut wires, count)?;
    Ok(Graph { kinds, wires })
}

/// A wire from each node to the output.
fn add_outs(wires: &mut Vec<Wire>, count: u32) -> Result<(), AllocError>
    ensures { OnOk result (wires.new.items ≡ wires.old.items ++ map wire_out (range_with_len 0 count)) }
{
    for node in 0..count {
        wires.push(wire(End::Node(node), End::Out))?;
    }
    Ok(())
}
