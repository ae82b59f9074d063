//! A session.

ghost use Rattle.std.specs.Prelude.{◌≡◌, ◌<◌, ℕ, All, IfOk, length};
ghost use Rattle.vh_cut.specs.Cut.{IsPattern};
ghost use Rattle.vh_graph.specs.Paths.{IsOnCycle};
ghost use Rattle.vh_params.specs.Nodes.{nodes_of};
ghost use Rattle.vh_session.specs.Content.{node_wires, sources_into};
ghost use Rattle.vh_session.specs.Props.{session_prop};
ghost use Rattle.vh_session.specs.Keeps.{Begins, IsSession};
ghost use Rattle.vh_session.specs.Parts.{HasSteps, content_from};

use crate::finish::node_wires;
use crate::wire::{End, Wire};
use std::alloc::{AllocError, Global};
use vh_lane::Lane;
use vh_params::{NodeTable, Word};

/// What is rendered: how long, over which nodes and wires, with which first values, lanes and scripts.
#[derive(Drop)]
pub struct Session {
    /// Frames, 0 to 2^24.
    pub length: u32,
    /// 1 or 2.
    pub channels: u16,
    /// Of the output, 16 or 24.
    pub bits: u16,
    /// 1 to 16 sizes of blocks, of 1 to 8192 frames.
    pub pattern: Vec<u32>,
    pub nodes: NodeTable,
    /// Nodes with the files of their presets, by rising node.
    pub presets: Vec<(u32, Vec<u8>)>,
    /// Nodes, ids and normalised first values, by rising node and then id.
    pub firsts: Vec<(u32, u32, u32)>,
    pub wires: Vec<Wire>,
    /// Nodes, ids and their lanes, each with its parameter's steps.
    pub lanes: Vec<(u32, u32, Lane)>,
    /// By editor.
    pub scripts: Vec<Vec<Word>>,
    ghost keeps: { IsSession (content_from length channels bits pattern.items nodes presets.items firsts.items wires.items lanes.items scripts.items) } by { session_prop (content_from length channels bits pattern.items nodes presets.items firsts.items wires.items lanes.items scripts.items) },
    ghost stepped: { All (HasSteps nodes) lanes.items },
}

impl Session {
    ghost use Rattle.vh_session.specs.Names.{content_of};

    /// The sizes of blocks, 1 to 16 of them, each of 1 to 8192 frames.
    #[tactic(auto, using(crate::proofs::Wired::is_pattern))]
    pub fn block_sizes(&self) -> &[u32]
        ensures sizes { result.now ≡ (content_of self.now).pattern }
        ensures pattern { IsPattern result.now }
    {
        &self.pattern
    }

    /// Where the wires begin that reach the main bus of this end, or its aux bus, in the session's order.
    #[tactic(auto, using(crate::proofs::Wired::all_begin))]
    pub fn sources(&self, alloc: Global, to: End, aux: bool) -> Result<Vec<End>, AllocError>
        ensures sources { IfOk result (λ sources. sources.items ≡ sources_into (content_of self.now).wires to aux) }
        ensures there { IfOk result (λ sources. All (Begins (length (nodes_of self.now.nodes))) sources.items) }
    {
        let mut sources = Vec::new(alloc);
        for wire in &self.wires {
            if wire.to == to && wire.aux == aux {
                sources.push(wire.from)?;
            }
        }
        Ok(sources)
    }

    /// The wires between nodes (source, node), in the session's order: a graph without a cycle.
    #[tactic(auto, using(crate::proofs::PartsNamed::names_nodes))]
    pub fn node_wires(&self, alloc: Global) -> Result<Vec<(u32, u32)>, AllocError>
        ensures wires { IfOk result (λ between. between.items ≡ node_wires (content_of self.now).wires) }
        ensures within { IfOk result (λ between. All (λ wire. (wire.0 < length (nodes_of self.now.nodes)) × (wire.1 < length (nodes_of self.now.nodes))) between.items) }
        ensures free { (node : ℕ) → ¬ IsOnCycle (node_wires (content_of self.now).wires) node }
    {
        node_wires(alloc, &self.wires, self.nodes.len())
    }
}
