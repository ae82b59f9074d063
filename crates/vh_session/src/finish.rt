//! What a session's lines come to in the end.

ghost use Rattle.std.specs.Prelude.{◌≡◌, ◌<◌, ◌≤◌, ℕ, List, length, map, All, IfOk, IfErr, IfSome, OnOk, IsSome, ◌++◌, slice_index_or};
ghost use Rattle.vh_session.specs.Content.{node_wires, between_nodes, first_of, value_in, firsts_from, presets_from, content_in};
ghost use Rattle.vh_session.specs.Keeps.{IsSession};
ghost use Rattle.vh_session.specs.Names.{content_of};
ghost use Rattle.vh_session.specs.Parts.{HasSteps, laned, preset_text};
ghost use Rattle.vh_params.specs.Nodes.{nodes_of, info_in};
ghost use Rattle.std.specs.List.{filter_map};
ghost use Rattle.vh_session.specs.Sound.{WireFits, IsSound};
ghost use Rattle.vh_session.specs.View.{draft_in, lane_text, preset_of};
ghost use Rattle.vh_session.specs.Ended.{NamesCycle};
ghost use Rattle.vh_graph.specs.Paths.{IsOnCycle};
ghost use Rattle.vh_session.specs.Limits.{most_nodes};

use crate::draft::{Draft, LaneDraft, Mark};
use crate::fault::{SessionFault, SessionKind};
use crate::session::Session;
use crate::wire::{End, Wire};
use std::alloc::{AllocError, Global};
use vh_graph::Graph;
use vh_lane::Lane;
use vh_num::Refusal;
use vh_params::{NodeTable, ParamInfo};

/// The nodes of a wire between two.
fn between_nodes(wire: &Wire) -> Option<(u32, u32)>
    ensures ends { result ≡ between_nodes wire.now }
    ensures within { (nodes : ℕ) → WireFits nodes wire.now → IfSome result (λ pair. (pair.0 < nodes) × (pair.1 < nodes)) }
{
    match (wire.from, wire.to) {
        (End::Node(from), End::Node(to)) => Some((from, to)),
        _ => None,
    }
}

/// The wires between nodes.
pub(crate) fn node_wires(
    alloc: Global,
    wires: &[Wire],
    nodes: u32,
) -> Result<Vec<(u32, u32)>, AllocError>
    requires { All (λ wire. WireFits nodes wire) wires.now }
    ensures wires { IfOk result (λ between. between.items ≡ node_wires wires.now) }
    ensures within { IfOk result (λ between. All (λ wire. (wire.0 < nodes) × (wire.1 < nodes)) between.items) }
{
    let mut between = Vec::new(alloc);
    for wire in wires {
        let Some(pair) = between_nodes(wire) else {
            continue;
        };
        between.push(pair)?;
    }
    Ok(between)
}

impl Draft {
    /// Refuses wires that have a cycle, at the line of the least node on any.
    pub(crate) fn check_cycles(&self, alloc: Global) -> Result<(), Refusal<SessionFault>>
        requires { IsSound self.now }
        ensures free { OnOk result ((node : ℕ) → ¬ IsOnCycle (node_wires self.now.wires.items) node) }
        ensures cycle { IfErr result (NamesCycle (draft_in self.now)) }
    {
        let count = self.nodes.len();
        let wires = node_wires(alloc, &self.wires, count)?;
        match Graph::new(alloc, count, &wires) {
            Ok(_) => Ok(()),
            Err(Refusal::Fault(cycle)) => Err(Refusal::Fault(SessionFault {
                line: self.line_of_node(cycle.node),
                kind: SessionKind::Cycle(cycle.node),
            })),
            Err(Refusal::Memory) => Err(Refusal::Memory),
        }
    }

    /// The line of a node.
    fn line_of_node(&self, node: u32) -> u32
        ensures { result ≡ slice_index_or (draft_in self.now).lines node 0 }
    {
        match self.marks.get(node as usize) {
            Some(mark) => mark.line,
            None => 0,
        }
    }
}

/// The lane of a draft, with the steps of its parameter.
fn lane(alloc: Global, nodes: &NodeTable, draft: &LaneDraft) -> Result<Lane, AllocError>
    requires { IsSome (info_in (nodes_of nodes.now) draft.now.node draft.now.id) }
    ensures lane { IfOk result (λ lane. laned (draft.now.node, draft.now.id, lane) ≡ lane_text draft.now) }
    ensures steps { IfOk result (λ lane. HasSteps nodes.now (draft.now.node, draft.now.id, lane)) }
{
    let param = nodes.info(draft.node, draft.id).unwrap();
    Lane::new(alloc, param.steps, draft.grain, &draft.breaks)
}

/// The lanes of drafts.
fn lanes(
    alloc: Global,
    nodes: &NodeTable,
    drafts: &[LaneDraft],
) -> Result<Vec<(u32, u32, Lane)>, AllocError>
    requires { All (λ lane. IsSome (info_in (nodes_of nodes.now) lane.node lane.id)) drafts.now }
    ensures lanes { IfOk result (λ lanes. map laned lanes.items ≡ map lane_text drafts.now) }
    ensures steps { IfOk result (λ lanes. All (HasSteps nodes.now) lanes.items) }
{
    let mut lanes = Vec::new(alloc);
    for draft in drafts {
        let lane = lane(alloc, nodes, draft)?;
        lanes.push((draft.node, draft.id, lane))?;
    }
    Ok(lanes)
}

/// The value of this parameter among first values (id, value).
fn first_value(firsts: &[(u32, u32)], id: u32) -> Option<u32>
    ensures { result ≡ value_in firsts.now id }
{
    for &(i, value) in firsts {
        if i == id {
            return Some(value);
        }
    }
    None
}

/// Adds a node's first values, by rising id.
fn add_firsts(
    firsts: &mut Vec<(u32, u32, u32)>,
    node: u32,
    params: &[ParamInfo],
    given: &[(u32, u32)],
) -> Result<(), AllocError>
    ensures { OnOk result (firsts.new.items ≡ firsts.old.items ++ filter_map (first_of node given.now) params.now) }
{
    for param in params {
        let Some(value) = first_value(given, param.id) else {
            continue;
        };
        firsts.push((node, param.id, value))?;
    }
    Ok(())
}

/// The first values of all nodes, by rising node and then id.
fn firsts(
    alloc: Global,
    nodes: &NodeTable,
    marks: &[Mark],
) -> Result<Vec<(u32, u32, u32)>, AllocError>
    requires { length marks.now ≡ length (nodes_of nodes.now) }
    ensures { IfOk result (λ firsts. firsts.items ≡ firsts_from 0 (nodes_of nodes.now) (map (λ mark. mark.firsts.items) marks.now)) }
{
    let mut firsts = Vec::new(alloc);
    for node in 0..nodes.len() {
        let given = &marks[node as usize].firsts;
        add_firsts(&mut firsts, node, nodes.table(node).params(), given)?;
    }
    Ok(firsts)
}

/// The presets by rising node.
fn presets(alloc: Global, marks: Vec<Mark>) -> Result<Vec<(u32, Vec<u8>)>, AllocError>
    requires { length marks.items ≤ most_nodes }
    ensures { IfOk result (λ presets. map preset_text presets.items ≡ presets_from 0 (map preset_of marks.items)) }
{
    let mut presets = Vec::new(alloc);
    let mut node = 0;
    for mark in marks {
        let Mark {
            line: _,
            aux: _,
            preset,
            firsts: _,
        } = mark;
        if let Some(file) = preset {
            presets.push((node, file))?;
        }
        node += 1;
    }
    Ok(presets)
}

impl Draft {
    /// The session of lines that are complete.
    pub(crate) fn finish(self, alloc: Global) -> Result<Session, AllocError>
        requires sound { IsSound self }
        requires keeps { IsSession (content_in (draft_in self)) }
        ensures { IfOk result (λ session. content_of session ≡ content_in (draft_in self)) }
    {
        let lanes = lanes(alloc, &self.nodes, &self.lanes)?;
        let firsts = firsts(alloc, &self.nodes, &self.marks)?;
        let Draft {
            frames,
            channels,
            bits,
            pattern,
            nodes,
            marks,
            wires,
            lanes: _,
            in_lane: _,
            scripts,
            script_count: _,
        } = self;
        let presets = presets(alloc, marks)?;
        Ok(Session {
            length: frames.unwrap_or(0),
            channels: channels.unwrap_or(0) as u16,
            bits: bits.unwrap_or(0) as u16,
            pattern,
            nodes,
            presets,
            firsts,
            wires,
            lanes,
            scripts,
        })
    }
}
