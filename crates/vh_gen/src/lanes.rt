//! The lanes.

ghost use Rattle.std.specs.Prelude.{◌≡◌, ◌≤◌, ◌++◌, map, All, IfOk, IfSome, OnOk};
ghost use Rattle.vh_lane.specs.Kept.{steps_of, grain_of, breaks_of};
ghost use Rattle.vh_params.specs.Nodes.{nodes_of};
ghost use Rattle.vh_session.specs.Parts.{laned, HasSteps};
ghost use Rattle.vh_gen.specs.Draws.{behind};
ghost use Rattle.vh_gen.specs.Lanes.{IsFirstToSet, breaks_from, lane_at, behind_lane, lanes_of, lanes_end};

use crate::draws::Draws;
use std::alloc::{AllocError, Global};
use vh_lane::Lane;
use vh_params::{NodeTable, ParamInfo};

/// Values are rounded down to multiples of 2^12.
const GRAIN: u32 = 12;

/// A lane for a parameter of so many steps.
fn draw_lane(alloc: Global, draws: &mut Draws, steps: u32) -> Result<Lane, AllocError>
    requires { steps ≤ 4095 }
    ensures steps { IfOk result (λ lane. steps_of lane ≡ steps) }
    ensures grain { IfOk result (λ lane. grain_of lane ≡ 12) }
    ensures breaks { IfOk result (λ lane. breaks_of lane ≡ breaks_from draws.old.state) }
    ensures state { draws.new.state ≡ behind 4 draws.old.state }
{
    let first = draws.value();
    let second = draws.value();
    let third = draws.value();
    let last = draws.value();
    let breaks = [
        (0, first),
        (16_384, second),
        (32_768, third),
        (49_152, last),
    ];
    Lane::new(alloc, steps, GRAIN, &breaks)
}

/// A node's first parameter, where it can be set.
fn first_to_set(nodes: &NodeTable, node: u32) -> Option<&ParamInfo>
    ensures first { IsFirstToSet (nodes_of nodes.now) node result }
    ensures steps { IfSome result (λ param. param.now.steps ≤ 4095) }
{
    match nodes.info(node, 0) {
        Some(param) => {
            if param.is_read_only() {
                None
            } else {
                Some(param)
            }
        }
        None => None,
    }
}

/// A node's lane, where it has one.
fn add_lane(
    alloc: Global,
    draws: &mut Draws,
    nodes: &NodeTable,
    node: u32,
    lanes: &mut Vec<(u32, u32, Lane)>,
) -> Result<(), AllocError>
    requires { All (HasSteps nodes.now) lanes.old.items }
    ensures lanes { OnOk result (map laned lanes.new.items ≡ map laned lanes.old.items ++ lane_at (nodes_of nodes.now) draws.old.state node) }
    ensures steps { OnOk result (All (HasSteps nodes.now) lanes.new.items) }
    ensures state { OnOk result (draws.new.state ≡ behind_lane (nodes_of nodes.now) draws.old.state node) }
{
    let Some(param) = first_to_set(nodes, node) else {
        return Ok(());
    };
    let lane = draw_lane(alloc, draws, param.steps)?;
    lanes.push((node, 0, lane))?;
    Ok(())
}

/// A lane on the first parameter of each node that has it to set.
pub(crate) fn draw_lanes(
    alloc: Global,
    draws: &mut Draws,
    nodes: &NodeTable,
) -> Result<Vec<(u32, u32, Lane)>, AllocError>
    ensures lanes { IfOk result (λ lanes. map laned lanes.items ≡ lanes_of (nodes_of nodes.now) draws.old.state) }
    ensures steps { IfOk result (λ lanes. All (HasSteps nodes.now) lanes.items) }
    ensures state { OnOk result (draws.new.state ≡ lanes_end (nodes_of nodes.now) draws.old.state) }
{
    let mut lanes = Vec::new(alloc);
    for node in 0..nodes.len() {
        add_lane(alloc, draws, nodes, node, &mut lanes)?;
    }
    Ok(lanes)
}
