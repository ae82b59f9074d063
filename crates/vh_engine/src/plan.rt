//! What of a session doesn't change from block to block.

ghost use Rattle.std.specs.Prelude.{◌≤◌, List, [], length, sum_by, All, IfOk};
ghost use Rattle.vh_params.specs.Nodes.{nodes_of};
ghost use Rattle.vh_session.specs.Names.{content_of};
ghost use Rattle.vh_engine.specs.declared.seat.Seat.{Seat as Place};
ghost use Rattle.vh_engine.specs.Plans.{AreSeats, IsFirstBoard, IsLaneOf, AreFirstBoards};
ghost use Rattle.vh_engine.specs.Runs.{AreAfter};

use crate::control::Control;
use crate::seat::Seat;
use std::alloc::{AllocError, Global};
use vh_graph::Graph;
use vh_lane::Lane;
use vh_params::ParamInfo;
use vh_session::{End, Session};

/// What reaches each node.
#[tactic(auto, using(crate::proofs::Planned::seat_more, crate::proofs::Planned::seats_of_all))]
pub(crate) fn seats_of(alloc: Global, session: &Session) -> Result<Vec<Seat>, AllocError>
    ensures { IfOk result (λ seats. AreSeats (content_of session.now) seats.items) }
{
    let mut seats = Vec::new(alloc);
    for node in 0..session.nodes.len() {
        let main = session.sources(alloc, End::Node(node), false)?;
        let aux = session.sources(alloc, End::Node(node), true)?;
        seats.push(Seat { main, aux })?;
    }
    Ok(seats)
}

/// The nodes, each after its sources.
#[tactic(auto, using(crate::proofs::Ordered::seats_in_order))]
pub(crate) fn order_of(alloc: Global, session: &Session) -> Result<Vec<u32>, AllocError>
    ensures { (seats : List Place) → AreSeats (content_of session.now) seats → IfOk result (λ order. AreAfter (length (nodes_of session.now.nodes)) seats [] order.items) }
{
    let wires = session.node_wires(alloc)?;
    match Graph::new(alloc, session.nodes.len(), &wires) {
        Ok(graph) => Vec::from_slice(alloc, graph.order()),
        Err(_) => Err(AllocError),
    }
}

/// The place of a parameter's lane.
fn lane_of(lanes: &[(u32, u32, Lane)], node: u32, id: u32) -> Option<usize>
    ensures { IsLaneOf lanes.now node id result }
{
    lanes.iter().position(|lane| lane.0 == node && lane.1 == id)
}

/// A node's parameters at their first values.
fn board_of(
    alloc: Global,
    node: u32,
    params: &[ParamInfo],
    lanes: &[(u32, u32, Lane)],
    firsts: &[u32],
) -> Result<Vec<Control>, AllocError>
    requires firsts { length params.now ≤ length firsts.now }
    requires steps { All (λ param. param.steps ≤ 4095) params.now }
    ensures { IfOk result (λ board. IsFirstBoard lanes.now node params.now firsts.now board.items) }
{
    let mut board = Vec::new(alloc);
    for (param, &first) in params.iter().zip(firsts) {
        board.push(Control {
            id: param.id,
            steps: param.steps,
            shown: param.is_read_only(),
            lane: lane_of(lanes, node, param.id),
            held: first,
            begun: 0,
            ended: 0,
            sent: first,
        })?;
    }
    Ok(board)
}

/// The parameters of each node at their first values, which stand node by node.
pub(crate) fn boards_of(
    alloc: Global,
    session: &Session,
    firsts: &[u32],
) -> Result<Vec<Vec<Control>>, AllocError>
    requires { sum_by (λ node. length node.params) (nodes_of session.now.nodes) ≤ length firsts.now }
    ensures { IfOk result (λ boards. AreFirstBoards session.now.lanes.items (nodes_of session.now.nodes) firsts.now boards.items) }
{
    let mut boards = Vec::new(alloc);
    let mut at = 0;
    for node in 0..session.nodes.len() {
        let params = session.nodes.table(node).params();
        boards.push(board_of(alloc, node, params, &session.lanes, &firsts[at..])?)?;
        at += params.len();
    }
    Ok(boards)
}
