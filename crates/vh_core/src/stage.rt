//! What a session is played with.

ghost use Rattle.std.specs.Prelude.{◌≡◌, ◌≤◌, length, map, IfOk};
ghost use Rattle.vh_graph.specs.Order.{IsOrder};
ghost use Rattle.vh_params.specs.Nodes.{nodes_of};
ghost use Rattle.vh_session.specs.Content.{node_wires};
ghost use Rattle.vh_session.specs.Names.{content_of};
ghost use Rattle.vh_legal.specs.Values.{AreFirsts};

use std::alloc::{AllocError, Global};
use vh_graph::Graph;
use vh_points::Points;
use vh_session::Session;

/// What of a session stays.
#[derive(Drop)]
pub(crate) struct Plan {
    /// The first values, node by node and within each by rising id.
    pub(crate) firsts: Vec<u32>,
    /// The nodes, each after its sources.
    pub(crate) order: Vec<u32>,
    /// A frame of silence.
    pub(crate) input: Vec<i32>,
    /// No points.
    pub(crate) points: Points,
}

/// Room for a sample.
#[derive(Drop)]
pub(crate) struct Room {
    /// Each node's frame.
    pub(crate) frames: Vec<Vec<i32>>,
    /// Each node's values.
    pub(crate) values: Vec<Vec<u32>>,
    /// What reaches a main bus, and an aux bus.
    pub(crate) main: Vec<i32>,
    pub(crate) aux: Vec<i32>,
}

/// The nodes, each after its sources.
fn order_of(alloc: Global, session: &Session) -> Result<Vec<u32>, AllocError>
    ensures { IfOk result (λ order. IsOrder (length (nodes_of session.now.nodes)) (node_wires (content_of session.now).wires) order.items) }
{
    let wires = session.node_wires(alloc)?;
    match Graph::new(alloc, session.nodes.len(), &wires) {
        Ok(graph) => Vec::from_slice(alloc, graph.order()),
        Err(_) => Err(AllocError),
    }
}

impl Plan {
    ghost use Rattle.vh_core.specs.Stage.{IsPlan};

    pub(crate) fn new(alloc: Global, session: &Session, firsts: &[u32]) -> Result<Plan, AllocError>
        requires { AreFirsts (nodes_of session.now.nodes) firsts.now }
        ensures plan { IfOk result (IsPlan (content_of session.now)) }
        ensures firsts { IfOk result (λ plan. plan.firsts.items ≡ firsts.now) }
    {
        Ok(Plan {
            firsts: Vec::from_slice(alloc, firsts)?,
            order: order_of(alloc, session)?,
            input: vec![in alloc; 0i32; usize::from(session.channels)]?,
            points: Points::new(alloc, 0, 0)?,
        })
    }
}

impl Room {
    ghost use Rattle.vh_core.specs.Stage.{IsRoom};

    pub(crate) fn new(alloc: Global, session: &Session) -> Result<Room, AllocError>
        ensures { IfOk result (IsRoom (content_of session.now)) }
    {
        let channels = usize::from(session.channels);
        let mut frames = Vec::new(alloc);
        let mut values = Vec::new(alloc);
        for node in 0..session.nodes.len() {
            let params = session.nodes.table(node).params();
            frames.push(vec![in alloc; 0i32; channels]?)?;
            values.push(vec![in alloc; 0u32; params.len()]?)?;
        }
        Ok(Room {
            frames,
            values,
            main: vec![in alloc; 0i32; channels]?,
            aux: vec![in alloc; 0i32; channels]?,
        })
    }
}
