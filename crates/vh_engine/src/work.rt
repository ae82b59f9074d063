//! What an engine works with.

ghost use Rattle.std.specs.Prelude.{◌≡◌, ◌≤◌, length, sum_by, All, IfOk};
ghost use Rattle.vh_params.specs.Nodes.{nodes_of};
ghost use Rattle.vh_engine.specs.Fresh.{IsFreshWork};

use crate::control::Control;
use crate::plan::{boards_of, order_of, seats_of};
use crate::seat::Seat;
use crate::space::Space;
use std::alloc::{AllocError, Global};
use vh_params::Reply;
use vh_session::{End, Session};

/// The plan of the nodes, what is kept of them between samples, and the room that they use.
#[derive(Drop)]
pub(crate) struct Work {
    /// The nodes, each after its sources.
    pub(crate) order: Vec<u32>,
    pub(crate) seats: Vec<Seat>,
    /// The ends of the wires that reach the output.
    pub(crate) ends: Vec<End>,
    pub(crate) boards: Vec<Vec<Control>>,
    /// Each node's samples of the block, channel after channel.
    pub(crate) rows: Vec<Vec<i32>>,
    pub(crate) space: Space,
    /// Room for the values that come with a message.
    pub(crate) given: Vec<u32>,
    /// What is seen of all parameters.
    pub(crate) values: Vec<u32>,
    pub(crate) replies: Vec<Reply>,
    /// The next sample.
    pub(crate) pos: u32,
    /// The most frames of a block.
    pub(crate) max: usize,
    pub(crate) flushed: bool,
}

/// A row of so many samples for each node.
fn silent_rows(alloc: Global, nodes: u32, size: usize) -> Result<Vec<Vec<i32>>, AllocError>
    ensures long { IfOk result (λ rows. length rows.items ≡ nodes) }
    ensures rows { IfOk result (λ rows. All (λ row. length row.items ≡ size) rows.items) }
{
    let mut rows = Vec::new(alloc);
    for _ in 0..nodes {
        rows.push(vec![in alloc; 0i32; size]?)?;
    }
    Ok(rows)
}

impl Work {
    /// What a session needs, for blocks of at most `max` frames, with room for so many replies, before the first
    /// sample.
    pub(crate) fn new(
        alloc: Global,
        session: &Session,
        firsts: &[u32],
        max: usize,
        tells: usize,
    ) -> Result<Work, AllocError>
        requires firsts { sum_by (λ node. length node.params) (nodes_of session.now.nodes) ≡ length firsts.now }
        requires most { max ≤ 8192 }
        ensures { IfOk result (IsFreshWork session.now firsts.now max tells) }
    {
        let size = usize::from(session.channels) * max;
        Ok(Work {
            order: order_of(alloc, session)?,
            seats: seats_of(alloc, session)?,
            ends: session.sources(alloc, End::Out, false)?,
            boards: boards_of(alloc, session, firsts)?,
            rows: silent_rows(alloc, session.nodes.len(), size)?,
            space: Space::new(alloc, size, max)?,
            given: vec![in alloc; 0u32; 64]?,
            values: Vec::from_slice(alloc, firsts)?,
            replies: Vec::with_capacity(alloc, tells)?,
            pos: 0,
            max,
            flushed: false,
        })
    }
}
