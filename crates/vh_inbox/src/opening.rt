ghost use Rattle.std.specs.Prelude.{◌≡◌, ◌≤◌, ◌<◌, ◌^◌, ℕ, List, [], length, sum, slice_index_or, IfOk};
ghost use Rattle.crossbeam_queue.specs.Passes.{view, IsPassOf, ruled_capacity};
ghost use Rattle.vh_params.specs.Nodes.{nodes_of};
ghost use Rattle.vh_inbox.specs.Lists.{empty_lists};
ghost use Rattle.vh_inbox.specs.Rule.{drain_view};
ghost use Rattle.vh_inbox.specs.Values.{new_desk, new_drain};

use crate::desk::Desk;
use crate::drain::Drain;
use crate::rule::{Item, Line, Opening, Quotas, View};
use crossbeam_queue::Pass;
use std::alloc::{AllocError, Global};
use std::marker::Brand;
use std::sync::Arc;
use vh_params::NodeTable;

impl Quotas for Brand {
    ghost use Rattle.std.specs.Prelude.{[]};

    ghost quotas = { [] };
}

/// A queue whose first pass knows the quotas.
fn opened<Q: Quotas>(
    alloc: Global,
    capacity: usize,
    quotas: &[u32],
) -> Result<(Line, Pass<Item, View>), AllocError>
    requires capacity { 0 < capacity }
    requires quotas { quotas.now ≡ Q.quotas }
    ensures capacity { IfOk result (λ r. ruled_capacity r.0 ≡ capacity) }
    ensures pass { IfOk result (λ r. IsPassOf r.0 r.1) }
    ensures knows { IfOk result (λ r. view r.1 ≡ drain_view quotas.now [] (empty_lists 0 (length quotas.now))) }
{
    let (line, mut pass) = Line::ruled(alloc, capacity)?;
    let _ = line.another::<Opening<Q>>(&mut pass);
    Ok((line, pass))
}

/// An inbox for so many editors as there are quotas, at most 8: a desk for each, which may put so many commands
/// as its quota, and the drain. The queue has room for `capacity` commands, from 1 to 4096. The nodes are those
/// that the editors' words name.
pub fn inbox(
    alloc: Global,
    capacity: usize,
    quotas: &[u32],
    nodes: &NodeTable,
) -> Result<(Vec<Desk>, Drain), AllocError>
    requires capacity { (0 < capacity) × (capacity ≤ 4096) }
    requires desks { length quotas.now ≤ 8 }
    requires sum { sum quotas.now < 2 ^ 32 }
    ensures drain { IfOk result (λ r. r.1 ≡ new_drain r.1.inbox capacity quotas.now) }
    ensures count { IfOk result (λ r. length r.0.items ≡ length quotas.now) }
    ensures desks { IfOk result (λ r. (k : ℕ) (d : _) → k < length quotas.now → slice_index_or r.0.items k d ≡ new_desk r.1.inbox capacity quotas.now (nodes_of nodes.now) k) }
{
    let (line, mut pass) = opened::<Brand>(alloc, capacity, quotas)?;
    let line = Arc::new(alloc, line)?;
    let mut desks = Vec::with_capacity(alloc, quotas.len())?;
    for number in 0..quotas.len() {
        let desk = Desk::new(
            alloc,
            &line,
            &mut pass,
            number as u32,
            quotas[number],
            nodes,
        )?;
        desks.push_reserved(desk);
    }
    Ok((desks, Drain::new(line, pass)))
}
