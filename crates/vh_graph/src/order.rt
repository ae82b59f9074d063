//! The order in which the nodes run.

ghost use Rattle.std.specs.Prelude.{◌≡◌, ◌≤◌, ◌<◌, ◌^◌, ◌++◌, ◌-◌, Bool, true, false, List, ℕ, [], ◌∷◌, take, drop, length, All, Contains, slice_index_or, set, Option, Some, None, Vec, IfOk, OnOk, IfSome};
ghost use Rattle.std.specs.declared.alloc.Global.{Global};
ghost use Rattle.vh_graph.specs.Paths.{AreLinked};
ghost use Rattle.vh_graph.specs.Order.{FindsOrder};
ghost use Rattle.vh_graph.specs.Steps.{IsPassed, IsLooked, IsBegun};

use crate::wires::empty_lists;
use std::alloc::{AllocError, Global};
use std::collections::BTreeSet;
use std::mem;

/// Nodes on their way into an order.
#[derive(Drop)]
struct Placing {
    order: Vec<u32>,
    stands: Vec<bool>,
    /// How many of a node's sources, from the first on, are known to stand.
    passed: Vec<usize>,
    /// The nodes that wait for this one.
    waiting: Vec<Vec<u32>>,
    ready: BTreeSet<u32>,
}

/// The place of the first source, from this one on, that doesn't stand, or the number of all.
fn first_missing(stands: &[bool], sources: &[u32], passed: usize) -> usize
    requires within { All (λ source. source < length stands.now) sources.now }
    requires place { passed ≤ length sources.now }
    ensures { IsPassed stands.now sources.now passed result }
{
    for i in passed..sources.len() {
        if !stands[sources[i] as usize] {
            return i;
        }
    }
    sources.len()
}

impl Placing {
    /// Nodes none of which stands yet.
    fn new(alloc: Global, nodes: usize) -> Result<Placing, AllocError>
        requires { nodes < 2 ^ 32 }
        ensures begun { IfOk result (IsBegun nodes) }
    {
        Ok(Placing {
            order: Vec::new(alloc),
            stands: vec![in alloc; false; nodes]?,
            passed: vec![in alloc; 0usize; nodes]?,
            waiting: empty_lists(alloc, nodes as u32)?,
            ready: BTreeSet::new(alloc),
        })
    }

    /// Finds out what a node waits for, or that it is ready.
    fn look(&mut self, node: u32, sources: &[u32]) -> Result<(), AllocError>
        requires node { node < length self.old.passed.items }
        requires within { All (λ source. source < length self.old.stands.items) sources.now }
        requires lists { length self.old.waiting.items ≡ length self.old.stands.items }
        requires place { slice_index_or self.old.passed.items node 0 ≤ length sources.now }
        ensures looked { OnOk result (IsLooked node sources.now self.old self.new) }
    {
        let passed = first_missing(&self.stands, sources, self.passed[node as usize]);
        self.passed[node as usize] = passed;
        match sources.get(passed) {
            Some(&source) => self.waiting[source as usize].push(node)?,
            None => {
                self.ready.insert(node)?;
            }
        }
        Ok(())
    }
}

/// Puts the nodes in order: each after its sources, the least first among those that are ready. Answers none
/// where there is no order. Takes time linear in nodes and wires, up to a logarithm.
pub(crate) fn order_of(alloc: Global, sources: &[Vec<u32>]) -> Result<Option<Vec<u32>>, AllocError>
    requires count { length sources.now < 2 ^ 32 }
    requires linked { (wires : List (ℕ × ℕ)) × AreLinked wires sources.now }
    ensures order { (wires : List (ℕ × ℕ)) → AreLinked wires sources.now → IfOk result (FindsOrder (length sources.now) wires) }
    ensures fits { IfOk result (λ found. IfSome found (λ order. length order.items ≤ length sources.now)) }
{
    let mut placing = Placing::new(alloc, sources.len())?;
    for node in 0..sources.len() {
        placing.look(node as u32, &sources[node])?;
    }
    while let Some(node) = placing.ready.pop_first() {
        placing.order.push(node)?;
        placing.stands[node as usize] = true;
        let waiting = mem::replace(&mut placing.waiting[node as usize], Vec::new(alloc));
        for &next in &waiting {
            placing.look(next, &sources[next as usize])?;
        }
    }
    if placing.stands.contains(&false) {
        Ok(None)
    } else {
        Ok(Some(placing.order))
    }
}
