//! Graphs of nodes and wires: the order in which the nodes run.
#![tactic(auto)]

mod graph;
pub mod laws;
mod layer;
mod order;
mod search;
mod wires;

pub use graph::{Cycle, Graph};
