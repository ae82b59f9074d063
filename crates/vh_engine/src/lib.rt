//! The engine: renders block by block and node by node what `vh_meaning` defines sample by sample.
#![tactic(auto)]

mod block;
mod bus;
mod control;
mod end;
mod engine;
mod node;
mod nodes;
mod parts;
mod plan;
mod seat;
mod seen;
mod send;
mod space;
mod span;
mod told;
mod work;

pub use engine::Engine;
pub use parts::Parts;
