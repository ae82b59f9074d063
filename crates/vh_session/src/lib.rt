//! The session language: what is rendered, its nodes, wires, lanes and scripts.
#![tactic(auto)]

mod dispatch;
mod draft;
mod entry;
mod fault;
mod finish;
mod kind;
pub mod laws;
mod limits;
mod lines;
mod numbers;
mod print;
mod reader;
mod rules;
mod session;
mod wire;

pub use fault::{SessionFault, SessionKind};
pub use limits::SESSION_LIMIT;
pub use reader::read;
pub use session::Session;
pub use wire::{End, Wire};
