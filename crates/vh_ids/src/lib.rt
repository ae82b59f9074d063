//! Identifiers of classes and interfaces, as the VST 3 SDK has them.
#![tactic(auto)]

mod interface;
pub mod laws;
mod tuid;

pub use interface::{Interface, iid};
pub use tuid::Tuid;
