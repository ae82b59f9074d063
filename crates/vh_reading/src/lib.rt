//! The presets of a session's nodes are read, by node.
#![tactic(auto)]

mod presets;
mod text;

pub use presets::{read_preset, read_presets};
pub use text::read_text;
