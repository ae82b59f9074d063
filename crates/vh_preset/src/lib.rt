//! Preset files as the VST 3 SDK lays them out (`.vstpreset`): a head, chunks of bytes, and a list of the chunks.
#![tactic(auto)]

mod chunks;
mod fault;
pub mod laws;
mod preset;
mod reader;
mod writer;

pub use chunks::Chunks;
pub use fault::{PresetFault, PresetRefusal};
pub use preset::{Preset, PresetEntry};
pub use reader::{PRESET_LIMIT, read};
pub use writer::write;
