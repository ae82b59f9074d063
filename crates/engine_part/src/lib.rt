//! Sessions of the built-in classes, played by engines in memory: what the engine's tests and its benchmark play.
#![tactic(auto)]

mod band;
mod blocks;
mod carried;
mod engines;
mod repeats;
mod sessions;

pub use engines::Heard;
pub use sessions::{play, repeat};
