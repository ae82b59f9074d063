//! A rendering whose edits and messages come while it is played: before each block they are taken into a journal, at
//! the block's first sample, and what was rendered is the rendering over that journal.
#![tactic(auto)]

mod block;
mod blocks;
mod buffers;
mod carried;
mod echoes;
mod parameters;
mod source;
mod stage;
mod stopped;

pub use blocks::play;
pub use source::Source;
pub use stage::{Finished, Stage};
pub use stopped::Stopped;
