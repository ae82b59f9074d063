//! RIFF WAVE files with integer samples of 16 or 24 bits, in one or two channels.
#![tactic(auto)]

mod chunk;
mod frames;
mod head;
pub mod laws;
mod list_frames;
mod stream;
mod text;

pub use frames::read_frames;
pub use head::{Head, HeadRefused, WavFault, read_head};
pub use list_frames::ListFrames;
pub use stream::Frames;
pub use text::{frame_bytes, head_bytes};
