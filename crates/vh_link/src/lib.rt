//! A rendering's input and output as two WAV files of one store: the input is read block by block, and the output
//! grows block by block.
#![tactic(auto)]

mod buffers;
pub mod laws;
mod link;
mod output;

pub use buffers::Buffers;
pub use link::WavLink;
