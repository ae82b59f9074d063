//! How a rendering is cut into the blocks that the plug-ins process.
#![tactic(auto)]

mod cut;
pub mod laws;
mod piece;

pub use cut::pieces;
pub use piece::{Piece, Pieces};
