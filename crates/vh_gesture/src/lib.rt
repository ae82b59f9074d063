//! The gestures of one editor: which of its words are accepted, judged by numbers alone.
#![tactic(auto)]

mod fault;
mod gestures;
pub mod laws;

pub use fault::GestureFault;
pub use gestures::Gestures;
