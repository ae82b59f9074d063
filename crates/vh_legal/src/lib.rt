//! Which journals the editors of a session can have made, and the value of a parameter under a journal's entries.
//!
//! The definitions that the value rests on are those of vh_meaning; which words of an editor are accepted is
//! vh_gesture's.
#![tactic(auto)]

mod blocks;
pub mod laws;
mod legal;
mod parameter;
mod script;
mod touch;

pub use legal::is_legal;
pub use parameter::value;
