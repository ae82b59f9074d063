//! Objects that are counted as COM counts them: whoever uses an object holds references to its interfaces,
//! and the release that finds one reference left ends it.
//!
//! This is the plain form, for the one thread that has all holders of an object: a holder carries its
//! numbers, and the value travels with a holder.
#![tactic(auto)]

pub mod laws;
mod numbers;
mod object;

pub use object::{Counted, Ended, Holder, Opened, Released, Shell, TooMany};
