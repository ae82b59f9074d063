//! The journal of a rendering: what editors did, at which samples.
#![tactic(auto)]

mod entry;

pub use entry::{Entry, Journal};
