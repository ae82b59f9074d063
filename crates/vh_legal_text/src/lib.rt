//! Legal journals as texts: what a session's editors made is printed, and its text is read as just that.
#![tactic(auto)]

mod back;
pub mod laws;

pub use back::read_back;

#[cfg(test)]
mod tests;
