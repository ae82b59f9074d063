//! Lanes of automation: values that follow straight lines between breakpoints.
#![tactic(auto)]

mod lane;
pub mod laws;

pub use lane::Lane;
