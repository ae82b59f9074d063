//! COM's `queryInterface`: whoever holds a reference to one interface of an object may ask for another.
#![tactic(auto)]

mod interfaces;
pub mod laws;

pub use interfaces::{Interfaces, QueryRefused};
