//! A large rendering from a number: its session, its journal and its input are drawn, and its output is summed as it
//! comes.
#![tactic(auto)]

mod draws;
mod generator;
mod gestures;
mod graph;
mod lanes;
pub mod laws;
mod nodes;
mod sound;
mod sums;
mod text;

pub use generator::{Generated, generate};
pub use sums::{Sums, render_sums};
pub use text::summary;
