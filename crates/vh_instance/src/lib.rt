//! The instances of a session: both halves of every plug-in are made, counted and ended.
#![tactic(auto)]

mod band;
mod component;
mod controller;
mod end;
mod firsts;
mod instances;
pub mod laws;
mod presets;
mod references;
mod refused;

pub use band::Band;
pub use end::tear_down;
pub use instances::make;
pub use presets::no_presets;
pub use refused::MakeRefused;
