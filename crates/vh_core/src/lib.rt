//! The pure machine: editors, audio and controllers that run beside each other, as one list of events.
//!
//! What a machine is stands in definitions; [`laws`] says what every run of it comes to, and [`Machine`] runs it over
//! plain processors.
#![tactic(auto)]

mod accept;
mod event;
mod kept;
pub mod laws;
mod machine;
mod mix;
mod play;
mod returns;
mod sent;
mod show;
mod stage;
mod values;

pub use event::Event;
pub use machine::Machine;
pub use sent::Sent;
