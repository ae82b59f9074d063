//! Plug-ins of one's own: two classes, each with its set, and callers of any set.
#![tactic(auto)]

pub mod callers;
mod parts;
mod switch;
mod wire;

pub use switch::{Knob, Switch, Switches, set_of_switches};
pub use wire::{Dial, Wire, Wires, set_of_wires};
