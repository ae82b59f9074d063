//! The built-in classes of plug-ins.
#![tactic(auto)]

mod arithmetic;
mod balance;
mod bytes;
mod component;
mod crusher;
mod delay;
mod editor;
mod gain;
mod gate;
mod kind;
pub mod laws;
mod meter;
mod onepole;
mod set;
mod sound;
mod tables;
mod tap;

pub use component::{Component, defaults};
pub use editor::Editor;
pub use kind::Kind;
pub use set::BuiltIn;
pub use sound::Sound;
