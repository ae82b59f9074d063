//! What plug-ins are to the host: processors, controllers, and sets of classes.
#![tactic(auto)]

mod both;
mod controller;
mod kernel;
pub mod laws;
mod one_of;
mod processor;
mod set;

pub use both::Both;
pub use controller::Controller;
pub use kernel::{Kernel, play};
pub use one_of::OneOf;
pub use processor::Processor;
pub use set::PluginSet;
