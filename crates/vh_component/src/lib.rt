//! The life of a component, as the SDK orders its calls: a component is created, initialized, set up while
//! inactive, active, processing, and goes back in reverse. Each state is a type of its own, so an order
//! that the SDK forbids does not compile.
#![tactic(auto)]

mod layout;
mod life;
mod setup;
mod states;

pub use layout::{BusInfo, Layout, NoBus, Unsupported};
pub use life::Life;
pub use setup::{Phase, Setup};
pub use states::{Active, Created, Initialized, Processing, Ready};
