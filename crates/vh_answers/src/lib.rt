//! What a command of the host answers: a status, and the lines that are said of it.
//!
//! `specs/` has commands as lists of steps, and how they end.
#![tactic(auto)]

mod line;
mod listing;
mod refusal;
mod report;
mod status;

pub use line::Line;
pub use listing::say_listing;
pub use refusal::say_refusal;
pub use report::{EditorCounts, Report};
pub use status::{Place, Status};
