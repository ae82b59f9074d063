//! A session's editors: each works through its script at a desk of the inbox, in a thread of its own, and the audio
//! takes what they put.
#![tactic(auto)]

mod editor;
mod editors;
pub mod laws;
mod takings;

pub use editors::Editors;
pub use takings::Takings;
