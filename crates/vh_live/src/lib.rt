//! Editors beside the audio: a session is played while its editors work at their scripts in threads of their own, and
//! what was rendered is the rendering over the journal of what they did.
#![tactic(auto)]

mod beside;
mod close;
mod live;
mod outcome;
mod run;

pub use live::play;
pub use outcome::{Outcome, Played};
