//! A band's controllers while its session is played: they follow beside the audio, and in the end their counts get what
//! the editors held and dropped.
#![tactic(auto)]

mod counts;
mod follow;
mod hands;
mod rows;
mod worked;

pub use hands::Hands;
pub use worked::Worked;
