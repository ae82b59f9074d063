//! A rendering into a file: an engine plays sound piece by piece, and each piece is appended as it comes.
#![tactic(auto)]

mod play;
mod room;
mod score;
mod sound;
mod write;

pub use play::render;
pub use room::Room;
pub use score::Score;
pub use sound::Sound;
pub use write::play_piece;
