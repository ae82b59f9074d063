//! What is rendered.

use crate::sound::Sound;
use vh_journal::Entry;

/// What an engine's session is rendered over, and as what.
#[derive(Clone, Copy)]
pub struct Score<'a> {
    /// The session's frames.
    pub length: u32,
    /// As many frames of the input.
    pub sound: &'a Sound,
    /// The sizes of pieces in frames, 1 to 16 of them, which take turns.
    pub pattern: &'a [u32],
    /// Edits and messages, by rising sample.
    pub entries: &'a [Entry],
    /// The samples of the messages, at which a piece ends.
    pub stops: &'a [u32],
    /// Of each sample in the file, 16 or 24.
    pub bits: u16,
    /// Frames a second, those of the input: at most 768000.
    pub rate: u32,
}
