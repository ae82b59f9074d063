//! What happens to a machine.

use vh_params::Word;

/// One step of editors, audio and controllers that run beside each other. Numbers beyond what is there mean all.
#[derive(Clone, Copy, Debug, PartialEq, Eq)]
pub enum Event {
    /// An editor puts a word: one push of the queue, where it is an edit or a message that is accepted.
    Put { editor: u32, word: Word },
    /// The oldest of what waits is taken, so many, at the sample that comes next, and so many frames are rendered.
    Audio { take: u32, frames: u32 },
    /// So many of what comes back reach the controllers.
    Back { take: u32 },
    /// Behind the last sample all that waits is taken, and each change is told.
    Flush,
}
