//! What playing leaves.

use vh_instance::Band;
use vh_journal::Entry;
use vh_params::Reply;
use vh_session::Session;

/// How playing ended.
#[derive(Clone, Copy, Debug, PartialEq, Eq)]
pub enum Outcome {
    Done,
    /// Frames couldn't be read.
    ReadFailed,
    /// Frames couldn't be added.
    WriteFailed,
    /// Memory was wanting.
    Memory,
}

/// What playing leaves: the session and the band as they come back, the journal of what the editors did, of each editor
/// how many words were refused, and the replies to messages.
pub struct Played<P, C> {
    pub outcome: Outcome,
    pub session: Session,
    pub band: Band<P, C>,
    pub journal: Vec<Entry>,
    pub refused: Vec<u32>,
    pub replies: Vec<Reply>,
}
