//! Statuses.

ghost use Rattle.std.specs.Prelude.{◌≡◌};

use vh_journal_text::JournalFault;
use vh_preset::PresetRefusal;
use vh_session::SessionFault;
use vh_wav::WavFault;

/// What a file or a text is for.
#[derive(Clone, Copy, Debug, PartialEq, Eq)]
pub enum Place {
    Session,
    Preset,
    Input,
    Journal,
    Output,
    Report,
}

/// How a command ended.
#[derive(Clone, Copy, Debug, PartialEq, Eq)]
pub enum Status {
    Ok,
    Usage,
    SessionRefused(SessionFault),
    WavRefused(WavFault),
    /// The preset of a node, by its number, or a preset that is no node's.
    PresetRefused {
        node: Option<u32>,
        kind: PresetRefusal,
    },
    JournalRefused(JournalFault),
    ReadFault(Place),
    WriteFault(Place),
    Memory,
}

impl Status {
    ghost use Rattle.vh_answers.specs.Refusals.{status_number};

    /// The number with which the program ends.
    pub fn number(&self) -> u8
        ensures { result ≡ status_number self.now }
    {
        match self {
            Status::Ok => 0,
            Status::Usage => 1,
            Status::SessionRefused(_) => 2,
            Status::WavRefused(_) => 3,
            Status::PresetRefused { node: _, kind: _ } => 4,
            Status::JournalRefused(_) => 5,
            Status::ReadFault(_) => 6,
            Status::WriteFault(_) => 7,
            Status::Memory => 8,
        }
    }
}
