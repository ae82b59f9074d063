//! What may be wrong with a journal's text.

ghost use Rattle.std.specs.Prelude.{◌≡◌};

use thiserror::Error;

/// What is wrong with a line, or with the whole text. Of several faults of a line the first in this order counts.
#[derive(Clone, Copy, Debug, PartialEq, Eq, Error)]
pub enum JournalKind {
    /// The first line isn't that of a journal.
    #[error("not a journal's first line")]
    BadHeader,
    /// A byte that is no printable ASCII, words of no form, a number that is none, an editor above 7, a value above
    /// 2^24, or a line behind `close`.
    #[error("a bad line")]
    BadLine,
    /// The entry is one too many.
    #[error("too many entries")]
    TooMany,
    /// The sample is behind the session's length.
    #[error("a sample behind the length")]
    SampleOver,
    /// The sample is below that of the entry before.
    #[error("a sample that falls")]
    SampleFalls,
    /// No node has this name.
    #[error("an unknown node")]
    UnknownNode,
    /// The node has no parameter of this id.
    #[error("an unknown parameter")]
    UnknownParam,
    /// The parameter can't be set.
    #[error("a parameter that is only read")]
    ReadOnlyParam,
    /// The editor's next entry has this number instead, from 0.
    #[error("not number {0} of its editor")]
    SeqWrong(u32),
    /// The editor performs or ends a gesture that it didn't begin.
    #[error("a gesture that isn't open")]
    NotOpen,
    /// The editor begins a gesture that it began already.
    #[error("a gesture that is open already")]
    AlreadyOpen,
    /// The last line isn't `close`.
    #[error("no close")]
    NoClose,
    /// The text has more bytes than the limit.
    #[error("too many bytes")]
    TooLong,
}

impl JournalKind {
    ghost use Rattle.vh_journal_text.specs.Kinds.{kind_number};

    /// The number of the kind in refusals, 1 to 13.
    pub fn number(self) -> u8
        ensures { result ≡ kind_number self }
    {
        match self {
            JournalKind::BadHeader => 1,
            JournalKind::BadLine => 2,
            JournalKind::TooMany => 3,
            JournalKind::SampleOver => 4,
            JournalKind::SampleFalls => 5,
            JournalKind::UnknownNode => 6,
            JournalKind::UnknownParam => 7,
            JournalKind::ReadOnlyParam => 8,
            JournalKind::SeqWrong(_) => 9,
            JournalKind::NotOpen => 10,
            JournalKind::AlreadyOpen => 11,
            JournalKind::NoClose => 12,
            JournalKind::TooLong => 13,
        }
    }
}

/// The first fault of a journal, with its line, from 1; 0 stands for the whole text.
#[derive(Clone, Copy, Debug, PartialEq, Eq, Error)]
#[error("line {line}: {kind}")]
pub struct JournalFault {
    pub line: u32,
    pub kind: JournalKind,
}
