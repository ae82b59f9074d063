//! What may be wrong with a session's text.

ghost use Rattle.std.specs.Prelude.{◌≡◌};

use thiserror::Error;

/// What is wrong with a line, or with the whole text.
#[derive(Clone, Copy, Debug, PartialEq, Eq, Error)]
pub enum SessionKind {
    /// The first line isn't that of a session.
    #[error("not a session's first line")]
    BadHeader,
    /// A byte is no printable ASCII.
    #[error("a byte that is not printable ASCII")]
    BadByte,
    /// No line begins with this word.
    #[error("an unknown word")]
    UnknownWord,
    /// A word is no number, or out of its range.
    #[error("a bad number")]
    BadNumber,
    /// A new node's name is no name, or a file's name is too long.
    #[error("a bad name")]
    BadName,
    /// The line has too few words.
    #[error("a word is missing")]
    Missing,
    /// The line has too many words.
    #[error("a word too many")]
    Extra,
    /// What stands at most once stands again.
    #[error("a second line of its kind")]
    Repeated,
    /// A node of this name stands already.
    #[error("a second node of its name")]
    DuplicateNode,
    /// No node has this name.
    #[error("an unknown node")]
    UnknownNode,
    /// No class has this name.
    #[error("an unknown class")]
    UnknownClass,
    /// The node has no parameter of this id.
    #[error("an unknown parameter")]
    UnknownParam,
    /// The parameter can't be set.
    #[error("a parameter that is only read")]
    ReadOnlyParam,
    /// A wire of a form that isn't, to an aux bus that isn't, or that stands already.
    #[error("a bad wire")]
    BadWire,
    /// A second lane of a parameter, a lane of one that can't be automated, a breakpoint behind no lane, or
    /// one that isn't behind the breakpoint before it.
    #[error("a bad lane")]
    BadLane,
    /// An editor out of turn, or a word of no editor.
    #[error("a bad editor")]
    BadEditor,
    /// There are too many of what the line adds.
    #[error("too many")]
    TooMany,
    /// The length, the channels, the bits or the pattern are missing.
    #[error("a line is missing")]
    NoLine,
    /// The wires have a cycle, on which this is the least node.
    #[error("node {0} is on a cycle")]
    Cycle(u32),
    /// The text has more bytes than the limit.
    #[error("too many bytes")]
    TooLong,
}

impl SessionKind {
    ghost use Rattle.vh_session.specs.Kinds.{kind_number};

    /// The number of the kind in refusals.
    pub fn number(self) -> u8
        ensures { result ≡ kind_number self }
    {
        match self {
            SessionKind::BadHeader => 1,
            SessionKind::BadByte => 2,
            SessionKind::UnknownWord => 3,
            SessionKind::BadNumber => 4,
            SessionKind::BadName => 5,
            SessionKind::Missing => 6,
            SessionKind::Extra => 7,
            SessionKind::Repeated => 8,
            SessionKind::DuplicateNode => 9,
            SessionKind::UnknownNode => 10,
            SessionKind::UnknownClass => 11,
            SessionKind::UnknownParam => 12,
            SessionKind::ReadOnlyParam => 13,
            SessionKind::BadWire => 14,
            SessionKind::BadLane => 15,
            SessionKind::BadEditor => 16,
            SessionKind::TooMany => 17,
            SessionKind::NoLine => 18,
            SessionKind::Cycle(_) => 19,
            SessionKind::TooLong => 20,
        }
    }
}

/// The first fault of a session, with its line, from 1; 0 stands for the whole text.
#[derive(Clone, Copy, Debug, PartialEq, Eq, Error)]
#[error("line {line}: {kind}")]
pub struct SessionFault {
    pub line: u32,
    pub kind: SessionKind,
}
