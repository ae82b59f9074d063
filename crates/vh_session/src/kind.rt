//! The kinds of lines.

ghost use Rattle.std.specs.Prelude.{◌≡◌};

use crate::limits::{MOST_NUMBERS, MOST_SIZES};

/// A kind of line behind the first.
#[derive(Clone, Copy)]
pub(crate) enum LineKind {
    Length,
    Channels,
    Bits,
    Pattern,
    Node,
    Preset,
    Param,
    Wire,
    Lane,
    Point,
    Editor,
    Begin,
    Perform,
    End,
    Tell,
    Hold,
    Drop,
    Wait,
}

/// All kinds of lines behind the first.
const KINDS: [LineKind; 18] = [
    LineKind::Length,
    LineKind::Channels,
    LineKind::Bits,
    LineKind::Pattern,
    LineKind::Node,
    LineKind::Preset,
    LineKind::Param,
    LineKind::Wire,
    LineKind::Lane,
    LineKind::Point,
    LineKind::Editor,
    LineKind::Begin,
    LineKind::Perform,
    LineKind::End,
    LineKind::Tell,
    LineKind::Hold,
    LineKind::Drop,
    LineKind::Wait,
];

impl LineKind {
    ghost use Rattle.vh_session.specs.LineKinds.{kind_named, first_word_of, least_words, most_words};

    /// The first word of a line of this kind.
    fn first_word(self) -> &'static [u8]
        ensures { result.now ≡ first_word_of self }
    {
        match self {
            LineKind::Length => b"length",
            LineKind::Channels => b"channels",
            LineKind::Bits => b"bits",
            LineKind::Pattern => b"pattern",
            LineKind::Node => b"node",
            LineKind::Preset => b"preset",
            LineKind::Param => b"param",
            LineKind::Wire => b"wire",
            LineKind::Lane => b"lane",
            LineKind::Point => b"point",
            LineKind::Editor => b"editor",
            LineKind::Begin => b"begin",
            LineKind::Perform => b"perform",
            LineKind::End => b"end",
            LineKind::Tell => b"tell",
            LineKind::Hold => b"hold",
            LineKind::Drop => b"drop",
            LineKind::Wait => b"wait",
        }
    }

    /// The kind of a line that begins with this word.
    pub(crate) fn named(first: &[u8]) -> Option<LineKind>
        ensures { result ≡ kind_named first.now }
    {
        KINDS
            .iter()
            .copied()
            .find(|kind| first == kind.first_word())
    }

    /// The least number of words behind the first.
    pub(crate) fn least_words(self) -> usize
        ensures { result ≡ least_words self }
    {
        match self {
            LineKind::Length
            | LineKind::Channels
            | LineKind::Bits
            | LineKind::Pattern
            | LineKind::Editor
            | LineKind::Tell
            | LineKind::Hold
            | LineKind::Drop
            | LineKind::Wait => 1,
            LineKind::Node
            | LineKind::Preset
            | LineKind::Wire
            | LineKind::Point
            | LineKind::Begin
            | LineKind::End => 2,
            LineKind::Param | LineKind::Perform => 3,
            LineKind::Lane => 5,
        }
    }

    /// The most words behind the first.
    pub(crate) fn most_words(self) -> usize
        ensures { result ≡ most_words self }
    {
        match self {
            LineKind::Length
            | LineKind::Channels
            | LineKind::Bits
            | LineKind::Editor
            | LineKind::Hold
            | LineKind::Drop
            | LineKind::Wait => 1,
            LineKind::Pattern => MOST_SIZES,
            LineKind::Node | LineKind::Preset | LineKind::Point | LineKind::Begin | LineKind::End =>
                2,
            LineKind::Param | LineKind::Wire | LineKind::Perform => 3,
            LineKind::Lane => 5,
            LineKind::Tell => 1 + MOST_NUMBERS,
        }
    }
}
