//! What a line says.

ghost use Rattle.std.specs.Prelude.{◌≡◌, ◌≤◌, length, take};
ghost use Rattle.vh_session.specs.Limits.{most_sizes};

use crate::limits::MOST_SIZES;
use crate::wire::Wire;
use vh_params::{ClassInfo, Word};

/// The sizes of a pattern.
#[derive(Clone, Copy)]
pub(crate) struct Sizes {
    pub(crate) list: [u32; MOST_SIZES],
    pub(crate) len: usize,
    ghost within: { len ≤ most_sizes },
}

impl Sizes {
    ghost use Rattle.vh_session.specs.View.{sizes_in};

    /// The sizes.
    pub(crate) fn as_slice(&self) -> &[u32]
        ensures { result.now ≡ sizes_in self.now }
    {
        &self.list[..self.len]
    }
}

/// One line, with its names looked up.
#[derive(Clone, Copy)]
pub(crate) enum Entry<'a> {
    Length(u32),
    Channels(u32),
    Bits(u32),
    Pattern(Sizes),
    Node {
        name: &'a [u8],
        class: &'a ClassInfo,
    },
    Preset {
        node: u32,
        file: &'a [u8],
    },
    Param {
        node: u32,
        id: u32,
        value: u32,
    },
    Wire(Wire),
    Lane {
        node: u32,
        id: u32,
        grain: u32,
        sample: u32,
        value: u32,
    },
    Point {
        sample: u32,
        value: u32,
    },
    Editor,
    Script(Word),
}
