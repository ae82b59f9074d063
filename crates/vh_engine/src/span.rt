//! A block as all nodes see it.

ghost use Rattle.std.specs.Prelude.{◌≡◌, ◌≤◌, ◌<◌, ◌+◌, ◌^◌, []};
ghost use Rattle.vh_engine.specs.Between.{AreBetween, AreWithinOne};

use vh_journal::Entry;
use vh_lane::Lane;

/// A block: its first sample, its frames, the edits in it, by rising sample, and the session's lanes.
#[derive(Clone, Copy)]
pub(crate) struct Span<'a> {
    pub(crate) lanes: &'a [(u32, u32, Lane)],
    pub(crate) entries: &'a [Entry],
    pub(crate) from: u32,
    pub(crate) frames: u32,
    ghost some: { 1 ≤ frames },
    ghost end: { from + frames < 2 ^ 32 },
    ghost between: { AreBetween from (from + frames) entries.now },
    ghost within: { AreWithinOne entries.now },
}

impl<'a> Span<'a> {
    /// One sample, of which there is no edit.
    pub(crate) fn sample(lanes: &'a [(u32, u32, Lane)], from: u32) -> Span<'a>
        requires { from + 1 < 2 ^ 32 }
        ensures lanes { result.lanes.now ≡ lanes.now }
        ensures entries { result.entries.now ≡ [] }
        ensures from { result.from ≡ from }
        ensures frames { result.frames ≡ 1 }
    {
        Span {
            lanes,
            entries: &[],
            from,
            frames: 1,
        }
    }
}
