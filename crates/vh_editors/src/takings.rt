//! What the audio takes from the inbox.

ghost use Rattle.std.specs.Prelude.{◌≡◌, map};
ghost use Rattle.vh_inbox.specs.Values.{item_of};

use std::sync::Wait;
use vh_files::Gate;
use vh_inbox::Drain;
use vh_journal::Entry;
use vh_stage::Source;

/// The drain of the inbox as a rendering's source of edits and messages. The gate is asked before each block.
#[derive(Drop)]
pub struct Takings<'a, R: Wait, G: Gate> {
    rt: &'a R,
    gate: &'a G,
    pub drain: Drain,
}

impl<'a, R: Wait, G: Gate> Takings<'a, R, G> {
    /// The source that takes from this drain.
    pub fn new(rt: &'a R, gate: &'a G, drain: Drain) -> Takings<'a, R, G>
        ensures { result.drain ≡ drain }
    {
        Takings { rt, gate, drain }
    }

    /// The drain.
    pub fn into_drain(self) -> Drain
        ensures { result ≡ self.entry.drain }
    {
        let Takings { drain, .. } = self;
        drain
    }
}

impl<'a, R: Wait, G: Gate> Source for Takings<'a, R, G> {
    ghost use Rattle.std.specs.Prelude.{◌≡◌, map, ℕ, List, []};
    ghost use Rattle.vh_inbox.specs.Values.{AtDrain, item_of};

    ghost gave = { λ t entries. t.drain.taken ≡ map item_of entries };

    ghost Rest = { AtDrain };

    ghost rest = { λ t. record t.drain { taken = [] } };

    fn take(&mut self, block: u32, at: u32, journal: &mut Vec<Entry>) {
        self.gate.before_block(block);
        self.drain.take_all(self.rt, at, journal);
    }
}
