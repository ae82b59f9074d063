//! A parameter between blocks.

ghost use Rattle.std.specs.Prelude.{◌≡◌, ◌≤◌, ◌+◌, ◌^◌, ℕ, length, IsTrue, Some, None};
ghost use Rattle.vh_meaning.specs.Edits.{Began, edit_in};
ghost use Rattle.vh_meaning.specs.Steps.{touched, touched_by, value_now};
ghost use Rattle.vh_engine.specs.Controls.{touch_of, line_of, IsControl, IsSame};
ghost use Rattle.vh_engine.specs.Between.{IsWithinOne};

use vh_journal::Entry;
use vh_lane::Lane;
use vh_num::quant;
use vh_params::Command;

/// A parameter of a node, as it stands between samples.
#[derive(Clone, Copy)]
pub(crate) struct Control {
    pub(crate) id: u32,
    pub(crate) steps: u32,
    /// Whether it is read-only.
    pub(crate) shown: bool,
    /// Its place among the session's lanes.
    pub(crate) lane: Option<usize>,
    /// The normalised value that edits left it at.
    pub(crate) held: u32,
    /// How many gestures began and ended.
    pub(crate) begun: u128,
    pub(crate) ended: u128,
    /// The normalised value that its processor has.
    pub(crate) sent: u32,
}

impl Control {
    /// Whether it follows its lane: it has one, and no gesture is open.
    pub(crate) fn is_free(&self) -> bool {
        self.lane.is_some() && self.begun <= self.ended
    }

    /// Its value at a sample.
    pub(crate) fn value_at(&self, lanes: &[(u32, u32, Lane)], sample: u32) -> u32
        requires { IsControl (length lanes.now) 0 self.now }
        ensures value { result ≡ value_now (line_of lanes.now self.now) (touch_of self.now) sample }
        ensures within { result ≤ 2 ^ 24 }
    {
        match self.lane {
            Some(place) if self.begun <= self.ended => lanes[place].2.value_at(sample),
            _ => self.held,
        }
    }

    /// A gesture begins: where none was open, the parameter stays at the lane's value.
    fn begin(&mut self, lanes: &[(u32, u32, Lane)], sample: u32)
        requires control { IsControl (length lanes.now) 1 self.old }
        ensures touch { touch_of self.new ≡ touched (line_of lanes.now self.old) self.old.steps (Began sample) (touch_of self.old) }
        ensures same { IsSame self.old self.new }
        ensures sent { self.new.sent ≡ self.old.sent }
        ensures within { self.new.held ≤ 2 ^ 24 }
    {
        self.held = self.value_at(lanes, sample);
        self.begun += 1;
    }

    /// Takes an entry of its node, which may be on another parameter.
    pub(crate) fn take(&mut self, lanes: &[(u32, u32, Lane)], node: u32, entry: &Entry)
        requires control { IsControl (length lanes.now) 1 self.old }
        requires value { IsWithinOne entry.now.command }
        ensures touch { touch_of self.new ≡ touched_by (line_of lanes.now self.old) self.old.steps (edit_in node self.old.id entry.now) (touch_of self.old) }
        ensures same { IsSame self.old self.new }
        ensures sent { self.new.sent ≡ self.old.sent }
        ensures within { self.new.held ≤ 2 ^ 24 }
    {
        match entry.command {
            Command::Begin { node: n, id } if n == node && id == self.id => {
                self.begin(lanes, entry.sample);
            }
            Command::Perform { node: n, id, value } if n == node && id == self.id => {
                self.held = quant(value, self.steps);
            }
            Command::End { node: n, id } if n == node && id == self.id => self.ended += 1,
            _ => {}
        }
    }
}
