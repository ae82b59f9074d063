//! A parameter as the entries so far left it.

ghost use Rattle.std.specs.Prelude.{◌≡◌, ◌≤◌, ◌^◌, ◌+◌};
ghost use Rattle.std.specs.Option.{option_copied};
ghost use Rattle.vh_meaning.specs.Edits.{Began, edit_in};
ghost use Rattle.vh_meaning.specs.Steps.{touched, touched_by, value_now};
ghost use Rattle.vh_legal.specs.Touches.{touch_of, IsTouch};
ghost use Rattle.vh_legal.specs.Values.{IsWithinOne, line_in};

use vh_journal::Entry;
use vh_lane::Lane;
use vh_num::quant;
use vh_params::Command;

/// A parameter's normalised value as edits left it, and how many gestures on it began and ended.
#[derive(Clone, Copy)]
pub(crate) struct Touch {
    pub(crate) value: u32,
    pub(crate) begun: u64,
    pub(crate) ended: u64,
}

impl Touch {
    /// Its value at a sample: while no gesture is open, that of its lane.
    pub(crate) fn value_at(&self, lane: Option<&Lane>, sample: u32) -> u32
        requires { self.now.value ≤ 2 ^ 24 }
        ensures value { result ≡ value_now (line_in (option_copied lane.entry)) (touch_of self.now) sample }
        ensures within { result ≤ 2 ^ 24 }
    {
        match lane {
            Some(lane) if self.begun <= self.ended => lane.value_at(sample),
            _ => self.value,
        }
    }

    /// A gesture begins: where none was open, the parameter stays at its lane's value.
    fn begin(&mut self, lane: Option<&Lane>, steps: u32, sample: u32)
        requires { IsTouch 1 self.old }
        ensures touch { touch_of self.new ≡ touched (line_in (option_copied lane.entry)) steps (Began sample) (touch_of self.old) }
        ensures within { self.new.value ≤ 2 ^ 24 }
    {
        self.value = self.value_at(lane, sample);
        self.begun += 1;
    }

    /// Takes an entry, which may be on another parameter.
    pub(crate) fn take(
        &mut self,
        lane: Option<&Lane>,
        steps: u32,
        node: u32,
        id: u32,
        entry: &Entry,
    )
        requires touch { IsTouch 1 self.old }
        requires steps { steps ≤ 4095 }
        requires value { IsWithinOne entry.now.command }
        ensures touch { touch_of self.new ≡ touched_by (line_in (option_copied lane.entry)) steps (edit_in node id entry.now) (touch_of self.old) }
        ensures within { self.new.value ≤ 2 ^ 24 }
        ensures begun { self.new.begun ≤ self.old.begun + 1 }
        ensures ended { self.new.ended ≤ self.old.ended + 1 }
    {
        match entry.command {
            Command::Begin { node: n, id: i } if n == node && i == id => {
                self.begin(lane, steps, entry.sample);
            }
            Command::Perform {
                node: n,
                id: i,
                value,
            } if n == node && i == id => {
                self.value = quant(value, steps);
            }
            Command::End { node: n, id: i } if n == node && i == id => self.ended += 1,
            _ => {}
        }
    }
}
