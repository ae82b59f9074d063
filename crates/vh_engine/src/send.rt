//! What a processor is sent of a parameter: a point where its value changes.
//!
//! A call of `laws` does nothing: the proof uses what it ensures.

ghost use Rattle.std.specs.Prelude.{◌≡◌, ◌≤◌, ◌<◌, ◌+◌, ◌-◌, ℕ, [], length, take, drop, slice_index_or, false};
ghost use Rattle.std.specs.Option.{is_some};
ghost use Rattle.vh_journal.specs.declared.entry.Entry.{Entry as Seen};
ghost use Rattle.vh_lane.specs.Kept.{value_of};
ghost use Rattle.vh_meaning.specs.Edits.{edit_in};
ghost use Rattle.vh_meaning.specs.Steps.{value_now};
ghost use Rattle.vh_points.specs.Queues.{LacksId, queue_at};
ghost use Rattle.vh_points.specs.Model.{queues_of, queue_room, most_points, point_room};
ghost use Rattle.vh_engine.specs.Between.{AreElsewhere, IsUpTo};
ghost use Rattle.vh_engine.specs.Controls.{touch_of, line_of, IsControl, IsSame, touch_through};
ghost use Rattle.vh_engine.specs.Sent.{points_in, IsFilled, IsQueued, IsBehind};
ghost use Rattle.vh_engine.specs.Queued.{most_queues};

use crate::control::Control;
use crate::span::Span;
use vh_journal::Entry;
use vh_lane::{Lane, laws};
use vh_params::Command;
use vh_points::Points;

/// Whether an entry is an edit of this parameter.
fn is_edit(entry: &Entry, node: u32, id: u32) -> bool
    ensures { result ≡ is_some (edit_in node id entry.now) }
{
    match entry.command {
        Command::Begin { node: n, id: i } => n == node && i == id,
        Command::Perform { node: n, id: i, .. } => n == node && i == id,
        Command::End { node: n, id: i } => n == node && i == id,
        Command::Tell { .. } => false,
    }
}

/// Whether one of these entries is.
fn is_edited(entries: &[Entry], node: u32, id: u32) -> bool
    ensures { result ≡ false → AreElsewhere node id entries.now }
{
    for entry in entries {
        if is_edit(entry, node, id) {
            return true;
        }
    }
    false
}

impl Control {
    /// Takes the entries from a place on up to a sample, and answers the place of the first later one.
    fn take_up_to(&mut self, span: &Span, node: u32, place: usize, sample: u32) -> usize
        requires control { IsControl (length span.now.lanes.now) (length span.now.entries.now - place) self.old }
        requires place { place ≤ length span.now.entries.now }
        requires before { (i : ℕ) (d : Seen) → i < place → (slice_index_or span.now.entries.now i d).sample ≤ sample }
        ensures place { place ≤ result }
        ensures up_to { IsUpTo span.now.entries.now result sample }
        ensures touch { touch_of self.new ≡ touch_through (line_of span.now.lanes.now self.old) self.old.steps node self.old.id (take (result - place) (drop place span.now.entries.now)) (touch_of self.old) }
        ensures same { IsSame self.old self.new }
        ensures sent { self.new.sent ≡ self.old.sent }
        ensures control { IsControl (length span.now.lanes.now) (length span.now.entries.now - result) self.new }
    {
        let mut place = place;
        while place < span.entries.len() && span.entries[place].sample <= sample {
            self.take(span.lanes, node, &span.entries[place]);
            place += 1;
        }
        place
    }

    /// Sends a parameter that entries change.
    fn send_edited(&mut self, span: &Span, node: u32, q: usize, points: &mut Points)
        requires control { IsControl (length span.now.lanes.now) (length span.now.entries.now) self.old }
        requires last { q + 1 ≡ length (queues_of points.old) }
        requires empty { (queue_at (queues_of points.old) q).points ≡ [] }
        requires room { span.now.frames ≤ point_room points.old }
        ensures points { IsFilled span.now node self.old q (queues_of points.old) (queues_of points.new) }
        ensures behind { IsBehind span.now node self.old self.new }
        ensures queue_room { queue_room points.new ≡ queue_room points.old }
        ensures most_points { most_points points.new ≡ most_points points.old }
        ensures point_room { point_room points.old ≤ point_room points.new + span.now.frames }
    {
        laws::points_mean_values();
        let mut place = 0;
        for offset in 0..span.frames {
            let sample = span.from + offset;
            place = self.take_up_to(span, node, place, sample);
            let value = self.value_at(span.lanes, sample);
            if value != self.sent {
                points.add_point(q, offset, value);
                self.sent = value;
            }
        }
    }

    /// Sends a parameter that stays where it is.
    fn send_held(&mut self, span: &Span, node: u32, q: usize, points: &mut Points)
        requires control { IsControl (length span.now.lanes.now) 0 self.old }
        requires elsewhere { AreElsewhere node self.old.id span.now.entries.now }
        requires held { (s : ℕ) → value_now (line_of span.now.lanes.now self.old) (touch_of self.old) s ≡ self.old.held }
        requires last { q + 1 ≡ length (queues_of points.old) }
        requires empty { (queue_at (queues_of points.old) q).points ≡ [] }
        requires room { span.now.frames ≤ point_room points.old }
        ensures points { IsFilled span.now node self.old q (queues_of points.old) (queues_of points.new) }
        ensures behind { IsBehind span.now node self.old self.new }
        ensures queue_room { queue_room points.new ≡ queue_room points.old }
        ensures most_points { most_points points.new ≡ most_points points.old }
        ensures point_room { point_room points.old ≤ point_room points.new + span.now.frames }
    {
        if self.sent != self.held {
            points.add_point(q, 0, self.held);
            self.sent = self.held;
        }
    }

    /// Sends a parameter that follows its lane.
    fn send_lane(&mut self, span: &Span, lane: &Lane, node: u32, q: usize, points: &mut Points)
        requires control { IsControl (length span.now.lanes.now) 0 self.old }
        requires elsewhere { AreElsewhere node self.old.id span.now.entries.now }
        requires free { (s : ℕ) → value_now (line_of span.now.lanes.now self.old) (touch_of self.old) s ≡ value_of lane.now s }
        requires last { q + 1 ≡ length (queues_of points.old) }
        requires empty { (queue_at (queues_of points.old) q).points ≡ [] }
        requires room { span.now.frames ≤ point_room points.old }
        ensures points { IsFilled span.now node self.old q (queues_of points.old) (queues_of points.new) }
        ensures behind { IsBehind span.now node self.old self.new }
        ensures queue_room { queue_room points.new ≡ queue_room points.old }
        ensures most_points { most_points points.new ≡ most_points points.old }
        ensures point_room { point_room points.old ≤ point_room points.new + span.now.frames }
    {
        laws::points_mean_values();
        let end = span.from + span.frames;
        lane.changes(span.from, end, self.sent, q, points);
        self.sent = lane.value_at(end - 1);
    }

    /// Sends the parameter's value at each sample of a block: a point at each offset where it changes. A
    /// parameter that stays costs nothing.
    pub(crate) fn send(&mut self, span: &Span, node: u32, points: &mut Points)
        requires control { IsControl (length span.now.lanes.now) (length span.now.entries.now) self.old }
        requires queue_room { 0 < queue_room points.old }
        requires lacks { LacksId (queues_of points.old) self.old.id }
        requires room { span.now.frames ≤ point_room points.old }
        ensures points { IsQueued self.old.id (points_in span.now node self.old) (queues_of points.old) (queues_of points.new) }
        ensures behind { IsBehind span.now node self.old self.new }
        ensures most_queues { most_queues points.new ≡ most_queues points.old }
        ensures most_points { most_points points.new ≡ most_points points.old }
        ensures point_room { point_room points.old ≤ point_room points.new + span.now.frames }
    {
        if is_edited(span.entries, node, self.id) {
            let q = points.add_queue(self.id);
            self.send_edited(span, node, q, points);
        } else if let Some(place) = self.lane
            && self.begun <= self.ended
        {
            let q = points.add_queue(self.id);
            self.send_lane(span, &span.lanes[place].2, node, q, points);
        } else if self.sent != self.held {
            let q = points.add_queue(self.id);
            self.send_held(span, node, q, points);
        }
    }
}
