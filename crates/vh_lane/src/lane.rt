//! A lane, its values and the points that it sends.

ghost use Rattle.std.specs.Prelude.{◌≡◌, ◌≤◌, ◌<◌, ◌+◌, ◌-◌, ◌^◌, ℕ, [], length, IfOk};
ghost use Rattle.vh_lane.specs.Values.{AreBreaks, ArePassed, AreReached, lane_at, line_at, grained, on_line};
ghost use Rattle.vh_points.specs.Queues.{queue_at};
ghost use Rattle.vh_points.specs.Model.{queues_of, queue_room, most_points, point_room};

use std::alloc::{AllocError, Global};
use vh_num::quant;
use vh_points::Points;

/// A lane of automation of a parameter.
#[derive(Drop)]
pub struct Lane {
    steps: u32,
    grain: u32,
    breaks: Vec<(u32, u32)>,
    ghost few_steps: { steps ≤ 4095 },
    ghost coarse: { grain ≤ 24 },
    ghost rising: { AreBreaks breaks.items },
}

impl Lane {
    ghost use Rattle.vh_lane.specs.Kept.{steps_of, grain_of, breaks_of, value_of};
    ghost use Rattle.vh_lane.specs.Changes.{changes_of, with_points};

    /// A lane for a parameter of so many steps, at most 4095. Its values are rounded down to multiples of
    /// 2^grain, at most 24, and then quantised. It has 1 to 4096 breakpoints (sample, normalised value up to
    /// 2^24), whose samples rise.
    pub fn new(
        alloc: Global,
        steps: u32,
        grain: u32,
        breaks: &[(u32, u32)],
    ) -> Result<Lane, AllocError>
        requires steps { steps ≤ 4095 }
        requires grain { grain ≤ 24 }
        requires breaks { AreBreaks breaks.now }
        ensures steps { IfOk result (λ lane. steps_of lane ≡ steps) }
        ensures grain { IfOk result (λ lane. grain_of lane ≡ grain) }
        ensures breaks { IfOk result (λ lane. breaks_of lane ≡ breaks.now) }
    {
        let breaks = Vec::from_slice(alloc, breaks)?;
        Ok(Lane {
            steps,
            grain,
            breaks,
        })
    }

    /// The power of two that its values are rounded down to.
    pub fn grain(&self) -> u32
        ensures { result ≡ grain_of self.now }
    {
        self.grain
    }

    /// Its breakpoints.
    pub fn breaks(&self) -> &[(u32, u32)]
        ensures { result.now ≡ breaks_of self.now }
    {
        &self.breaks
    }

    /// Its normalised value at a sample: of the first breakpoint up to there, of the last one from there on,
    /// and on the straight line between two; rounded down, then quantised.
    pub fn value_at(&self, s: u32) -> u32
        ensures value { result ≡ value_of self.now s }
        ensures within { result ≤ 2 ^ 24 }
    {
        let passed = passed(&self.breaks, s);
        self.value_behind(passed, s)
    }

    /// The value at a sample, up to which so many breakpoints stand.
    #[tactic(auto, using(crate::proofs::Bounds::quant_no_more))]
    fn value_behind(&self, passed: usize, s: u32) -> u32
        requires passed { ArePassed self.now.breaks.items passed s }
        ensures value { result ≡ value_of self.now s }
        ensures within { result ≤ 2 ^ 24 }
    {
        let line = line(&self.breaks, passed, s);
        quant(line >> self.grain << self.grain, self.steps)
    }

    /// Adds a point to the last queue, which is empty, at offset `s - from` for each sample s from `from` to
    /// `to` - 1 whose value differs from the one before; before `from` it is `last`. Where `to` isn't above
    /// `from` there is none. What these points mean is a law: [`points_mean_values`](crate::laws::points_mean_values).
    pub fn changes(&self, from: u32, to: u32, last: u32, q: usize, out: &mut Points)
        requires last { q + 1 ≡ length (queues_of out.old) }
        requires empty { (queue_at (queues_of out.old) q).points ≡ [] }
        requires room { to - from ≤ point_room out.old }
        ensures sent { queues_of out.new ≡ with_points (queues_of out.old) q (changes_of (value_of self.now) from last (to - from)) }
        ensures queue_room { queue_room out.new ≡ queue_room out.old }
        ensures most_points { most_points out.new ≡ most_points out.old }
        ensures point_room { point_room out.new + length (changes_of (value_of self.now) from last (to - from)) ≡ point_room out.old }
    {
        let mut passed = passed(&self.breaks, from);
        let mut before = last;
        for s in from..to {
            passed = pass(&self.breaks, passed, s);
            let value = self.value_behind(passed, s);
            if value != before {
                out.add_point(q, s - from, value);
                before = value;
            }
        }
    }
}

/// How many breakpoints stand up to a sample.
fn passed(breaks: &[(u32, u32)], s: u32) -> usize
    requires { AreBreaks breaks.now }
    ensures { ArePassed breaks.now result s }
{
    breaks.partition_point(|point| point.0 <= s)
}

/// The same where it is known for the sample before.
#[tactic(auto, using(crate::proofs::Segments::pass_one, crate::proofs::Segments::pass_end, crate::proofs::Segments::pass_other))]
fn pass(breaks: &[(u32, u32)], passed: usize, s: u32) -> usize
    requires breaks { AreBreaks breaks.now }
    requires passed { AreReached breaks.now passed s }
    ensures { ArePassed breaks.now result s }
{
    if passed == breaks.len() {
        return passed;
    }
    if breaks[passed].0 == s {
        passed + 1
    } else {
        passed
    }
}

/// The lines' value at a sample, up to which so many breakpoints stand.
#[tactic(auto, using(crate::proofs::Segments::line_first, crate::proofs::Segments::line_end, crate::proofs::Segments::line_inner))]
fn line(breaks: &[(u32, u32)], passed: usize, s: u32) -> u32
    requires breaks { AreBreaks breaks.now }
    requires passed { ArePassed breaks.now passed s }
    ensures value { result ≡ line_at breaks.now s }
    ensures within { result ≤ 2 ^ 24 }
{
    if passed == 0 {
        breaks[0].1
    } else if passed == breaks.len() {
        breaks[passed - 1].1
    } else {
        between(breaks[passed - 1], breaks[passed], s)
    }
}

/// The value at a sample on the straight line between two breakpoints.
#[tactic(auto, using(crate::proofs::Bounds::on_line_within))]
fn between(from: (u32, u32), to: (u32, u32), s: u32) -> u32
    requires from { from.0 ≤ s }
    requires to { s < to.0 }
    requires values { (from.1 ≤ 2 ^ 24) × (to.1 ≤ 2 ^ 24) }
    ensures value { result ≡ on_line from to s }
    ensures within { result ≤ 2 ^ 24 }
{
    let (p, a) = from;
    let (q, b) = to;
    let weighted = u64::from(a) * u64::from(q - s) + u64::from(b) * u64::from(s - p);
    (weighted / u64::from(q - p)) as u32
}
