//! Frames in memory.

ghost use Rattle.std.specs.Prelude.{◌≡◌, ◌≤◌, ◌<◌, ◌+◌, ◌*◌, ◌%◌, ◌^◌, ◌⊎◌, ◌++◌, ℕ, List, [], ◌∷◌, length, drop, slice_index_or, pos, vec_len, vec_capacity, IfOk};
ghost use Rattle.vh_num.specs.Frames.{Frame, frames_of};
ghost use Rattle.vh_wav.specs.Streams.{ArePulled};
ghost use Rattle.vh_wav.specs.InMemory.{interleaved, woven};

use crate::stream::Frames;
use std::alloc::{AllocError, Global};
use std::marker::Model;
use vh_files::Failed;

/// An input in memory, and room for an output: frames interleaved. No call of it fails.
#[derive(Drop)]
pub struct ListFrames {
    ins: Vec<i32>,
    outs: Vec<i32>,
    channels: u16,
    room: usize,
    total: usize,
    at: usize,
    count: usize,
}

impl Model for ListFrames {
    ghost use Rattle.vh_wav.specs.InMemory.{AtListFrames};

    ghost Value = { AtListFrames };

    ghost use Rattle.vh_wav.specs.InMemory.{at_list_frames, AreWhole};

    ghost view = { at_list_frames };

    ghost invariant = { AreWhole };
}

/// Copies one channel's samples from interleaved ones, from this place on and so many apart; zero past the last.
fn copy_channel(ins: &[i32], from: usize, stride: usize, out: &mut [i32])
    requires { from + length out.old * stride < 2 ^ 64 }
    ensures samples { (k : ℕ) → k < length out.new → slice_index_or out.new k (pos 0) ≡ slice_index_or ins.now (from + k * stride) (pos 0) }
    ensures long { length out.new ≡ length out.old }
{
    let mut at = from;
    for k in 0..out.len() {
        out[k] = ins.get(at).copied().unwrap_or(0);
        at += stride;
    }
}

/// Adds the samples of one channel.
fn add(samples: &[i32], outs: &mut Vec<i32>)
    requires room { vec_len outs.old + length samples.now ≤ vec_capacity outs.old }
    ensures added { outs.new.items ≡ outs.old.items ++ samples.now }
    ensures capacity { vec_capacity outs.new ≡ vec_capacity outs.old }
{
    for k in 0..samples.len() {
        outs.push_reserved(samples[k]);
    }
}

/// Adds a frame of two channels.
fn add_pair(left: i32, right: i32, outs: &mut Vec<i32>)
    requires room { vec_len outs.old + 2 ≤ vec_capacity outs.old }
    ensures added { outs.new.items ≡ outs.old.items ++ left ∷ right ∷ [] }
    ensures long { vec_len outs.new ≡ vec_len outs.old + 2 }
    ensures capacity { vec_capacity outs.new ≡ vec_capacity outs.old }
{
    outs.push_reserved(left);
    outs.push_reserved(right);
}

/// Adds the samples of two channels, in turn.
fn weave(left: &[i32], right: &[i32], outs: &mut Vec<i32>)
    requires both { length left.now ≡ length right.now }
    requires room { vec_len outs.old + 2 * length left.now ≤ vec_capacity outs.old }
    ensures woven { outs.new.items ≡ outs.old.items ++ woven left.now right.now }
    ensures capacity { vec_capacity outs.new ≡ vec_capacity outs.old }
{
    for k in 0..left.len() {
        add_pair(left[k], right[k], outs);
    }
}

/// Copies n frames from interleaved ones, of which there are `total`, from this one on; silence past the last.
fn copy_frames(ins: &[i32], channels: u16, total: usize, at: usize, n: usize, out: &mut [i32])
    requires channels { (channels ≡ 1) ⊎ (channels ≡ 2) }
    requires total { length ins.now ≡ channels * total }
    requires at { at ≤ total }
    requires few { n ≤ 8192 }
    requires room { length out.old ≡ channels * n }
    ensures frames { ArePulled channels (drop at (interleaved channels ins.now)) n out.new }
    ensures long { length out.new ≡ length out.old }
{
    if channels == 1 {
        copy_channel(ins, at, 1, out);
        return;
    }
    let (left, right) = out.split_at_mut(n);
    copy_channel(ins, 2 * at, 2, left);
    copy_channel(ins, 2 * at + 1, 2, right);
}

/// Adds n frames to so many interleaved ones.
fn add_frames(outs: &mut Vec<i32>, channels: u16, count: usize, n: usize, frames: &[i32])
    requires channels { (channels ≡ 1) ⊎ (channels ≡ 2) }
    requires count { length outs.old.items ≡ channels * count }
    requires frames { length frames.now ≡ channels * n }
    requires room { vec_len outs.old + length frames.now ≤ vec_capacity outs.old }
    ensures added { interleaved channels outs.new.items ≡ interleaved channels outs.old.items ++ frames_of channels frames.now }
    ensures long { length outs.new.items ≡ channels * (count + n) }
    ensures capacity { vec_capacity outs.new ≡ vec_capacity outs.old }
{
    if channels == 1 {
        add(frames, outs);
        return;
    }
    weave(&frames[..n], &frames[n..], outs);
}

impl ListFrames {
    /// Frames of one channel or two to read, interleaved, and room for so many to add.
    pub fn new(
        alloc: Global,
        ins: Vec<i32>,
        channels: u16,
        room: usize,
    ) -> Result<ListFrames, AllocError>
        requires channels { (channels ≡ 1) ⊎ (channels ≡ 2) }
        requires whole { length ins.items % channels ≡ 0 }
        ensures { IfOk result (λ frames. frames ≡ record { channels = channels; room = room; left = interleaved channels ins.items; added = [] }) }
    {
        let Some(samples) = usize::from(channels).checked_mul(room) else {
            return Err(AllocError);
        };
        let outs = Vec::with_capacity(alloc, samples)?;
        let total = ins.len() / usize::from(channels);
        Ok(ListFrames {
            ins,
            outs,
            channels,
            room,
            total,
            at: 0,
            count: 0,
        })
    }

    /// The frames that were added, interleaved.
    pub fn pushed(&self) -> &[i32]
        ensures frames { interleaved self.now.channels result.now ≡ self.now.added }
        ensures long { length result.now ≡ self.now.channels * length self.now.added }
    {
        &self.outs
    }
}

impl Frames for ListFrames {
    ghost use Rattle.std.specs.Prelude.{◌≡◌, [], length};

    ghost channels = { λ f. f.channels };

    ghost room = { λ f. f.room };

    ghost pushed = { λ f. length f.added };

    ghost max = { λ f. 8192 };

    ghost reads = { λ f input. f.left ≡ input };

    ghost wrote = { λ f frames. f.added ≡ frames };

    ghost cut = { λ f. [] };

    ghost pull_faults = { λ f. 0 };

    ghost push_faults = { λ f. 0 };

    ghost Rest = { Unit {0} };

    ghost rest = { λ f. tt };

    fn pull(&mut self, n: usize, out: &mut [i32]) -> Result<(), Failed> {
        copy_frames(&self.ins, self.channels, self.total, self.at, n, out);
        self.at += n.min(self.total - self.at);
        Ok(())
    }

    fn push(&mut self, n: usize, frames: &[i32]) -> Result<(), Failed> {
        add_frames(&mut self.outs, self.channels, self.count, n, frames);
        self.count += n;
        Ok(())
    }
}
