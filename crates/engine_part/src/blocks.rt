//! A session's blocks.

ghost use Rattle.std.specs.Prelude.{◌≡◌, ◌<◌, ◌≤◌, ◌+◌, ◌*◌, ◌^◌, length, true, false};
ghost use Rattle.vh_engine.specs.Kept.{IsSameEngine};
ghost use Rattle.engine_part.specs.Playing.{HasClasses};

use crate::carried::are_carried;
use vh_engine::Engine;
use vh_journal::Entry;
use vh_params::Command;
use vh_plugin::Processor;

/// The length of the block at a sample: at most `size` frames, to the end or to the next message.
fn block_length(entries: &[Entry], at: u32, frames: u32, size: u32) -> u32
    requires at { at < frames }
    requires size { 1 ≤ size }
    ensures some { 1 ≤ result }
    ensures most { result ≤ size }
    ensures within { at + result ≤ frames }
{
    let mut n = size.min(frames - at);
    for entry in entries {
        if let Command::Tell { .. } = entry.command
            && at < entry.sample
            && entry.sample - at < n
        {
            n = entry.sample - at;
        }
    }
    n
}

/// The place of the first entry, from one on, that isn't before a sample.
fn place_of(entries: &[Entry], first: usize, past: u32) -> usize
    requires { first ≤ length entries.now }
    ensures from { first ≤ result }
    ensures within { result ≤ length entries.now }
{
    let mut place = first;
    while place < entries.len() && entries[place].sample < past {
        place += 1;
    }
    place
}

/// Takes the frames of a block out of all frames.
fn take(all: &[i32], frames: usize, channels: usize, at: usize, n: usize, block: &mut [i32])
    requires some { 1 ≤ channels }
    requires most { channels ≤ 2 }
    requires all { length all.now ≡ channels * frames }
    requires within { at + n ≤ frames }
    requires few { frames ≤ 2 ^ 24 }
    requires block { length block.old ≡ channels * n }
{
    block[..n].copy_from_slice(&all[at..at + n]);
    if channels == 2 {
        block[n..].copy_from_slice(&all[frames + at..frames + at + n]);
    }
}

/// Puts them there.
fn put(block: &[i32], frames: usize, channels: usize, at: usize, n: usize, all: &mut [i32])
    requires some { 1 ≤ channels }
    requires most { channels ≤ 2 }
    requires all { length all.old ≡ channels * frames }
    requires within { at + n ≤ frames }
    requires few { frames ≤ 2 ^ 24 }
    requires block { length block.now ≡ channels * n }
{
    all[at..at + n].copy_from_slice(&block[..n]);
    if channels == 2 {
        all[frames + at..frames + at + n].copy_from_slice(&block[n..]);
    }
}

/// What an engine plays: its session's frames and channels, in blocks of at most `size` frames, over an input whose
/// samples stand channel after channel, and with these entries, by rising sample.
#[derive(Clone, Copy)]
pub(crate) struct Score<'a> {
    pub(crate) frames: u32,
    pub(crate) channels: u16,
    pub(crate) size: u32,
    pub(crate) input: &'a [i32],
    pub(crate) entries: &'a [Entry],
    ghost some_channels: { 1 ≤ channels },
    ghost most_channels: { channels ≤ 2 },
    ghost most: { frames ≤ 2 ^ 24 },
    ghost some_frames: { 1 ≤ size },
    ghost most_frames: { size ≤ 8192 },
    ghost all: { length input.now ≡ channels * frames },
}

/// Plays the next block, where it may carry these entries.
fn play_block<P: Processor + Drop>(
    engine: &mut Engine<P>,
    score: &Score,
    at: u32,
    n: u32,
    entries: &[Entry],
    ins: &mut [i32],
    outs: &mut [i32],
) -> bool
    requires some { 1 ≤ n }
    requires most { n ≤ score.now.size }
    requires within { at + n ≤ score.now.frames }
    requires at { engine.old.at ≡ at }
    requires going { engine.old.flushed ≡ false }
    requires length { engine.old.session.length ≡ score.now.frames }
    requires channels { engine.old.session.channels ≡ score.now.channels }
    requires size { engine.old.max ≡ score.now.size }
    requires room { length entries.now ≤ engine.old.room }
    requires classes { HasClasses P.class_of engine.old }
    requires ins { length ins.old ≡ score.now.channels * n }
    requires outs { length outs.old ≡ score.now.channels * n }
    ensures at { result ≡ true → engine.new.at ≡ at + n }
    ensures room { engine.old.room ≤ engine.new.room + length entries.now }
    ensures going { engine.new.flushed ≡ false }
    ensures same { IsSameEngine engine.old engine.new }
{
    if !are_carried(&engine.session().nodes, entries, at, at + n) {
        return false;
    }
    let channels = usize::from(score.channels);
    let (from, n) = (at as usize, n as usize);
    take(score.input, score.frames as usize, channels, from, n, ins);
    engine.block(n, entries, ins, outs);
    true
}

/// Plays all blocks and the end, or stops at a block that may not carry its entries.
pub(crate) fn play_blocks<P: Processor + Drop>(
    engine: &mut Engine<P>,
    score: &Score,
    ins: &mut [i32],
    outs: &mut [i32],
    output: &mut [i32],
) -> bool
    requires at { engine.old.at ≡ 0 }
    requires going { engine.old.flushed ≡ false }
    requires length { engine.old.session.length ≡ score.now.frames }
    requires channels { engine.old.session.channels ≡ score.now.channels }
    requires size { engine.old.max ≡ score.now.size }
    requires room { length score.now.entries.now ≤ engine.old.room }
    requires classes { HasClasses P.class_of engine.old }
    requires ins { length ins.old ≡ score.now.channels * score.now.size }
    requires outs { length outs.old ≡ score.now.channels * score.now.size }
    requires output { length output.old ≡ score.now.channels * score.now.frames }
    ensures same { IsSameEngine engine.old engine.new }
{
    let channels = usize::from(score.channels);
    let frames = score.frames as usize;
    let mut at = 0;
    let mut taken = 0;
    while at < score.frames {
        let n = block_length(score.entries, at, score.frames, score.size);
        let next = place_of(score.entries, taken, at + n);
        let k = channels * n as usize;
        let (ins, outs) = (&mut ins[..k], &mut outs[..k]);
        if !play_block(engine, score, at, n, &score.entries[taken..next], ins, outs) {
            return false;
        }
        put(outs, frames, channels, at as usize, n as usize, output);
        at += n;
        taken = next;
    }
    let last = &score.entries[taken..];
    if !are_carried(&engine.session().nodes, last, at, at + 1) {
        return false;
    }
    engine.flush(last);
    true
}
