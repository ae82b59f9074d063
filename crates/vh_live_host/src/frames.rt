//! The input's frames, one after another.

ghost use Rattle.std.specs.Prelude.{◌≡◌, ◌≤◌, ◌<◌, ◌+◌, ◌*◌, ◌^◌, ◌++◌, ℕ, [], ◌∷◌, length, slice_index_or, IfOk, vec_len, vec_capacity};
ghost use Rattle.vh_num.specs.Frames.{Frame, frame_at};
ghost use Rattle.vh_wav.specs.InMemory.{interleaved, woven};

use std::alloc::{AllocError, Global};
use vh_render::Sound;
use vh_wav::ListFrames;

/// Adds a frame of two channels.
fn push_pair(left: i32, right: i32, samples: &mut Vec<i32>)
    requires room { vec_len samples.old + 2 ≤ vec_capacity samples.old }
    ensures added { samples.new.items ≡ samples.old.items ++ left ∷ right ∷ [] }
    ensures long { vec_len samples.new ≡ vec_len samples.old + 2 }
    ensures capacity { vec_capacity samples.new ≡ vec_capacity samples.old }
{
    samples.push_reserved(left);
    samples.push_reserved(right);
}

/// The samples of two channels, in turn.
fn weave(alloc: Global, left: &[i32], right: &[i32]) -> Result<Vec<i32>, AllocError>
    requires both { length left.now ≡ length right.now }
    requires few { length left.now ≤ 2 ^ 24 }
    ensures { IfOk result (λ samples. samples.items ≡ woven left.now right.now) }
{
    let mut samples = Vec::with_capacity(alloc, 2 * left.len())?;
    for (place, &sample) in left.iter().enumerate() {
        push_pair(sample, right[place], &mut samples);
    }
    Ok(samples)
}

/// The samples of a sound, frame by frame.
fn interleave(alloc: Global, sound: Sound) -> Result<Vec<i32>, AllocError>
    ensures frames { IfOk result (λ samples. (place : ℕ) (d : Frame) → place < sound.frames
        → slice_index_or (interleaved sound.channels samples.items) place d ≡ frame_at sound.channels sound.frames sound.samples.items place) }
    ensures long { IfOk result (λ samples. length samples.items ≡ sound.channels * sound.frames) }
{
    let Sound {
        channels,
        frames,
        samples,
    } = sound;
    if channels == 1 {
        return Ok(samples);
    }
    let (left, right) = samples.split_at(frames as usize);
    weave(alloc, left, right)
}

/// Frames of a sound to read, and room for as many to add.
pub(crate) fn list_frames(alloc: Global, sound: Sound) -> Result<ListFrames, AllocError>
    ensures left { IfOk result (λ frames. (place : ℕ) (d : Frame) → place < sound.frames
        → slice_index_or frames.left place d ≡ frame_at sound.channels sound.frames sound.samples.items place) }
    ensures channels { IfOk result (λ frames. frames.channels ≡ sound.channels) }
    ensures room { IfOk result (λ frames. frames.room ≡ sound.frames) }
    ensures none { IfOk result (λ frames. frames.added ≡ []) }
{
    let channels = sound.channels;
    let room = sound.frames as usize;
    let samples = interleave(alloc, sound)?;
    ListFrames::new(alloc, samples, channels, room)
}
