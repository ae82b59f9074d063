//! Sound in memory.

ghost use Rattle.std.specs.Prelude.{◌≡◌, ◌≤◌, ◌<◌, ◌+◌, ◌*◌, ◌^◌, ◌⊎◌, ℕ, true, List, length, Some, IsSome, OnOk, OnErr, IfOk};
ghost use Rattle.vh_files.specs.Causes.{Rose, OnlyRead};
ghost use Rattle.vh_files.specs.Store.{told};
ghost use Rattle.vh_num.specs.Frames.{frame_at};
ghost use Rattle.vh_num.specs.declared.refusal.Refusal.TheVariants.{Fault};
ghost use Rattle.vh_wav.specs.Frames.{HoldsFrames};
ghost use Rattle.vh_wav.specs.Heads.{IsHead, frames_end};
ghost use Rattle.vh_render.specs.Sounds.{AreFrames};

use std::alloc::{AllocError, Global};
use vh_files::{Failed, Files};
use vh_num::Refusal;
use vh_wav::{Head, read_frames};

/// How many frames are read at once.
const CHUNK: usize = 65_536;

/// The samples of one channel or two, channel after channel, 2^-23 of full scale each.
#[derive(Drop)]
pub struct Sound {
    pub channels: u16,
    /// Of each channel, at most 2^24.
    pub frames: u32,
    pub samples: Vec<i32>,
    ghost one: { 1 ≤ channels },
    ghost two: { channels ≤ 2 },
    ghost most: { frames ≤ 2 ^ 24 },
    ghost long: { length samples.items ≡ channels * frames },
}

/// Room to read into: for all samples, for those of a chunk and for its bytes.
#[derive(Drop)]
struct Buffers {
    samples: Vec<i32>,
    chunk: Vec<i32>,
    scratch: Vec<u8>,
}

impl Buffers {
    fn new(alloc: Global, channels: usize, frames: usize) -> Result<Buffers, AllocError>
        requires channels { (channels ≡ 1) ⊎ (channels ≡ 2) }
        requires most { frames ≤ 2 ^ 24 }
        ensures samples { IfOk result (λ buffers. length buffers.samples.items ≡ channels * frames) }
        ensures chunk { IfOk result (λ buffers. length buffers.chunk.items ≡ channels * 65536) }
        ensures scratch { IfOk result (λ buffers. length buffers.scratch.items ≡ 6 * 65536) }
    {
        Ok(Buffers {
            samples: vec![in alloc; 0i32; channels * frames]?,
            chunk: vec![in alloc; 0i32; channels * CHUNK]?,
            scratch: vec![in alloc; 0u8; 6 * CHUNK]?,
        })
    }
}

/// Puts the next frames of a chunk, which has them channel after channel, behind the first `done` of all.
fn place(chunk: &[i32], n: usize, samples: &mut [i32], frames: usize, done: usize, channels: u16)
    requires channels { (channels ≡ 1) ⊎ (channels ≡ 2) }
    requires chunk { length chunk.now ≡ channels * n }
    requires samples { length samples.old ≡ channels * frames }
    requires within { done + n ≤ frames }
    requires few { channels * frames < 2 ^ 63 }
    ensures placed { AreFrames channels n chunk.now 0 n frames samples.new done }
    ensures before { AreFrames channels frames samples.old 0 done frames samples.new 0 }
    ensures long { length samples.new ≡ length samples.old }
{
    samples[done..done + n].copy_from_slice(&chunk[..n]);
    if channels == 2 {
        samples[frames + done..frames + done + n].copy_from_slice(&chunk[n..]);
    }
}

/// Puts so many frames of two channels, from this one on, into `out`.
fn gather(samples: &[i32], frames: usize, from: usize, n: usize, out: &mut [i32])
    requires samples { length samples.now ≡ 2 * frames }
    requires within { from + n ≤ frames }
    requires out { length out.old ≡ 2 * n }
    ensures frames { AreFrames 2 frames samples.now from n n out.new 0 }
    ensures long { length out.new ≡ length out.old }
{
    out[0..n].copy_from_slice(&samples[from..from + n]);
    out[n..n + n].copy_from_slice(&samples[frames + from..frames + from + n]);
}

/// Reads all frames into `samples`, chunk by chunk.
fn read_all<F: Files>(
    files: &mut F,
    name: &str,
    head: &Head,
    frames: usize,
    samples: &mut [i32],
    chunk: &mut [i32],
    scratch: &mut [u8],
) -> Result<(), Failed>
    requires there { F.complete files.old ≡ true → IsSome (told (F.held files.old) name.now) }
    requires head { IsHead head.now }
    requires fits { frames_end head.now < 2 ^ 64 }
    requires samples { length samples.old ≡ head.now.channels * frames }
    requires most { frames ≤ 2 ^ 24 }
    requires chunk { head.now.channels * 65536 ≤ length chunk.old }
    requires scratch { 6 * 65536 ≤ length scratch.old }
    ensures frames { (bytes : List ℕ) → told (F.held files.old) name.now ≡ Some bytes → OnOk result (HoldsFrames bytes head.now 0 frames samples.new) }
    ensures long { length samples.new ≡ length samples.old }
    ensures only_read { OnlyRead (F.held files.old) (F.held files.new) (F.complete files.old) (F.complete files.new) (F.write_faults files.old) (F.write_faults files.new) (F.read_faults files.old) (F.read_faults files.new) }
    ensures failed { OnErr result (Rose (F.read_faults files.old) (F.read_faults files.new)) }
{
    let channels = usize::from(head.channels);
    let mut done = 0;
    while done < frames {
        let n = CHUNK.min(frames - done);
        let part = &mut chunk[..channels * n];
        read_frames(files, name, head, done as u64, n, scratch, part)?;
        place(part, n, samples, frames, done, head.channels);
        done += n;
    }
    Ok(())
}

impl Sound {
    /// Reads so many frames of a WAV file, from its first on, silent past its last. It fails where a read does, or
    /// for want of memory.
    pub fn read<F: Files>(
        alloc: Global,
        files: &mut F,
        name: &str,
        head: &Head,
        frames: u32,
    ) -> Result<Sound, Refusal<Failed>>
        requires there { F.complete files.old ≡ true → IsSome (told (F.held files.old) name.now) }
        requires head { IsHead head.now }
        requires fits { frames_end head.now < 2 ^ 64 }
        requires most { frames ≤ 2 ^ 24 }
        ensures frames { (bytes : List ℕ) → told (F.held files.old) name.now ≡ Some bytes → IfOk result (λ sound. HoldsFrames bytes head.now 0 frames sound.samples.items) }
        ensures channels { IfOk result (λ sound. sound.channels ≡ head.now.channels) }
        ensures count { IfOk result (λ sound. sound.frames ≡ frames) }
        ensures only_read { OnlyRead (F.held files.old) (F.held files.new) (F.complete files.old) (F.complete files.new) (F.write_faults files.old) (F.write_faults files.new) (F.read_faults files.old) (F.read_faults files.new) }
        ensures failed { (f : Failed) → result ≡ Err (Refusal.Fault f) → Rose (F.read_faults files.old) (F.read_faults files.new) }
    {
        let Ok(buffers) = Buffers::new(alloc, usize::from(head.channels), frames as usize) else {
            return Err(Refusal::Memory);
        };
        let Buffers {
            mut samples,
            mut chunk,
            mut scratch,
        } = buffers;
        match read_all(
            files,
            name,
            head,
            frames as usize,
            &mut samples,
            &mut chunk,
            &mut scratch,
        ) {
            Ok(()) => Ok(Sound {
                channels: head.channels,
                frames,
                samples,
            }),
            Err(failed) => Err(Refusal::Fault(failed)),
        }
    }

    /// So many frames from this one on, channel after channel: of one channel where they lie, of two in `room`.
    pub fn piece<'a>(&'a self, from: usize, n: usize, room: &'a mut [i32]) -> &'a [i32]
        requires within { from + n ≤ self.now.frames }
        requires room { length room.old ≡ self.now.channels * n }
        ensures frames { (place : ℕ) → place < n → frame_at self.now.channels n result.now place ≡ frame_at self.now.channels self.now.frames self.now.samples.items (from + place) }
        ensures long { length result.now ≡ self.now.channels * n }
    {
        if self.channels == 1 {
            return &self.samples[from..from + n];
        }
        gather(&self.samples, self.frames as usize, from, n, room);
        room
    }
}
