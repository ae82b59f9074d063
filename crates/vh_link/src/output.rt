//! The file that is written.

ghost use Rattle.std.specs.Prelude.{◌≡◌, ◌≤◌, ◌+◌, ◌*◌, ◌%◌, ◌^◌, ◌==◌, ◌⊎◌, length, take, OnOk, OnErr};
ghost use Rattle.vh_files.specs.Causes.{Rose};
ghost use Rattle.vh_files.specs.Store.{told, Lacks, HasNow, Grows, GrowsInPart, SameElsewhere};
ghost use Rattle.vh_num.specs.Frames.{frames_of};
ghost use Rattle.vh_wav.specs.Heads.{IsHead};
ghost use Rattle.vh_wav.specs.Text.{head_text, frames_text, data_size};
ghost use Rattle.vh_link.specs.Outputs.{HasPart, NoneLost, pad_text};

use vh_files::{Failed, Files, append_all};
use vh_wav::{Head, frame_bytes, head_bytes};

/// Creates a file and adds the head of so many frames, with the input's channels and rate.
pub(crate) fn write_head<F: Files>(
    files: &mut F,
    name: &str,
    head: &Head,
    bits: u16,
    frames: u32,
) -> Result<(), Failed>
    requires head { IsHead head.now }
    requires bits { (bits ≡ 16) ⊎ (bits ≡ 24) }
    requires frames { frames ≤ 2 ^ 24 }
    ensures text { OnOk result (HasNow (F.complete files.old) (told (F.held files.new) name.now) (head_text head.now.channels head.now.rate bits frames)) }
    ensures part { OnErr result ((F.held files.new ≡ F.held files.old) ⊎ HasPart (F.complete files.old) (told (F.held files.new) name.now) (head_text head.now.channels head.now.rate bits frames)) }
    ensures there { OnOk result (¬ Lacks (F.complete files.new) (F.held files.new) name.now) }
    ensures none_lost { NoneLost (F.complete files.old) (F.held files.old) (F.complete files.new) (F.held files.new) }
    ensures others { SameElsewhere name.now (F.held files.old) (F.held files.new) }
    ensures rose { OnErr result (Rose (F.write_faults files.old) (F.write_faults files.new)) }
    ensures later { F.write_faults files.old ≤ F.write_faults files.new }
    ensures complete { F.complete files.new ≡ F.complete files.old }
    ensures reads { F.read_faults files.new ≡ F.read_faults files.old }
{
    let text = head_bytes(head.channels, head.rate, bits, frames);
    files.create(name)?;
    append_all(files, name, &text)
}

/// Adds frames, given channel after channel, to a file. Their bytes go through `bytes`.
pub(crate) fn write_frames<F: Files>(
    files: &mut F,
    name: &str,
    channels: u16,
    bits: u16,
    n: usize,
    frames: &[i32],
    bytes: &mut [u8],
) -> Result<(), Failed>
    requires channels { (channels ≡ 1) ⊎ (channels ≡ 2) }
    requires bits { (bits ≡ 16) ⊎ (bits ≡ 24) }
    requires long { length frames.now ≡ channels * n }
    requires most { n ≤ 8192 }
    requires room { 6 * n ≤ length bytes.old }
    requires there { ¬ Lacks (F.complete files.old) (F.held files.old) name.now }
    ensures grown { OnOk result (Grows (F.complete files.old) (told (F.held files.old) name.now) (told (F.held files.new) name.now) (frames_text bits (frames_of channels frames.now))) }
    ensures part { OnErr result (GrowsInPart (F.complete files.old) (told (F.held files.old) name.now) (told (F.held files.new) name.now) (frames_text bits (frames_of channels frames.now))) }
    ensures none_lost { NoneLost (F.complete files.old) (F.held files.old) (F.complete files.new) (F.held files.new) }
    ensures others { SameElsewhere name.now (F.held files.old) (F.held files.new) }
    ensures rose { OnErr result (Rose (F.write_faults files.old) (F.write_faults files.new)) }
    ensures later { F.write_faults files.old ≤ F.write_faults files.new }
    ensures complete { F.complete files.new ≡ F.complete files.old }
    ensures reads { F.read_faults files.new ≡ F.read_faults files.old }
    ensures long { length bytes.new ≡ length bytes.old }
{
    let used = frame_bytes(bits, frames, usize::from(channels), bytes);
    append_all(files, name, &bytes[..used])
}

/// Whether the bytes of so many frames are odd in number.
fn is_odd(frames: u32, channels: u16, bits: u16) -> bool
    requires frames { frames ≤ 2 ^ 24 }
    requires channels { (channels ≡ 1) ⊎ (channels ≡ 2) }
    requires bits { (bits ≡ 16) ⊎ (bits ≡ 24) }
    ensures { result ≡ (data_size channels bits frames % 2 == 1) }
{
    let align = channels * (bits / 8);
    frames * u32::from(align) % 2 == 1
}

/// Adds the byte that makes the bytes of so many frames even, where they are odd.
pub(crate) fn write_pad<F: Files>(
    files: &mut F,
    name: &str,
    channels: u16,
    bits: u16,
    frames: u32,
) -> Result<(), Failed>
    requires channels { (channels ≡ 1) ⊎ (channels ≡ 2) }
    requires bits { (bits ≡ 16) ⊎ (bits ≡ 24) }
    requires frames { frames ≤ 2 ^ 24 }
    requires there { ¬ Lacks (F.complete files.old) (F.held files.old) name.now }
    ensures grown { OnOk result (Grows (F.complete files.old) (told (F.held files.old) name.now) (told (F.held files.new) name.now) (pad_text channels bits frames)) }
    ensures part { OnErr result (GrowsInPart (F.complete files.old) (told (F.held files.old) name.now) (told (F.held files.new) name.now) (pad_text channels bits frames)) }
    ensures none_lost { NoneLost (F.complete files.old) (F.held files.old) (F.complete files.new) (F.held files.new) }
    ensures others { SameElsewhere name.now (F.held files.old) (F.held files.new) }
    ensures rose { OnErr result (Rose (F.write_faults files.old) (F.write_faults files.new)) }
    ensures later { F.write_faults files.old ≤ F.write_faults files.new }
    ensures complete { F.complete files.new ≡ F.complete files.old }
    ensures reads { F.read_faults files.new ≡ F.read_faults files.old }
{
    if is_odd(frames, channels, bits) {
        append_all(files, name, &[0])
    } else {
        Ok(())
    }
}

/// Keeps samples in the front of `kept`.
#[cold]
pub(crate) fn keep(samples: &[i32], kept: &mut [i32])
    requires room { length samples.now ≤ length kept.old }
    ensures front { take (length samples.now) kept.new ≡ samples.now }
    ensures long { length kept.new ≡ length kept.old }
{
    kept[..samples.len()].copy_from_slice(samples);
}
