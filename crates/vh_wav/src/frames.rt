ghost use Rattle.std.specs.Prelude.{◌≡◌, ◌≤◌, ◌<◌, ◌⊎◌, ℕ, ◌+◌, ◌*◌, ◌/◌, ◌^◌, ◌-◌, true, List, Some, IsSome, OnOk, OnErr, IfOk, length, take, drop, slice_index_or, pos, ◌*ℤ◌, if◌then◌else◌, nat_lt};
ghost use Rattle.vh_files.specs.Causes.{Rose, OnlyRead};
ghost use Rattle.vh_files.specs.Fields.{field_at};
ghost use Rattle.vh_files.specs.Store.{told};
ghost use Rattle.vh_wav.specs.Heads.{IsHead, frames_end};
ghost use Rattle.vh_wav.specs.Judged.{align_of};
ghost use Rattle.vh_wav.specs.Samples.{signed, sample_at, HasWhole, HasBytes};
ghost use Rattle.vh_wav.specs.Frames.{HoldsFrames};

use crate::head::Head;
use byteorder::{ByteOrder, LittleEndian};
use vh_files::{Failed, Files, field16, fill};

/// The 16-bit sample at a place, as the upper bits of 24.
#[inline(always)]
fn sample16(bytes: &[u8], at: usize) -> i32
    requires { at + 2 ≤ length bytes.now }
    ensures { result ≡ signed 16 (field_at bytes.now at 2) *ℤ pos 256 }
{
    i32::from(field16(bytes, at).cast_signed()) * 256
}

/// The 24-bit sample at a place.
#[inline(always)]
fn sample24(bytes: &[u8], at: usize) -> i32
    requires { at + 3 ≤ length bytes.now }
    ensures { result ≡ signed 24 (field_at bytes.now at 3) }
{
    let number = LittleEndian::read_u24(&bytes[at..]);
    if number < 0x80_0000 {
        number as i32
    } else {
        number as i32 - 0x100_0000
    }
}

/// Reads 16-bit samples that stand so many bytes apart.
#[inline(always)]
fn decode16(bytes: &[u8], offset: usize, stride: usize, out: &mut [i32])
    requires room { length out.old * stride ≤ length bytes.now }
    requires stride { offset + 2 ≤ stride }
    ensures { (k : ℕ) → k < length out.new → slice_index_or out.new k (pos 0) ≡ signed 16 (field_at bytes.now (k * stride + offset) 2) *ℤ pos 256 }
{
    let mut at = offset;
    for i in 0..out.len() {
        out[i] = sample16(bytes, at);
        at += stride;
    }
}

/// Reads 24-bit samples that stand so many bytes apart.
#[inline(always)]
fn decode24(bytes: &[u8], offset: usize, stride: usize, out: &mut [i32])
    requires room { length out.old * stride ≤ length bytes.now }
    requires stride { offset + 3 ≤ stride }
    ensures { (k : ℕ) → k < length out.new → slice_index_or out.new k (pos 0) ≡ signed 24 (field_at bytes.now (k * stride + offset) 3) }
{
    let mut at = offset;
    for i in 0..out.len() {
        out[i] = sample24(bytes, at);
        at += stride;
    }
}

/// Reads one channel's samples; the channel begins at `offset` in each frame of `align` bytes.
fn decode(bits: u16, bytes: &[u8], offset: usize, align: usize, out: &mut [i32])
    requires bits { (bits ≡ 16) ⊎ (bits ≡ 24) }
    requires frames { length out.old * align ≤ length bytes.now }
    requires channel { offset + bits / 8 ≤ align }
    ensures { (k : ℕ) → k < length out.new → slice_index_or out.new k (pos 0) ≡ sample_at bits bytes.now (k * align + offset) }
{
    match (bits, align) {
        (16, 2) => decode16(bytes, offset, 2, out),
        (16, _) => decode16(bytes, offset, align, out),
        (_, 3) => decode24(bytes, offset, 3, out),
        (_, _) => decode24(bytes, offset, align, out),
    }
}

/// Reads one channel of the first `whole` frames in `bytes`; the places past them become zero.
fn decode_channel(
    bits: u16,
    bytes: &[u8],
    whole: usize,
    offset: usize,
    align: usize,
    out: &mut [i32],
)
    requires bits { (bits ≡ 16) ⊎ (bits ≡ 24) }
    requires frames { whole * align ≤ length bytes.now }
    requires channel { offset + bits / 8 ≤ align }
    requires room { whole ≤ length out.old }
    ensures { (k : ℕ) → k < length out.new → slice_index_or out.new k (pos 0) ≡ (if nat_lt k whole then sample_at bits bytes.now (k * align + offset) else pos 0) }
{
    decode(bits, bytes, offset, align, &mut out[..whole]);
    out[whole..].fill(0);
}

/// Reads the channels of the first `whole` frames in `bytes`, `n` places each; the places past the
/// frames become zero.
fn decode_frames(head: &Head, bytes: &[u8], whole: usize, n: usize, out: &mut [i32])
    requires head { IsHead head.now }
    requires frames { whole * align_of head.now.channels head.now.bits ≤ length bytes.now }
    requires most { whole ≤ n }
    requires room { length out.old ≡ head.now.channels * n }
    ensures { (channel i : ℕ) → channel < head.now.channels → i < n → slice_index_or out.new (channel * n + i) (pos 0)
        ≡ (if nat_lt i whole then sample_at head.now.bits bytes.now (i * align_of head.now.channels head.now.bits + channel * (head.now.bits / 8)) else pos 0) }
{
    let width = usize::from(head.bits / 8);
    if head.channels == 1 {
        decode_channel(head.bits, bytes, whole, 0, width, out);
    } else {
        let align = 2 * width;
        decode_channel(head.bits, bytes, whole, 0, align, &mut out[..n]);
        decode_channel(head.bits, bytes, whole, width, align, &mut out[n..]);
    }
}

/// Reads the bytes of at most `n` frames from frame `from` on, and answers how many frames are there.
fn fetch<F: Files>(
    files: &mut F,
    name: &str,
    head: &Head,
    from: u64,
    n: usize,
    scratch: &mut [u8],
) -> Result<usize, Failed>
    requires there { F.complete files.old ≡ true → IsSome (told (F.held files.old) name.now) }
    requires head { IsHead head.now }
    requires fits { frames_end head.now < 2 ^ 64 }
    requires room { 6 * n ≤ length scratch.old }
    ensures most { IfOk result (λ whole. whole ≤ n) }
    ensures count { (bytes : List ℕ) → told (F.held files.old) name.now ≡ Some bytes → IfOk result (λ whole. HasWhole bytes head.now from n whole) }
    ensures bytes { (bytes : List ℕ) → told (F.held files.old) name.now ≡ Some bytes → IfOk result (λ whole. HasBytes bytes head.now from whole scratch.new) }
    ensures only_read { OnlyRead (F.held files.old) (F.held files.new) (F.complete files.old) (F.complete files.new) (F.write_faults files.old) (F.write_faults files.new) (F.read_faults files.old) (F.read_faults files.new) }
    ensures failed { OnErr result (Rose (F.read_faults files.old) (F.read_faults files.new)) }
{
    let left = head.frames.saturating_sub(from).min(n as u64) as usize;
    if left == 0 {
        return Ok(0);
    }
    let align = usize::from(head.channels * (head.bits / 8));
    let at = head.at + from * align as u64;
    let got = fill(files, name, at, &mut scratch[..left * align])?;
    Ok(got / align)
}

/// Reads `n` frames from frame `from` on into `out`, channel after channel, `n` samples of each in
/// units of 2^-23 of full scale. Frames past the file's last are silent. The bytes go through
/// `scratch`.
pub fn read_frames<F: Files>(
    files: &mut F,
    name: &str,
    head: &Head,
    from: u64,
    n: usize,
    scratch: &mut [u8],
    out: &mut [i32],
) -> Result<(), Failed>
    requires there { F.complete files.old ≡ true → IsSome (told (F.held files.old) name.now) }
    requires head { IsHead head.now }
    requires fits { frames_end head.now < 2 ^ 64 }
    requires scratch { 6 * n ≤ length scratch.old }
    requires room { length out.old ≡ head.now.channels * n }
    ensures frames { (bytes : List ℕ) → told (F.held files.old) name.now ≡ Some bytes → OnOk result (HoldsFrames bytes head.now from n out.new) }
    ensures only_read { OnlyRead (F.held files.old) (F.held files.new) (F.complete files.old) (F.complete files.new) (F.write_faults files.old) (F.write_faults files.new) (F.read_faults files.old) (F.read_faults files.new) }
    ensures failed { OnErr result (Rose (F.read_faults files.old) (F.read_faults files.new)) }
{
    let whole = fetch(files, name, head, from, n, scratch)?;
    let align = usize::from(head.channels * (head.bits / 8));
    decode_frames(head, &scratch[..whole * align], whole, n, out);
    Ok(())
}
