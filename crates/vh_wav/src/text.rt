ghost use Rattle.std.specs.Prelude.{◌≡◌, ◌≤◌, ◌⊎◌, ℕ, ◌+◌, ◌*◌, ◌/◌, ◌^◌, ◌<◌, length, take, drop, ◌++◌, ◌%◌};
ghost use Rattle.std.specs.List.{flat_map, zip};
ghost use Rattle.vh_num.specs.Frames.{frames_of};
ghost use Rattle.vh_wav.specs.Text.{head_text, sample_bytes, frames_text, rounded};

/// The head of the file that is written: `RIFF`, a `fmt ` chunk of 16 bytes and the front of the
/// `data` chunk, for so many frames.
pub fn head_bytes(channels: u16, rate: u32, bits: u16, frames: u32) -> [u8; 44]
    requires channels { (channels ≡ 1) ⊎ (channels ≡ 2) }
    requires bits { (bits ≡ 16) ⊎ (bits ≡ 24) }
    requires rate { rate ≤ 768000 }
    requires frames { frames ≤ 2 ^ 24 }
    ensures { result ≡ head_text channels rate bits frames }
{
    let align = channels * (bits / 8);
    let data_size = frames * u32::from(align);
    let riff = (36 + data_size + data_size % 2).to_le_bytes();
    let c = channels.to_le_bytes();
    let r = rate.to_le_bytes();
    let s = (rate * u32::from(align)).to_le_bytes();
    let a = align.to_le_bytes();
    let b = bits.to_le_bytes();
    let d = data_size.to_le_bytes();
    [
        b'R', b'I', b'F', b'F', riff[0], riff[1], riff[2], riff[3], b'W', b'A', b'V', b'E', //
        b'f', b'm', b't', b' ', 16, 0, 0, 0, 1, 0, c[0], c[1], r[0], r[1], r[2], r[3], //
        s[0], s[1], s[2], s[3], a[0], a[1], b[0], b[1], //
        b'd', b'a', b't', b'a', d[0], d[1], d[2], d[3],
    ]
}

/// The two bytes of a 16-bit sample: the upper 16 of 24 bits, rounded down.
#[inline(always)]
fn bytes16(x: i32) -> [u8; 2]
    ensures { result ≡ sample_bytes 16 x }
{
    let b = x.div_euclid(256).clamp(-0x8000, 0x7FFF).to_le_bytes();
    [b[0], b[1]]
}

/// The three bytes of a 24-bit sample.
#[inline(always)]
fn bytes24(x: i32) -> [u8; 3]
    ensures { result ≡ sample_bytes 24 x }
{
    let b = x.clamp(-0x80_0000, 0x7F_FFFF).to_le_bytes();
    [b[0], b[1], b[2]]
}

fn encode_mono16(samples: &[i32], out: &mut [u8])
    requires { 2 * length samples.now ≤ length out.old }
    ensures { take (2 * length samples.now) out.new ≡ flat_map (sample_bytes 16) samples.now }
{
    for i in 0..samples.len() {
        out[2 * i..2 * i + 2].copy_from_slice(&bytes16(samples[i]));
    }
}

fn encode_mono24(samples: &[i32], out: &mut [u8])
    requires { 3 * length samples.now ≤ length out.old }
    ensures { take (3 * length samples.now) out.new ≡ flat_map (sample_bytes 24) samples.now }
{
    for i in 0..samples.len() {
        out[3 * i..3 * i + 3].copy_from_slice(&bytes24(samples[i]));
    }
}

fn encode_stereo16(left: &[i32], right: &[i32], out: &mut [u8])
    requires channels { length left.now ≡ length right.now }
    requires room { 4 * length left.now ≤ length out.old }
    ensures { take (4 * length left.now) out.new ≡ flat_map (λ p. sample_bytes 16 p.0 ++ sample_bytes 16 p.1) (zip left.now right.now) }
{
    for i in 0..left.len() {
        let l = bytes16(left[i]);
        let r = bytes16(right[i]);
        out[4 * i..4 * i + 4].copy_from_slice(&[l[0], l[1], r[0], r[1]]);
    }
}

fn encode_stereo24(left: &[i32], right: &[i32], out: &mut [u8])
    requires channels { length left.now ≡ length right.now }
    requires room { 6 * length left.now ≤ length out.old }
    ensures { take (6 * length left.now) out.new ≡ flat_map (λ p. sample_bytes 24 p.0 ++ sample_bytes 24 p.1) (zip left.now right.now) }
{
    for i in 0..left.len() {
        let l = bytes24(left[i]);
        let r = bytes24(right[i]);
        out[6 * i..6 * i + 6].copy_from_slice(&[l[0], l[1], l[2], r[0], r[1], r[2]]);
    }
}

/// Writes frames, given channel after channel, as the bytes of the `data` chunk into the front of
/// `out`, and answers how many bytes these are.
pub fn frame_bytes(bits: u16, frames: &[i32], channels: usize, out: &mut [u8]) -> usize
    requires channels { (channels ≡ 1) ⊎ (channels ≡ 2) }
    requires whole { length frames.now % channels ≡ 0 }
    requires bits { (bits ≡ 16) ⊎ (bits ≡ 24) }
    requires room { length frames.now * (bits / 8) ≤ length out.old }
    ensures used { result ≡ length frames.now * (bits / 8) }
    ensures bytes { take result out.new ≡ frames_text bits (frames_of channels frames.now) }
{
    let used = frames.len() * usize::from(bits / 8);
    let count = frames.len() / channels;
    match (channels, bits) {
        (1, 16) => encode_mono16(frames, out),
        (1, _) => encode_mono24(frames, out),
        (_, 16) => encode_stereo16(&frames[..count], &frames[count..], out),
        (_, _) => encode_stereo24(&frames[..count], &frames[count..], out),
    }
    used
}
