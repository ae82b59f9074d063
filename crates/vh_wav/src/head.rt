ghost use Rattle.std.specs.Prelude.{◌≡◌, ◌≤◌, ℕ, ◌+◌, ◌*◌, min, Bool, true, List, length, take, drop, Option, Some, None, IsSome, Result, Ok, Err, IfOk, IfSome, OnErr, ◌∷◌, ◌<◌, ◌^◌};

use crate::chunk::Chunk;
use thiserror::Error;
use vh_files::{Failed, Files, field16, field32, fill};

/// Where the frames of a WAV file stand, and how they are coded (RIFF WAVE, PCM).
#[derive(Clone, Copy, Debug, PartialEq, Eq)]
pub struct Head {
    /// 1 or 2.
    pub channels: u16,
    /// Frames a second, 1 to 768,000.
    pub rate: u32,
    /// Bits of a sample, 16 or 24.
    pub bits: u16,
    /// The place of the first frame in the file, in bytes.
    pub at: u64,
    /// The number of frames.
    pub frames: u64,
}

/// Why a file is no WAV file that is read here.
#[derive(Clone, Copy, Debug, PartialEq, Eq, Error)]
pub enum WavFault {
    #[error("not a RIFF WAVE file")]
    NotRiff,
    #[error("no `fmt ` chunk before the samples")]
    NoFmt,
    #[error("a `fmt ` chunk with a wrong size or number")]
    BadFmt,
    /// The coding's tag and the bits of a sample.
    #[error("coding {0} with {1} bits isn't supported")]
    Unsupported(u16, u16),
    #[error("no `data` chunk")]
    NoData,
    #[error("a chunk passes the end of the file")]
    Truncated,
    /// The channels of the file, which are not the session's.
    #[error("{0} channels, and not those of the session")]
    OtherChannels(u16),
}

/// Why [`read_head`] gave no head.
#[derive(Clone, Copy, Debug, PartialEq, Eq, Error)]
pub enum HeadRefused {
    #[error("{0}")]
    Wav(WavFault),
    #[error("the file can't be read")]
    Failed,
}

/// What a `fmt ` chunk says.
#[derive(Clone, Copy, Debug)]
pub struct Format {
    pub channels: u16,
    pub rate: u32,
    pub bits: u16,
}

/// What a chunk decides: the head, or the format with which the walk goes on.
#[derive(Clone, Copy, Debug)]
pub enum Judged {
    Found(Head),
    Walk(Option<Format>),
}

ghost use Rattle.vh_files.specs.Causes.{Rose, OnlyRead};
ghost use Rattle.vh_files.specs.Store.{told};
ghost use Rattle.vh_wav.specs.Judged.{wav_head, is_riff, first_fault, coding_rules, number_rules, format_of, verdict, missing, align_of};
ghost use Rattle.vh_wav.specs.Heads.{IsHead, IsFormat, IsSeen, IsRead, IsLawful, IsVerdict, continued, frames_end};
ghost use Rattle.vh_files.specs.Fields.{field_at};
ghost use Rattle.vh_wav.specs.Chunks.{Chunk as SpecChunk};

const PCM: u16 = 1;

const EXTENSIBLE: u16 = 0xFFFE;

/// The subformat of integer samples in the extensible form (KSDATAFORMAT_SUBTYPE_PCM).
const PCM_SUBFORMAT: [u8; 16] = [
    0x01, 0x00, 0x00, 0x00, 0x00, 0x00, 0x10, 0x00, 0x80, 0x00, 0x00, 0xAA, 0x00, 0x38, 0x9B, 0x71,
];

/// The first fault of the coding of a `fmt ` body.
fn coding_fault(size: u32, front: &[u8]) -> Option<WavFault>
    requires { length front.now ≡ min size 40 }
    ensures { result ≡ first_fault (coding_rules size front.now) }
{
    if size < 16 {
        return Some(WavFault::BadFmt);
    }
    let tag = field16(front, 0);
    let bits = field16(front, 14);
    if tag != PCM && tag != EXTENSIBLE {
        return Some(WavFault::Unsupported(tag, bits));
    }
    if tag == EXTENSIBLE && size < 40 {
        return Some(WavFault::BadFmt);
    }
    if tag == EXTENSIBLE && &front[24..40] != PCM_SUBFORMAT.as_slice() {
        return Some(WavFault::Unsupported(tag, bits));
    }
    None
}

/// The first fault of the numbers of a `fmt ` body.
fn number_fault(front: &[u8]) -> Option<WavFault>
    requires { 16 ≤ length front.now }
    ensures { result ≡ first_fault (number_rules front.now) }
{
    let channels = field16(front, 2);
    let rate = field32(front, 4);
    let bits = field16(front, 14);
    if bits != 16 && bits != 24 {
        return Some(WavFault::Unsupported(field16(front, 0), bits));
    }
    if channels == 0 || rate == 0 {
        return Some(WavFault::BadFmt);
    }
    if channels > 2 || rate > 768_000 {
        return Some(WavFault::Unsupported(field16(front, 0), bits));
    }
    if field16(front, 12) != channels * (bits / 8) {
        return Some(WavFault::BadFmt);
    }
    None
}

/// Judges the front of a `fmt ` body of this size.
fn read_format(size: u32, front: &[u8]) -> Result<Format, WavFault>
    requires { length front.now ≡ min size 40 }
    ensures value { result ≡ format_of size front.now }
    ensures lawful { IfOk result IsFormat }
{
    if let Some(fault) = coding_fault(size, front) {
        return Err(fault);
    }
    if let Some(fault) = number_fault(front) {
        return Err(fault);
    }
    Ok(Format {
        channels: field16(front, 2),
        rate: field32(front, 4),
        bits: field16(front, 14),
    })
}

/// What a chunk whose body ends within the file decides, where this format was met before it.
fn judge(format: Option<Format>, chunk: &Chunk) -> Result<Judged, WavFault>
    requires { IfSome format IsFormat }
    ensures value { (is : SpecChunk) (rest : List SpecChunk) → IsSeen chunk.now is → is.fits ≡ true → verdict format (is ∷ rest) ≡ continued result rest }
    ensures lawful { IfOk result (IsLawful (chunk.now.at + field_at chunk.now.bytes 4 4)) }
{
    let is_data = chunk.id() == b"data".as_slice();
    match format {
        None if chunk.id() == b"fmt ".as_slice() => {
            let format = read_format(chunk.size(), chunk.front())?;
            Ok(Judged::Walk(Some(format)))
        }
        None if is_data => Err(WavFault::NoFmt),
        Some(format) if is_data => {
            let align = u64::from(format.channels * (format.bits / 8));
            Ok(Judged::Found(Head {
                channels: format.channels,
                rate: format.rate,
                bits: format.bits,
                at: chunk.at,
                frames: u64::from(chunk.size()) / align,
            }))
        }
        _ => Ok(Judged::Walk(format)),
    }
}

impl From<Failed> for HeadRefused {
    ghost use Rattle.vh_wav.specs.declared.head.HeadRefused.TheVariants.{Failed};

    ghost from_gives = { λ _ refused. refused ≡ Failed };

    fn from(_failed: Failed) -> HeadRefused {
        HeadRefused::Failed
    }
}

impl From<WavFault> for HeadRefused {
    ghost use Rattle.vh_wav.specs.declared.head.HeadRefused.TheVariants.{Wav};

    ghost from_gives = { λ fault refused. refused ≡ Wav fault };

    fn from(fault: WavFault) -> HeadRefused {
        HeadRefused::Wav(fault)
    }
}

/// Whether the file begins with the marks of a RIFF WAVE file.
fn has_marks<F: Files>(files: &mut F, name: &str, size: u64) -> Result<bool, Failed>
    requires there { F.complete files.old ≡ true → IsSome (told (F.held files.old) name.now) }
    requires size { (bytes : List ℕ) → told (F.held files.old) name.now ≡ Some bytes → size ≡ length bytes }
    ensures value { (bytes : List ℕ) → told (F.held files.old) name.now ≡ Some bytes → IfOk result (λ marks. marks ≡ is_riff bytes) }
    ensures long { IfOk result (λ marks. marks ≡ true → 12 ≤ size) }
    ensures only_read { OnlyRead (F.held files.old) (F.held files.new) (F.complete files.old) (F.complete files.new) (F.write_faults files.old) (F.write_faults files.new) (F.read_faults files.old) (F.read_faults files.new) }
    ensures failed { OnErr result (Rose (F.read_faults files.old) (F.read_faults files.new)) }
{
    if size < 12 {
        return Ok(false);
    }
    let mut front = [0u8; 12];
    let got = fill(files, name, 0, &mut front)?;
    Ok(got == 12 && &front[..4] == b"RIFF".as_slice() && &front[8..] == b"WAVE".as_slice())
}

/// Reads the front of the chunk at a place of the file, where eight bytes are left.
fn read_chunk<F: Files>(
    files: &mut F,
    name: &str,
    size: u64,
    at: u64,
) -> Result<Option<Chunk>, HeadRefused>
    requires there { F.complete files.old ≡ true → IsSome (told (F.held files.old) name.now) }
    requires size { (bytes : List ℕ) → told (F.held files.old) name.now ≡ Some bytes → size ≡ length bytes }
    requires within { at ≤ size }
    ensures value { (bytes : List ℕ) → told (F.held files.old) name.now ≡ Some bytes → IsRead bytes at result }
    ensures fits { IfOk result (λ chunk. IfSome chunk (λ c. (c.at ≡ at + 8) × (c.at + field_at c.bytes 4 4 ≤ size))) }
    ensures only_read { OnlyRead (F.held files.old) (F.held files.new) (F.complete files.old) (F.complete files.new) (F.write_faults files.old) (F.write_faults files.new) (F.read_faults files.old) (F.read_faults files.new) }
    ensures failed { result ≡ Err HeadRefused.Failed → Rose (F.read_faults files.old) (F.read_faults files.new) }
{
    let left = size - at;
    if left < 8 {
        return Ok(None);
    }
    let mut bytes = [0u8; 48];
    let room = left.min(48) as usize;
    let got = fill(files, name, at, &mut bytes[..room])?;
    if got < 8 {
        return Ok(None);
    }
    let chunk = Chunk { bytes, at: at + 8 };
    if u64::from(chunk.size()) > left - 8 {
        return Err(HeadRefused::Wav(WavFault::Truncated));
    }
    Ok(Some(chunk))
}

/// Reads where the frames of a WAV file stand and how they are coded. `size` is the file's length.
pub fn read_head<F: Files>(files: &mut F, name: &str, size: u64) -> Result<Head, HeadRefused>
    requires there { F.complete files.old ≡ true → IsSome (told (F.held files.old) name.now) }
    requires size { (bytes : List ℕ) → told (F.held files.old) name.now ≡ Some bytes → size ≡ length bytes }
    ensures verdict { (bytes : List ℕ) → told (F.held files.old) name.now ≡ Some bytes → IsVerdict (wav_head bytes) result }
    ensures lawful { IfOk result IsHead }
    ensures within { IfOk result (λ head. frames_end head ≤ size) }
    ensures fits { IfOk result (λ head. frames_end head < 2 ^ 64) }
    ensures only_read { OnlyRead (F.held files.old) (F.held files.new) (F.complete files.old) (F.complete files.new) (F.write_faults files.old) (F.write_faults files.new) (F.read_faults files.old) (F.read_faults files.new) }
    ensures failed { result ≡ Err HeadRefused.Failed → Rose (F.read_faults files.old) (F.read_faults files.new) }
{
    if !has_marks(files, name, size)? {
        return Err(HeadRefused::Wav(WavFault::NotRiff));
    }
    let mut format = None;
    let mut at = 12;
    'walk: loop {
        let chunk = match read_chunk(files, name, size, at)? {
            Some(chunk) => chunk,
            None => return Err(HeadRefused::Wav(missing(&format))),
        };
        match judge(format, &chunk)? {
            Judged::Found(head) => return Ok(head),
            Judged::Walk(next) => format = next,
        }
        let length = u64::from(chunk.size());
        let end = chunk.at + length;
        if length % 2 > size - end {
            return Err(HeadRefused::Wav(missing(&format)));
        }
        at = end + length % 2;
    }
}

/// What is wrong with a file that has no further chunk.
fn missing(format: &Option<Format>) -> WavFault
    ensures { result ≡ missing format.now }
{
    match format {
        None => WavFault::NoFmt,
        Some(_) => WavFault::NoData,
    }
}
