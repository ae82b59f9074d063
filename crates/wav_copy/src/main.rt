//! `wav_copy IN OUT BITS`: copies the frames of a WAV file to a new one, of 16 or 24 bits. The checks and
//! the benchmark run it over real files.
#![tactic(auto)]

ghost use Rattle.std.specs.Prelude.{◌≡◌, ◌⊎◌, ◌<◌, ◌≤◌, ◌*◌, ◌%◌, ◌^◌, length, false};
ghost use Rattle.vh_wav.specs.Heads.{IsHead, frames_end};

use std::alloc::Global;
use std::env;
use std::process::ExitCode;
use thiserror::Error;
use vh_files::{DiskFiles, Files, append_all};
use vh_wav::{Head, HeadRefused, frame_bytes, head_bytes, read_frames, read_head};

/// Why there is no copy.
#[derive(Clone, Copy, Debug, Error)]
enum CopyFault {
    #[error("{0}")]
    Refused(HeadRefused),
    #[error("more than 16,777,216 frames")]
    TooLong,
    #[error("a file can't be read or written")]
    Failed,
    #[error("out of memory")]
    Memory,
}

/// How many frames are copied at once.
const BLOCK: usize = 65_536;

/// How many samples so many frames have.
fn sample_count(channels: u16, n: usize) -> usize
    requires channels { (channels ≡ 1) ⊎ (channels ≡ 2) }
    requires most { n ≤ BLOCK }
    ensures value { result ≡ channels * n }
    ensures most { result ≤ 2 * BLOCK }
    ensures whole { result % channels ≡ 0 }
{
    if channels == 1 { n } else { 2 * n }
}

/// Gives the bytes of some samples in the front of `bytes`, and answers how many these are.
fn encode(bits: u16, channels: u16, samples: &[i32], bytes: &mut [u8]) -> usize
    requires bits { (bits ≡ 16) ⊎ (bits ≡ 24) }
    requires channels { (channels ≡ 1) ⊎ (channels ≡ 2) }
    requires whole { length samples.now % channels ≡ 0 }
    requires most { length samples.now ≤ 2 * BLOCK }
    requires room { length bytes.old ≡ 6 * BLOCK }
    ensures { result ≤ 6 * BLOCK }
{
    frame_bytes(bits, samples, usize::from(channels), bytes)
}

/// Copies the frames of a file to one that has its head already.
fn copy_frames<F: Files>(
    alloc: Global,
    files: &mut F,
    input: &str,
    output: &str,
    head: &Head,
    bits: u16,
) -> Result<(), CopyFault>
    requires outside { F.complete files.old ≡ false }
    requires bits { (bits ≡ 16) ⊎ (bits ≡ 24) }
    requires head { IsHead head.now }
    requires fits { frames_end head.now < 2 ^ 64 }
    requires most { head.now.frames ≤ 2 ^ 24 }
    ensures { F.complete files.new ≡ false }
{
    let Ok(mut frames) = vec![in alloc; 0i32; 2 * BLOCK] else {
        return Err(CopyFault::Memory);
    };
    let Ok(mut bytes) = vec![in alloc; 0u8; 6 * BLOCK] else {
        return Err(CopyFault::Memory);
    };
    let mut done = 0;
    while done < head.frames {
        let n = (head.frames - done).min(BLOCK as u64) as usize;
        let count = sample_count(head.channels, n);
        let block = &mut frames.as_mut_slice()[..count];
        if read_frames(files, input, head, done, n, bytes.as_mut_slice(), block).is_err() {
            return Err(CopyFault::Failed);
        }
        let used = encode(bits, head.channels, block, bytes.as_mut_slice());
        if append_all(files, output, &bytes.as_slice()[..used]).is_err() {
            return Err(CopyFault::Failed);
        }
        done += n as u64;
    }
    Ok(())
}

/// Copies a file.
fn copy<F: Files>(
    alloc: Global,
    files: &mut F,
    input: &str,
    output: &str,
    bits: u16,
) -> Result<(), CopyFault>
    requires outside { F.complete files.old ≡ false }
    requires bits { (bits ≡ 16) ⊎ (bits ≡ 24) }
{
    let Ok(size) = files.size(input) else {
        return Err(CopyFault::Failed);
    };
    let head = match read_head(files, input, size) {
        Ok(head) => head,
        Err(refused) => return Err(CopyFault::Refused(refused)),
    };
    if head.frames > 16_777_216 {
        return Err(CopyFault::TooLong);
    }
    let front = head_bytes(head.channels, head.rate, bits, head.frames as u32);
    if files.create(output).is_err() || append_all(files, output, &front).is_err() {
        return Err(CopyFault::Failed);
    }
    copy_frames(alloc, files, input, output, &head, bits)?;
    let odd = bits == 24 && head.channels == 1 && head.frames % 2 == 1;
    if odd && append_all(files, output, &[0]).is_err() {
        return Err(CopyFault::Failed);
    }
    Ok(())
}

fn main(rt: HostRuntime) -> ExitCode {
    let Ok(args) = env::args(&rt) else {
        return ExitCode::from(1);
    };
    let Ok(words) = args.skip(1).collect::<Vec<String>>(rt.alloc()) else {
        return ExitCode::from(1);
    };
    let bits = match words.as_slice() {
        [_, _, bits] if bits.as_str() == "24" => 24,
        [_, _, bits] if bits.as_str() == "16" => 16,
        _ => return ExitCode::from(1),
    };
    let mut files = DiskFiles::new(&rt);
    match copy(
        rt.alloc(),
        &mut files,
        words[0].as_str(),
        words[1].as_str(),
        bits,
    ) {
        Ok(()) => ExitCode::from(0),
        Err(fault) => {
            let _ = println!(rt; "{fault}");
            ExitCode::from(2)
        }
    }
}
