ghost use Rattle.std.specs.Prelude.{◌≡◌, ◌≤◌, ◌*◌, ◌^◌, ◌⊎◌, [], true, length, OnOk};
ghost use Rattle.vh_files.specs.Store.{told, Lacks};
ghost use Rattle.vh_wav.specs.Heads.{IsHead};

use crate::pieces::Pieces;
use std::alloc::{AllocError, Global};
use std::test::Fail;
use vh_files::{Failed, Files, MemFiles};
use vh_link::{Buffers, WavLink};
use vh_wav::{Frames, Head, read_head};

/// Two frames of two channels, 16 bits, at 48,000 frames a second: (1, -1) and the lowest and the highest sample.
const STEREO_16: &[u8] =
    b"RIFF\x2C\0\0\0WAVEfmt \x10\0\0\0\x01\0\x02\0\x80\xBB\0\0\0\xEE\x02\0\x04\0\x10\0data\x08\0\0\0\x01\0\xFF\xFF\0\x80\xFF\x7F";

/// The same with 24 bits.
const STEREO_24: &[u8] =
    b"RIFF\x30\0\0\0WAVEfmt \x10\0\0\0\x01\0\x02\0\x80\xBB\0\0\0\x65\x04\0\x06\0\x18\0data\x0C\0\0\0\0\x01\0\0\xFF\xFF\0\0\x80\0\xFF\x7F";

/// Three frames of one channel, 24 bits, at 44,100 frames a second: 1, -1 and the highest sample, and the pad.
const MONO_24: &[u8] =
    b"RIFF\x2E\0\0\0WAVEfmt \x10\0\0\0\x01\0\x01\0\x44\xAC\0\0\xCC\x04\x02\0\x03\0\x18\0data\x09\0\0\0\x01\0\0\xFF\xFF\xFF\xFF\xFF\x7F\0";

/// The same rounded down to 16 bits.
const MONO_16: &[u8] =
    b"RIFF\x2A\0\0\0WAVEfmt \x10\0\0\0\x01\0\x01\0\x44\xAC\0\0\x88\x58\x01\0\x02\0\x10\0data\x06\0\0\0\0\0\xFF\xFF\xFF\x7F";

/// As many frames without sound.
const SILENT_16: &[u8] =
    b"RIFF\x2A\0\0\0WAVEfmt \x10\0\0\0\x01\0\x01\0\x44\xAC\0\0\x88\x58\x01\0\x02\0\x10\0data\x06\0\0\0\0\0\0\0\0\0";

/// Adds all frames that it takes, in calls of at most `block`.
fn relay<L: Frames>(
    link: &mut L,
    channels: usize,
    frames: usize,
    block: usize,
    samples: &mut [i32],
) -> Result<(), Failed>
    requires channels { L.channels link.old ≡ channels }
    requires one_or_two { (channels ≡ 1) ⊎ (channels ≡ 2) }
    requires some { 1 ≤ block }
    requires most { block ≤ L.max link.old }
    requires few { block ≤ 8192 }
    requires room { L.room link.old ≡ frames }
    requires none { L.pushed link.old ≡ 0 }
    requires whole { L.cut link.old ≡ [] }
    requires samples { length samples.old ≡ channels * block }
    ensures all { OnOk result (L.pushed link.new ≡ frames) }
    ensures whole { OnOk result (L.cut link.new ≡ []) }
    ensures room { L.room link.new ≡ frames }
    ensures rest { L.rest link.new ≡ L.rest link.old }
{
    let mut done = 0;
    while done < frames {
        let n = block.min(frames - done);
        let part = &mut samples[..channels * n];
        link.pull(n, part)?;
        link.push(n, part)?;
        done += n;
    }
    Ok(())
}

/// Starts an output, writes it whole and ends it.
fn write_whole<F: Files>(
    link: &mut WavLink<'_, F>,
    channels: u16,
    frames: u32,
    block: u32,
    samples: &mut [i32],
) -> Result<(), Failed>
    requires channels { link.old.head.channels ≡ channels }
    requires one_or_two { (channels ≡ 1) ⊎ (channels ≡ 2) }
    requires some { 1 ≤ block }
    requires most { block ≤ link.old.max }
    requires small { block ≤ 8192 }
    requires few { frames ≤ 2 ^ 24 }
    requires room { link.old.room ≡ 0 }
    requires none { link.old.pushed ≡ 0 }
    requires whole { link.old.cut ≡ [] }
    requires samples { length samples.old ≡ channels * block }
{
    link.start(frames)?;
    relay(
        link,
        usize::from(channels),
        frames as usize,
        block as usize,
        samples,
    )?;
    link.finish()
}

/// The bytes of `output` where so many frames of `in` were written to it in calls of `block` frames, over a store that
/// reads `most` bytes at once; nothing where the file is refused.
fn written(
    alloc: Global,
    input: &[u8],
    output: &str,
    bits: u16,
    block: u32,
    most: usize,
) -> Result<Option<Vec<u8>>, AllocError>
    requires bits { (bits ≡ 16) ⊎ (bits ≡ 24) }
    requires some { 1 ≤ block }
    requires few { block ≤ 8192 }
    requires pieces { 1 ≤ most }
{
    let mut files = MemFiles::new(alloc)?;
    files.put(alloc, "in", Vec::from_slice(alloc, input)?)?;
    let mut files = Pieces { files, most };
    let Ok(size) = files.size("in") else {
        return Ok(None);
    };
    let Ok(head) = read_head(&mut files, "in", size) else {
        return Ok(None);
    };
    if head.frames > 16 {
        return Ok(None);
    }
    let buffers = Buffers::new(alloc, head.channels, block)?;
    let mut samples = vec![in alloc; 0i32; usize::from(head.channels) * block as usize]?;
    let source = String::from_str(alloc, "in")?;
    let target = String::from_str(alloc, output)?;
    let mut link = WavLink::new(&mut files, source, head, target, bits, buffers);
    let done = write_whole(
        &mut link,
        head.channels,
        head.frames as u32,
        block,
        &mut samples,
    );
    let _ = link.into_files();
    match (done, files.files.get(output)) {
        (Ok(()), Some(bytes)) => Ok(Some(Vec::from_slice(alloc, bytes)?)),
        _ => Ok(None),
    }
}

/// Whatever a call takes and whatever the store reads at once, the output is the same.
#[test]
fn outputs_are_those_of_the_format(rt: HostRuntime) -> Result<(), Fail> {
    let alloc = rt.alloc();
    let rows = [
        (STEREO_16, "out", 16, STEREO_16),
        (STEREO_16, "out", 24, STEREO_24),
        (STEREO_24, "out", 16, STEREO_16),
        (MONO_24, "out", 24, MONO_24),
        (MONO_24, "out", 16, MONO_16),
        (MONO_16, "in", 16, SILENT_16),
    ];
    for (input, output, bits, wanted) in rows {
        for block in [1, 2, 8192] {
            for most in [1, 7, 4096] {
                let bytes = written(alloc, input, output, bits, block, most)?.expect(
                    &rt,
                    "it is written",
                );
                assert_eq!(rt; bytes.as_slice(), wanted);
            }
        }
    }
    Ok(())
}
