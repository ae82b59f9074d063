ghost use Rattle.std.specs.Prelude.{◌≡◌, ◌≤◌, ◌^◌, IfOk, IfSome};

use std::alloc::{AllocError, Global};
use std::test::Fail;
use vh_files::{Files, MemFiles};
use vh_render::{Room, Sound};
use vh_wav::read_head;

/// Two frames of two channels, 16 bits, at 48,000 frames a second: (1, -1) and the lowest and the highest sample.
const STEREO: &[u8; 52] =
    b"RIFF\x2C\0\0\0WAVEfmt \x10\0\0\0\x01\0\x02\0\x80\xBB\0\0\0\xEE\x02\0\x04\0\x10\0data\x08\0\0\0\x01\0\xFF\xFF\0\x80\xFF\x7F";

/// Three frames of one channel, 24 bits, at 44,100 frames a second: 1, -1 and the highest sample, and the pad.
const MONO: &[u8; 54] =
    b"RIFF\x2E\0\0\0WAVEfmt \x10\0\0\0\x01\0\x01\0\x44\xAC\0\0\xCC\x04\x02\0\x03\0\x18\0data\x09\0\0\0\x01\0\0\xFF\xFF\xFF\xFF\xFF\x7F\0";

/// So many frames of a file, or nothing where it is refused.
fn heard(alloc: Global, bytes: &[u8], frames: u32) -> Result<Option<Sound>, AllocError>
    requires { frames ≤ 2 ^ 24 }
    ensures { IfOk result (λ found. IfSome found (λ sound. sound.frames ≡ frames)) }
{
    let mut files = MemFiles::new(alloc)?;
    files.put(alloc, "in", Vec::from_slice(alloc, bytes)?)?;
    let Ok(size) = files.size("in") else {
        return Ok(None);
    };
    let Ok(head) = read_head(&mut files, "in", size) else {
        return Ok(None);
    };
    match Sound::read(alloc, &mut files, "in", &head, frames) {
        Ok(sound) => Ok(Some(sound)),
        Err(_) => Ok(None),
    }
}

/// Past the file's last frame a sound is silent, and a piece has both channels' samples in turn.
#[test]
fn a_piece_of_two_channels_is_gathered(rt: HostRuntime) -> Result<(), Fail> {
    let alloc = rt.alloc();
    let sound = heard(alloc, STEREO, 3)?.expect(&rt, "two channels are read");
    assert_eq!(rt;
        sound.samples.as_slice(),
        [256, -8_388_608, 0, -256, 8_388_352, 0].as_slice()
    );
    let mut room = vec![in alloc; 0i32; usize::from(sound.channels) * 2]?;
    assert_eq!(rt;
        sound.piece(1, 2, &mut room),
        [-8_388_608, 0, 8_388_352, 0].as_slice()
    );
    Ok(())
}

/// Of a longer file the first frames are read, and a piece lies where they lie.
#[test]
fn a_piece_of_one_channel_lies_in_place(rt: HostRuntime) -> Result<(), Fail> {
    let alloc = rt.alloc();
    let sound = heard(alloc, MONO, 2)?.expect(&rt, "one channel is read");
    assert_eq!(rt; sound.samples.as_slice(), [1, -1].as_slice());
    let mut room = vec![in alloc; 0i32; usize::from(sound.channels)]?;
    assert_eq!(rt; sound.piece(1, 1, &mut room), [-1].as_slice());
    Ok(())
}

#[test]
fn room_is_made(rt: HostRuntime) {
    assert!(rt; Room::new(rt.alloc(), 2, 8192).is_ok());
}
