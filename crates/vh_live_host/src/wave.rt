//! The file of frames that are in memory.
//!
//! A call of a law does nothing: the proof uses what it ensures.

ghost use Rattle.std.specs.Prelude.{◌≡◌, ◌≤◌, ◌<◌, ◌+◌, ◌*◌, ◌/◌, ◌%◌, ◌^◌, ◌==◌, ◌⊎◌, [], length, OnOk, OnErr, IfOk};
ghost use Rattle.vh_cut.specs.Cut.{pieces_of};
ghost use Rattle.vh_files.specs.Causes.{Rose};
ghost use Rattle.vh_files.specs.Store.{told, Lacks, HasNow, Grows, GrowsInPart, SameElsewhere};
ghost use Rattle.vh_render.specs.Playing.{HasPart};
ghost use Rattle.vh_live_host.specs.Waves.{IsWave, samples_text, piece_text, wave_text};

use std::alloc::{AllocError, Global};
use vh_cut::laws::pieces_lie_end_to_end;
use vh_cut::{Piece, pieces};
use vh_files::{Failed, Files, append_all};
use vh_wav::{frame_bytes, head_bytes};

/// Frames in memory, and as what they are written.
#[derive(Clone, Copy)]
pub(crate) struct Wave<'a> {
    /// 1 or 2.
    pub(crate) channels: u16,
    /// Frames a second, at most 768000.
    pub(crate) rate: u32,
    /// Of each sample in the file, 16 or 24.
    pub(crate) bits: u16,
    /// How many there are, at most 2^24.
    pub(crate) frames: u32,
    /// The samples, frame by frame.
    pub(crate) samples: &'a [i32],
    /// The sizes of pieces in frames, which take turns: the frames of each piece are appended together.
    pub(crate) sizes: &'a [u32],
}

/// Room for the bytes of the longest piece that there may be.
pub(crate) fn piece_room(alloc: Global, channels: u16) -> Result<Vec<u8>, AllocError>
    requires { (channels ≡ 1) ⊎ (channels ≡ 2) }
    ensures { IfOk result (λ room. length room.items ≡ 24576 * channels) }
{
    Ok(vec![in alloc; 0u8; 3 * 8192 * usize::from(channels)]?)
}

impl Wave<'_> {
    /// Whether the bytes of the frames are odd in number.
    fn is_odd(&self) -> bool
        requires { IsWave self.now }
        ensures { result ≡ ((self.now.frames * (self.now.channels * (self.now.bits / 8))) % 2 == 1) }
    {
        let align = self.channels * (self.bits / 8);
        self.frames * u32::from(align) % 2 == 1
    }

    /// Appends the frames of a piece.
    fn write_piece<F: Files>(
        &self,
        piece: Piece,
        files: &mut F,
        name: &str,
        room: &mut [u8],
    ) -> Result<(), Failed>
        requires wave { IsWave self.now }
        requires room { 24576 * self.now.channels ≤ length room.old }
        requires there { ¬ Lacks (F.complete files.old) (F.held files.old) name.now }
        requires within { piece.start + piece.length ≤ self.now.frames }
        requires few { piece.length ≤ 8192 }
        ensures grows { OnOk result (Grows (F.complete files.old) (told (F.held files.old) name.now) (told (F.held files.new) name.now) (piece_text self.now piece)) }
        ensures part { OnErr result (GrowsInPart (F.complete files.old) (told (F.held files.old) name.now) (told (F.held files.new) name.now) (piece_text self.now piece)) }
        ensures rose { OnErr result (Rose (F.write_faults files.old) (F.write_faults files.new)) }
        ensures there { OnOk result (¬ Lacks (F.complete files.new) (F.held files.new) name.now) }
        ensures room { length room.new ≡ length room.old }
        ensures others { SameElsewhere name.now (F.held files.old) (F.held files.new) }
        ensures later { F.write_faults files.old ≤ F.write_faults files.new }
        ensures complete { F.complete files.new ≡ F.complete files.old }
        ensures reads { F.read_faults files.new ≡ F.read_faults files.old }
    {
        let channels = usize::from(self.channels);
        let from = channels * piece.start as usize;
        let samples = &self.samples[from..from + channels * piece.length as usize];
        let used = frame_bytes(self.bits, samples, 1, room);
        append_all(files, name, &room[..used])
    }

    /// Appends the frames of all pieces, and answers the number of pieces.
    fn write_pieces<F: Files>(
        &self,
        files: &mut F,
        name: &str,
        room: &mut [u8],
    ) -> Result<u32, Failed>
        requires wave { IsWave self.now }
        requires room { 24576 * self.now.channels ≤ length room.old }
        requires there { ¬ Lacks (F.complete files.old) (F.held files.old) name.now }
        ensures pieces { IfOk result (λ count. count ≡ length (pieces_of self.now.frames self.now.sizes.now [])) }
        ensures grows { OnOk result (Grows (F.complete files.old) (told (F.held files.old) name.now) (told (F.held files.new) name.now) (samples_text self.now.bits self.now.samples.now)) }
        ensures part { OnErr result (GrowsInPart (F.complete files.old) (told (F.held files.old) name.now) (told (F.held files.new) name.now) (samples_text self.now.bits self.now.samples.now)) }
        ensures rose { OnErr result (Rose (F.write_faults files.old) (F.write_faults files.new)) }
        ensures there { OnOk result (¬ Lacks (F.complete files.new) (F.held files.new) name.now) }
        ensures others { SameElsewhere name.now (F.held files.old) (F.held files.new) }
        ensures later { F.write_faults files.old ≤ F.write_faults files.new }
        ensures complete { F.complete files.new ≡ F.complete files.old }
        ensures reads { F.read_faults files.new ≡ F.read_faults files.old }
    {
        pieces_lie_end_to_end();
        let mut count = 0;
        for piece in pieces(self.frames, self.sizes, &[]) {
            match self.write_piece(piece, files, name, room) {
                Ok(()) => count += 1,
                Err(failed) => return Err(failed),
            }
        }
        Ok(count)
    }

    /// Creates the WAV file, and appends its head, the frames of each piece and the byte that makes them even. The answer
    /// is the number of pieces.
    ///
    /// It fails where a call of the store does. Then no file was created, or the file has a front part of its bytes.
    pub(crate) fn write<F: Files>(
        &self,
        files: &mut F,
        name: &str,
        room: &mut [u8],
    ) -> Result<u32, Failed>
        requires wave { IsWave self.now }
        requires room { 24576 * self.now.channels ≤ length room.old }
        ensures pieces { IfOk result (λ count. count ≡ length (pieces_of self.now.frames self.now.sizes.now [])) }
        ensures whole { OnOk result (HasNow (F.complete files.old) (told (F.held files.new) name.now) (wave_text self.now)) }
        ensures part { OnErr result ((F.held files.new ≡ F.held files.old) ⊎ HasPart (F.complete files.old) (told (F.held files.new) name.now) (wave_text self.now)) }
        ensures rose { OnErr result (Rose (F.write_faults files.old) (F.write_faults files.new)) }
        ensures others { SameElsewhere name.now (F.held files.old) (F.held files.new) }
        ensures later { F.write_faults files.old ≤ F.write_faults files.new }
        ensures complete { F.complete files.new ≡ F.complete files.old }
        ensures reads { F.read_faults files.new ≡ F.read_faults files.old }
    {
        let head = head_bytes(self.channels, self.rate, self.bits, self.frames);
        files.create(name)?;
        append_all(files, name, &head)?;
        let count = self.write_pieces(files, name, room)?;
        if self.is_odd() {
            append_all(files, name, &[0])?;
        }
        Ok(count)
    }
}
