//! The file of a rendering.
//!
//! The calls of laws do nothing: the proofs use what they ensure.

ghost use Rattle.std.specs.Prelude.{◌≡◌, ◌≢◌, ◌≤◌, ◌<◌, ◌+◌, ◌*◌, ◌/◌, ◌%◌, ◌^◌, ◌==◌, ℕ, List, [], length, map, take, slice_index_or, true, false, OnOk, OnErr, IfOk, ◌⊎◌};
ghost use Rattle.std.specs.List.{range_with_len};
ghost use Rattle.vh_files.specs.Causes.{Rose};
ghost use Rattle.vh_files.specs.Store.{told, Lacks, HasNow, Grows, GrowsInPart, SameElsewhere};
ghost use Rattle.vh_num.specs.Frames.{Frame, frames_of};
ghost use Rattle.vh_plugin.specs.Counts.{raised};
ghost use Rattle.vh_wav.specs.Text.{frames_text};
ghost use Rattle.vh_journal.specs.declared.entry.Entry.{Entry as Stored};
ghost use Rattle.vh_meaning.specs.Rendering.{rendering, out_at};
ghost use Rattle.vh_engine.specs.Kept.{scene_in, Stands, IsSameEngine};
ghost use Rattle.vh_render.specs.Playing.{HasRoom, IsPlayable, IsUnderWay, IsPlaying, IsPieceOf, IsUpTo, StandsWithin, IsStopped, HasPart, piece_count, file_text, called};

use crate::room::Room;
use crate::score::Score;
use vh_cut::laws::pieces_lie_end_to_end;
use vh_cut::{Piece, pieces};
use vh_engine::Engine;
use vh_files::{Failed, Files, append_all};
use vh_journal::Entry;
use vh_num::laws::frames_are_in_place;
use vh_plugin::Processor;
use vh_wav::{frame_bytes, head_bytes};

/// How far a rendering has come: how many entries it has taken, and how many pieces were played.
#[derive(Clone, Copy)]
pub(crate) struct Progress {
    pub(crate) taken: usize,
    pub(crate) pieces: u32,
}

/// The place of the first entry from this sample on.
fn place_of(entries: &[Entry], from: usize, sample: u32) -> usize
    requires rising { (i j : ℕ) (d : Stored) → i < j → j < length entries.now → (slice_index_or entries.now i d).sample ≤ (slice_index_or entries.now j d).sample }
    requires before { (i : ℕ) (d : Stored) → i < from → (slice_index_or entries.now i d).sample < sample }
    requires within { from ≤ length entries.now }
    ensures up_to { IsUpTo entries.now result sample }
    ensures later { from ≤ result }
{
    let mut place = from;
    while place < entries.len() && entries[place].sample < sample {
        place += 1;
    }
    place
}

/// Plays a piece into the front of `outs`, behind so many entries that were taken. Answers how many are taken then.
/// `ins` and `outs` have room for the piece's samples.
pub fn play_piece<P: Processor + Drop>(
    engine: &mut Engine<P>,
    score: &Score<'_>,
    piece: Piece,
    taken: usize,
    ins: &mut [i32],
    outs: &mut [i32],
) -> usize
    requires way { IsUnderWay P.class_of engine.old score.now piece.start taken }
    requires piece { IsPieceOf score.now engine.old.max piece }
    requires ins { score.now.sound.now.channels * piece.length ≤ length ins.old }
    requires outs { score.now.sound.now.channels * piece.length ≤ length outs.old }
    ensures way { IsUnderWay P.class_of engine.new score.now (piece.start + piece.length) result }
    ensures stands { (input : List Frame) → IsPlaying P.class_of engine.old score.now.sound.now input (take taken score.now.entries.now)
        → Stands P.class_of engine.new input (take result score.now.entries.now) }
    ensures frames { (input : List Frame) → IsPlaying P.class_of engine.old score.now.sound.now input (take taken score.now.entries.now)
        → frames_of score.now.sound.now.channels (take (score.now.sound.now.channels * piece.length) outs.new) ≡ map (out_at (scene_in P.class_of engine.old) input score.now.entries.now) (range_with_len piece.start piece.length) }
    ensures calls { engine.new.calls ≡ map raised engine.old.calls }
    ensures same { IsSameEngine engine.old engine.new }
{
    frames_are_in_place();
    let n = piece.length as usize;
    let size = usize::from(score.sound.channels) * n;
    let next = place_of(score.entries, taken, piece.start + piece.length);
    let heard = score.sound.piece(piece.start as usize, n, &mut ins[..size]);
    engine.block(n, &score.entries[taken..next], heard, &mut outs[..size]);
    next
}

/// Plays a piece, behind so many entries that were taken, and appends its frames. Answers how many are taken then.
fn write_piece<F: Files, P: Processor + Drop>(
    engine: &mut Engine<P>,
    score: &Score<'_>,
    piece: Piece,
    taken: usize,
    files: &mut F,
    name: &str,
    room: &mut Room,
) -> Result<usize, Failed>
    requires way { IsUnderWay P.class_of engine.old score.now piece.start taken }
    requires piece { IsPieceOf score.now engine.old.max piece }
    requires space { HasRoom engine.old.session.channels engine.old.max room.old }
    requires there { ¬ Lacks (F.complete files.old) (F.held files.old) name.now }
    ensures way { IfOk result (IsUnderWay P.class_of engine.new score.now (piece.start + piece.length)) }
    ensures stands { (input : List Frame) → IsPlaying P.class_of engine.old score.now.sound.now input (take taken score.now.entries.now)
        → IfOk result (λ next. Stands P.class_of engine.new input (take next score.now.entries.now)) }
    ensures left { (input : List Frame) → IsPlaying P.class_of engine.old score.now.sound.now input (take taken score.now.entries.now)
        → OnErr result (StandsWithin P.class_of engine.new input score.now.entries.now) }
    ensures frames { (input : List Frame) → IsPlaying P.class_of engine.old score.now.sound.now input (take taken score.now.entries.now)
        → OnOk result (Grows (F.complete files.old) (told (F.held files.old) name.now) (told (F.held files.new) name.now) (frames_text score.now.bits (map (out_at (scene_in P.class_of engine.old) input score.now.entries.now) (range_with_len piece.start piece.length)))) }
    ensures part { (input : List Frame) → IsPlaying P.class_of engine.old score.now.sound.now input (take taken score.now.entries.now)
        → OnErr result (GrowsInPart (F.complete files.old) (told (F.held files.old) name.now) (told (F.held files.new) name.now) (frames_text score.now.bits (map (out_at (scene_in P.class_of engine.old) input score.now.entries.now) (range_with_len piece.start piece.length)))) }
    ensures calls { engine.new.calls ≡ map raised engine.old.calls }
    ensures same { IsSameEngine engine.old engine.new }
    ensures rose { OnErr result (Rose (F.write_faults files.old) (F.write_faults files.new)) }
    ensures there { OnOk result (¬ Lacks (F.complete files.new) (F.held files.new) name.now) }
    ensures going { engine.new.flushed ≡ false }
    ensures space { HasRoom engine.old.session.channels engine.old.max room.new }
    ensures others { SameElsewhere name.now (F.held files.old) (F.held files.new) }
    ensures later { F.write_faults files.old ≤ F.write_faults files.new }
    ensures complete { F.complete files.new ≡ F.complete files.old }
    ensures reads { F.read_faults files.new ≡ F.read_faults files.old }
{
    let channels = usize::from(score.sound.channels);
    let size = channels * piece.length as usize;
    let next = play_piece(engine, score, piece, taken, &mut room.ins, &mut room.outs);
    let used = frame_bytes(score.bits, &room.outs[..size], channels, &mut room.bytes);
    match append_all(files, name, &room.bytes[..used]) {
        Ok(()) => Ok(next),
        Err(failed) => Err(failed),
    }
}

/// Plays all pieces and appends their frames.
fn write_pieces<F: Files, P: Processor + Drop>(
    engine: &mut Engine<P>,
    score: &Score<'_>,
    files: &mut F,
    name: &str,
    room: &mut Room,
) -> Result<Progress, Failed>
    requires playable { IsPlayable P.class_of engine.old score.now room.old }
    requires there { ¬ Lacks (F.complete files.old) (F.held files.old) name.now }
    ensures way { IfOk result (λ progress. IsUnderWay P.class_of engine.new score.now score.now.length progress.taken) }
    ensures pieces { IfOk result (λ progress. progress.pieces ≡ piece_count score.now) }
    ensures stands { (input : List Frame) → IsPlaying P.class_of engine.old score.now.sound.now input []
        → IfOk result (λ progress. Stands P.class_of engine.new input (take progress.taken score.now.entries.now)) }
    ensures left { (input : List Frame) → IsPlaying P.class_of engine.old score.now.sound.now input []
        → OnErr result (StandsWithin P.class_of engine.new input score.now.entries.now) }
    ensures frames { (input : List Frame) → IsPlaying P.class_of engine.old score.now.sound.now input []
        → OnOk result (Grows (F.complete files.old) (told (F.held files.old) name.now) (told (F.held files.new) name.now) (frames_text score.now.bits (rendering (scene_in P.class_of engine.old) input score.now.entries.now))) }
    ensures part { (input : List Frame) → IsPlaying P.class_of engine.old score.now.sound.now input []
        → OnErr result (GrowsInPart (F.complete files.old) (told (F.held files.old) name.now) (told (F.held files.new) name.now) (frames_text score.now.bits (rendering (scene_in P.class_of engine.old) input score.now.entries.now))) }
    ensures calls { OnOk result (engine.new.calls ≡ map (called (piece_count score.now)) engine.old.calls) }
    ensures stopped { OnErr result (IsStopped engine.old engine.new (piece_count score.now)) }
    ensures same { IsSameEngine engine.old engine.new }
    ensures rose { OnErr result (Rose (F.write_faults files.old) (F.write_faults files.new)) }
    ensures there { OnOk result (¬ Lacks (F.complete files.new) (F.held files.new) name.now) }
    ensures others { SameElsewhere name.now (F.held files.old) (F.held files.new) }
    ensures later { F.write_faults files.old ≤ F.write_faults files.new }
    ensures complete { F.complete files.new ≡ F.complete files.old }
    ensures reads { F.read_faults files.new ≡ F.read_faults files.old }
{
    pieces_lie_end_to_end();
    let mut progress = Progress {
        taken: 0,
        pieces: 0,
    };
    for piece in pieces(score.length, score.pattern, score.stops) {
        match write_piece(engine, score, piece, progress.taken, files, name, room) {
            Ok(taken) => progress = Progress {
                taken,
                pieces: progress.pieces + 1,
            },
            Err(failed) => return Err(failed),
        }
    }
    Ok(progress)
}

/// Creates the file of a rendering, and appends its head, the frames of each piece, and the byte that makes them
/// even.
pub(crate) fn write_file<F: Files, P: Processor + Drop>(
    engine: &mut Engine<P>,
    score: &Score<'_>,
    files: &mut F,
    name: &str,
    room: &mut Room,
) -> Result<Progress, Failed>
    requires playable { IsPlayable P.class_of engine.old score.now room.old }
    ensures way { IfOk result (λ progress. IsUnderWay P.class_of engine.new score.now score.now.length progress.taken) }
    ensures pieces { IfOk result (λ progress. progress.pieces ≡ piece_count score.now) }
    ensures stands { (input : List Frame) → IsPlaying P.class_of engine.old score.now.sound.now input []
        → IfOk result (λ progress. Stands P.class_of engine.new input (take progress.taken score.now.entries.now)) }
    ensures left { (input : List Frame) → IsPlaying P.class_of engine.old score.now.sound.now input []
        → OnErr result (StandsWithin P.class_of engine.new input score.now.entries.now) }
    ensures file { (input : List Frame) → IsPlaying P.class_of engine.old score.now.sound.now input []
        → OnOk result (HasNow (F.complete files.old) (told (F.held files.new) name.now) (file_text (scene_in P.class_of engine.old) input score.now)) }
    ensures part { (input : List Frame) → IsPlaying P.class_of engine.old score.now.sound.now input []
        → OnErr result ((F.held files.new ≡ F.held files.old) ⊎ HasPart (F.complete files.old) (told (F.held files.new) name.now) (file_text (scene_in P.class_of engine.old) input score.now)) }
    ensures calls { OnOk result (engine.new.calls ≡ map (called (piece_count score.now)) engine.old.calls) }
    ensures stopped { OnErr result (IsStopped engine.old engine.new (piece_count score.now)) }
    ensures same { IsSameEngine engine.old engine.new }
    ensures rose { OnErr result (Rose (F.write_faults files.old) (F.write_faults files.new)) }
    ensures others { SameElsewhere name.now (F.held files.old) (F.held files.new) }
    ensures later { F.write_faults files.old ≤ F.write_faults files.new }
    ensures complete { F.complete files.new ≡ F.complete files.old }
    ensures reads { F.read_faults files.new ≡ F.read_faults files.old }
{
    let head = head_bytes(score.sound.channels, score.rate, score.bits, score.length);
    files.create(name)?;
    append_all(files, name, &head)?;
    let progress = write_pieces(engine, score, files, name, room)?;
    if is_odd(score.length, score.sound.channels, score.bits) {
        append_all(files, name, &[0])?;
    }
    Ok(progress)
}

/// Whether the bytes of so many frames are odd in number.
fn is_odd(frames: u32, channels: u16, bits: u16) -> bool
    requires frames { frames ≤ 2 ^ 24 }
    requires channels { (channels ≡ 1) ⊎ (channels ≡ 2) }
    requires bits { (bits ≡ 16) ⊎ (bits ≡ 24) }
    ensures { result ≡ ((frames * (channels * (bits / 8))) % 2 == 1) }
{
    let align = channels * (bits / 8);
    frames * u32::from(align) % 2 == 1
}
