//! A rendering that is summed.

ghost use Rattle.std.specs.Prelude.{◌≡◌, ◌≤◌, ◌<◌, ◌+◌, ◌*◌, ◌^◌, List, [], length, map, take, sum_by};
ghost use Rattle.std.specs.List.{range_with_len};
ghost use Rattle.vh_num.specs.Frames.{Frame};
ghost use Rattle.vh_plugin.specs.Counts.{raised, raised_by};
ghost use Rattle.vh_meaning.specs.Rendering.{rendering, out_at, last_values, answers};
ghost use Rattle.vh_engine.specs.Kept.{scene_in, Stands, IsSameEngine};
ghost use Rattle.vh_render.specs.Playing.{IsUnderWay, IsPlaying, IsPieceOf, piece_count, called};
ghost use Rattle.vh_gen.specs.Playing.{IsSummable};
ghost use Rattle.vh_gen.specs.Summary.{level, level_sum};

use vh_cut::laws::pieces_lie_end_to_end;
use vh_cut::{Piece, pieces};
use vh_engine::Engine;
use vh_plugin::Processor;
use vh_render::{Score, play_piece};

/// What a rendering came to.
#[derive(Clone, Copy, Debug, PartialEq, Eq)]
pub struct Sums {
    pub pieces: u32,
    /// Of all output samples, rounded to 16 bits and raised by 32768.
    pub sum: u64,
}

/// A sample, rounded to 16 bits and raised by 32768.
fn level(sample: i32) -> u64
    ensures value { result ≡ level sample }
    ensures within { result < 2 ^ 16 }
{
    (sample.div_euclid(256).clamp(-0x8000, 0x7FFF) + 0x8000) as u64
}

/// The levels of samples, added up.
fn levels(samples: &[i32]) -> u64
    requires { length samples.now ≤ 2 ^ 33 }
    ensures value { result ≡ sum_by level samples.now }
    ensures within { result ≤ 65535 * length samples.now }
{
    let mut sum = 0;
    for &sample in samples {
        sum += level(sample);
    }
    sum
}

/// How far a rendering has come: how many entries it has taken, and what it came to.
#[derive(Clone, Copy)]
struct Progress {
    taken: usize,
    sums: Sums,
}

/// Plays a piece of two channels, behind so many entries that were taken. Answers how many are taken then, and the sum
/// of the piece's levels.
fn sum_piece<P: Processor + Drop>(
    engine: &mut Engine<P>,
    score: &Score<'_>,
    piece: Piece,
    taken: usize,
    ins: &mut [i32],
    outs: &mut [i32],
) -> (usize, u64)
    requires way { IsUnderWay P.class_of engine.old score.now piece.start taken }
    requires piece { IsPieceOf score.now engine.old.max piece }
    requires stereo { score.now.sound.now.channels ≡ 2 }
    requires ins { 2 * piece.length ≤ length ins.old }
    requires outs { 2 * piece.length ≤ length outs.old }
    ensures way { IsUnderWay P.class_of engine.new score.now (piece.start + piece.length) result.0 }
    ensures stands { (input : List Frame) → IsPlaying P.class_of engine.old score.now.sound.now input (take taken score.now.entries.now)
        → Stands P.class_of engine.new input (take result.0 score.now.entries.now) }
    ensures sum { (input : List Frame) → IsPlaying P.class_of engine.old score.now.sound.now input (take taken score.now.entries.now)
        → result.1 ≡ level_sum (map (out_at (scene_in P.class_of engine.old) input score.now.entries.now) (range_with_len piece.start piece.length)) }
    ensures most { result.1 ≤ 65535 * (2 * piece.length) }
    ensures calls { engine.new.calls ≡ map raised engine.old.calls }
    ensures same { IsSameEngine engine.old engine.new }
{
    let size = 2 * piece.length as usize;
    let next = play_piece(engine, score, piece, taken, ins, outs);
    let sum = levels(&outs[..size]);
    (next, sum)
}

/// Plays all pieces, and adds up their levels.
fn sum_pieces<P: Processor + Drop>(
    engine: &mut Engine<P>,
    score: &Score<'_>,
    ins: &mut [i32],
    outs: &mut [i32],
) -> Progress
    requires summable { IsSummable P.class_of engine.old score.now }
    requires ins { 2 * engine.old.max ≤ length ins.old }
    requires outs { 2 * engine.old.max ≤ length outs.old }
    ensures way { IsUnderWay P.class_of engine.new score.now score.now.length result.taken }
    ensures pieces { result.sums.pieces ≡ piece_count score.now }
    ensures stands { (input : List Frame) → IsPlaying P.class_of engine.old score.now.sound.now input []
        → Stands P.class_of engine.new input (take result.taken score.now.entries.now) }
    ensures sum { (input : List Frame) → IsPlaying P.class_of engine.old score.now.sound.now input []
        → result.sums.sum ≡ level_sum (rendering (scene_in P.class_of engine.old) input score.now.entries.now) }
    ensures calls { engine.new.calls ≡ map (called (piece_count score.now)) engine.old.calls }
    ensures same { IsSameEngine engine.old engine.new }
{
    pieces_lie_end_to_end();
    let mut progress = Progress {
        taken: 0,
        sums: Sums { pieces: 0, sum: 0 },
    };
    for piece in pieces(score.length, score.pattern, score.stops) {
        let (taken, sum) = sum_piece(engine, score, piece, progress.taken, ins, outs);
        progress = Progress {
            taken,
            sums: Sums {
                pieces: progress.sums.pieces + 1,
                sum: progress.sums.sum + sum,
            },
        };
    }
    progress
}

/// Renders an engine's session of two channels from its first sample to its end, and adds up its output piece by piece.
/// `ins` and `outs` have room for the samples of a piece. Nothing here takes memory.
pub fn render_sums<P: Processor + Drop>(
    engine: &mut Engine<P>,
    score: &Score<'_>,
    ins: &mut [i32],
    outs: &mut [i32],
) -> Sums
    requires summable { IsSummable P.class_of engine.old score.now }
    requires ins { 2 * engine.old.max ≤ length ins.old }
    requires outs { 2 * engine.old.max ≤ length outs.old }
    ensures pieces { result.pieces ≡ piece_count score.now }
    ensures sum { (input : List Frame) → IsPlaying P.class_of engine.old score.now.sound.now input []
        → result.sum ≡ level_sum (rendering (scene_in P.class_of engine.old) input score.now.entries.now) }
    ensures values { (input : List Frame) → IsPlaying P.class_of engine.old score.now.sound.now input []
        → engine.new.values ≡ last_values (scene_in P.class_of engine.old) input score.now.entries.now }
    ensures answers { (input : List Frame) → IsPlaying P.class_of engine.old score.now.sound.now input []
        → engine.new.answers ≡ answers (scene_in P.class_of engine.old) input score.now.entries.now }
    ensures calls { engine.new.calls ≡ map (raised_by (piece_count score.now + 1)) engine.old.calls }
    ensures same { IsSameEngine engine.old engine.new }
{
    let progress = sum_pieces(engine, score, ins, outs);
    engine.flush(&score.entries[progress.taken..]);
    progress.sums
}
