//! A rendering, with its end.

ghost use Rattle.std.specs.Prelude.{◌≡◌, ◌≢◌, ◌≤◌, ◌+◌, ℕ, List, [], length, map, true, OnOk, OnErr, IfOk, ◌⊎◌};
ghost use Rattle.vh_files.specs.Causes.{Rose};
ghost use Rattle.vh_files.specs.Store.{told, HasNow, SameElsewhere};
ghost use Rattle.vh_num.specs.Frames.{Frame};
ghost use Rattle.vh_plugin.specs.Counts.{raised_by};
ghost use Rattle.vh_meaning.specs.Rendering.{last_values, answers};
ghost use Rattle.vh_engine.specs.Kept.{scene_in, IsSameEngine};
ghost use Rattle.vh_render.specs.Playing.{IsPlayable, IsPlaying, StandsWithin, IsStopped, HasPart, piece_count, file_text};

use crate::room::Room;
use crate::score::Score;
use crate::write::{Progress, write_file};
use vh_engine::Engine;
use vh_files::{Failed, Files};
use vh_plugin::Processor;

/// Renders an engine's session from its first sample to its end, and answers the number of pieces. The WAV file is
/// created, its head, the frames of each piece and the pad are appended, and the entries at the length end the
/// rendering. Each processor is called once for each piece and once at the end. Nothing here takes memory.
///
/// It fails where a call of the store does. Then no file was created, or the file has a front part of its bytes, and
/// the engine wasn't ended.
pub fn render<F: Files, P: Processor + Drop>(
    engine: &mut Engine<P>,
    score: &Score<'_>,
    files: &mut F,
    name: &str,
    room: &mut Room,
) -> Result<u32, Failed>
    requires playable { IsPlayable P.class_of engine.old score.now room.old }
    ensures pieces { IfOk result (λ pieces. pieces ≡ piece_count score.now) }
    ensures file { (input : List Frame) → IsPlaying P.class_of engine.old score.now.sound.now input []
        → OnOk result (HasNow (F.complete files.old) (told (F.held files.new) name.now) (file_text (scene_in P.class_of engine.old) input score.now)) }
    ensures part { (input : List Frame) → IsPlaying P.class_of engine.old score.now.sound.now input []
        → OnErr result ((F.held files.new ≡ F.held files.old) ⊎ HasPart (F.complete files.old) (told (F.held files.new) name.now) (file_text (scene_in P.class_of engine.old) input score.now)) }
    ensures values { (input : List Frame) → IsPlaying P.class_of engine.old score.now.sound.now input []
        → OnOk result (engine.new.values ≡ last_values (scene_in P.class_of engine.old) input score.now.entries.now) }
    ensures answers { (input : List Frame) → IsPlaying P.class_of engine.old score.now.sound.now input []
        → OnOk result (engine.new.answers ≡ answers (scene_in P.class_of engine.old) input score.now.entries.now) }
    ensures calls { OnOk result (engine.new.calls ≡ map (raised_by (piece_count score.now + 1)) engine.old.calls) }
    ensures left { (input : List Frame) → IsPlaying P.class_of engine.old score.now.sound.now input []
        → OnErr result (StandsWithin P.class_of engine.new input score.now.entries.now) }
    ensures stopped { OnErr result (IsStopped engine.old engine.new (piece_count score.now)) }
    ensures same { IsSameEngine engine.old engine.new }
    ensures rose { OnErr result (Rose (F.write_faults files.old) (F.write_faults files.new)) }
    ensures others { SameElsewhere name.now (F.held files.old) (F.held files.new) }
    ensures later { F.write_faults files.old ≤ F.write_faults files.new }
    ensures complete { F.complete files.new ≡ F.complete files.old }
    ensures reads { F.read_faults files.new ≡ F.read_faults files.old }
{
    let Progress { taken, pieces } = write_file(engine, score, files, name, room)?;
    engine.flush(&score.entries[taken..]);
    Ok(pieces)
}
