//! `live`.

ghost use Rattle.std.specs.Prelude.{◌≡◌, ◌≤◌, ◌<◌, ◌*◌, ◌^◌, ◌-◌, ℕ, List, [], ◌∷◌, Option, length, sum, All};
ghost use Rattle.vh_component.specs.declared.setup.Phase.TheVariants.{Processing as AtProcessing};
ghost use Rattle.vh_cut.specs.Cut.{IsPattern};
ghost use Rattle.vh_params.specs.Nodes.{nodes_of};
ghost use Rattle.vh_plugin.specs.Counts.{raised_by};
ghost use Rattle.vh_preset.specs.Contents.{Contents};
ghost use Rattle.vh_session.specs.Content.{Content};
ghost use Rattle.vh_session.specs.Names.{content_of};
ghost use Rattle.vh_instance.specs.Band.{IsBand, IsHeld, of_processors};
ghost use Rattle.vh_answers.specs.Outside.{outside, ChangesOnly, KeepsCounts};
ghost use Rattle.vh_answers.specs.Steps.{EndsUnsaid};
ghost use Rattle.vh_live.specs.Bands.{IsMadeFor, HaveParams};
ghost use Rattle.vh_host.specs.Known.{Known, plan_of, scene_under, modes_under, AreEnded};
ghost use Rattle.vh_host.specs.Input.{Heard};
ghost use Rattle.vh_host.specs.Commands.{pattern_of};
ghost use Rattle.vh_host.specs.Named.{status_of, IsSize};
ghost use Rattle.vh_live_host.specs.Played.{in_blocks};
ghost use Rattle.vh_live_host.specs.Commands.{heard_steps, begun_steps, live_steps};
ghost use Rattle.vh_live_host.specs.Named.{live_of};
ghost use Rattle.vh_live_host.specs.Results.{AreFirst};

use crate::done::{Done, finish};
use crate::frames::list_frames;
use crate::sized::sized;
use crate::words::Live;
use std::alloc::Global;
use std::sync::Wait;
use std::thread::Threads;
use vh_answers::Status;
use vh_files::{Files, Gate, Say};
use vh_host::{Blocks, Input, Opening, open_session, read_input};
use vh_instance::laws::raised_by_sum;
use vh_instance::{Band, tear_down};
use vh_live::{Outcome, Played, play};
use vh_plugin::{Controller, PluginSet, Processor};
use vh_session::Session;
use vh_wav::ListFrames;

/// Plays a session by its instances in these blocks, over frames at such a rate, and writes and says what it came to. The
/// instances come back with their processors processing.
fn play_frames<
    R: Threads + Wait + Sync,
    F: Files,
    Y: Say,
    P: Processor + Drop,
    C: Controller + Drop + Send + Sync,
    G: Gate + Sync,
>(
    rt: &R,
    alloc: Global,
    live: &Live<'_>,
    session: Session,
    band: Band<P, C>,
    gate: &G,
    frames: ListFrames,
    rate: u32,
    files: &mut F,
    say: &mut Y,
) -> (Band<P, C>, Result<(), Status>)
    requires band { IsMadeFor
        (record { code = P.code; values = P.values; state = P.state; calls = P.calls; phase = P.phase; setup = P.last_setup })
        (record { code = C.code; values = C.values; mode = C.mode })
        P.class_of C.class_of (content_of session) band }
    requires channels { frames.channels ≡ session.channels }
    requires room { frames.room ≡ session.length }
    requires none { frames.added ≡ [] }
    requires rate { rate ≤ 768000 }
    ensures held { IsHeld result.0 }
    ensures processing { All (λ phase. phase ≡ AtProcessing) (of_processors P.phase result.0.processors.items) }
    ensures components { length result.0.components.items ≡ length (nodes_of session.nodes) }
    ensures controllers { length result.0.controllers.items ≡ length (nodes_of session.nodes) }
    ensures ends { (known : Known) (presets : List (Option Contents)) (max : ℕ) (content : Content) (heard : Heard) → known.class_of ≡ P.class_of → IsBand
        (record { code = P.code; values = P.values; state = P.state; calls = P.calls; phase = P.phase; setup = P.last_setup })
        (record { code = C.code; values = C.values; mode = C.mode })
        (plan_of known (content_of session) presets max) band
        → content_of session ≡ in_blocks live.now.block content → AreFirst session.channels session.length frames.left heard.frames → heard.rate ≡ rate
        → EndsUnsaid (λ calls. sum (of_processors P.calls result.0.processors.items) ≡ calls) (outside F.Files Y.Say files.old files.new say.old say.new)
        (heard_steps (scene_under known content presets) (modes_under known content presets) (live_of live.now) content heard) (status_of result.1) }
    ensures others { ChangesOnly (live.now.output.now ∷ live.now.journal.now ∷ []) (F.held files.old) (F.held files.new) }
    ensures counts { KeepsCounts (outside F.Files Y.Say files.old files.new say.old say.new) }
{
    let mut frames = frames;
    let Played {
        outcome,
        session,
        band,
        journal,
        refused,
        replies,
    } = play(rt, alloc, session, band, gate, &mut frames);
    match outcome {
        Outcome::Done => {
            let done = Done {
                session: &session,
                edits: &band.edits,
                entries: &journal,
                refused: &refused,
                replies: &replies,
                frames: &frames,
                rate,
            };
            let result = finish(alloc, live, &done, files, say);
            (band, result)
        }
        Outcome::Memory => (band, Err(Status::Memory)),
        // No call on frames in memory fails.
        Outcome::ReadFailed | Outcome::WriteFailed => unreachable!(),
    }
}

/// Plays a session by its instances, over its input, which is read before.
fn live_band<
    R: Threads + Wait + Sync,
    F: Files,
    Y: Say,
    P: Processor + Drop,
    C: Controller + Drop + Send + Sync,
    G: Gate + Sync,
>(
    rt: &R,
    alloc: Global,
    live: &Live<'_>,
    opening: Opening<P, C>,
    files: &mut F,
    say: &mut Y,
    gate: &G,
) -> (Band<P, C>, Result<(), Status>)
    requires band { (known : Known) × (presets : List (Option Contents)) × (known.class_of ≡ P.class_of) × IsBand
        (record { code = P.code; values = P.values; state = P.state; calls = P.calls; phase = P.phase; setup = P.last_setup })
        (record { code = C.code; values = C.values; mode = C.mode })
        (plan_of known (content_of opening.session) presets opening.blocks.longest) opening.band
        × HaveParams C.class_of (plan_of known (content_of opening.session) presets opening.blocks.longest) }
    requires pattern { IsPattern opening.blocks.sizes.items }
    requires sizes { opening.blocks.sizes.items ≡ pattern_of live.now.block (content_of opening.session) }
    ensures held { IsHeld result.0 }
    ensures processing { All (λ phase. phase ≡ AtProcessing) (of_processors P.phase result.0.processors.items) }
    ensures components { length result.0.components.items ≡ length (nodes_of opening.session.nodes) }
    ensures controllers { length result.0.controllers.items ≡ length (nodes_of opening.session.nodes) }
    ensures ends { (known : Known) (presets : List (Option Contents)) → known.class_of ≡ P.class_of → IsBand
        (record { code = P.code; values = P.values; state = P.state; calls = P.calls; phase = P.phase; setup = P.last_setup })
        (record { code = C.code; values = C.values; mode = C.mode })
        (plan_of known (content_of opening.session) presets opening.blocks.longest) opening.band
        → EndsUnsaid (λ calls. sum (of_processors P.calls result.0.processors.items) ≡ calls) (outside F.Files Y.Say files.old files.new say.old say.new)
        (begun_steps known (live_of live.now) (content_of opening.session) presets) (status_of result.1) }
    ensures others { ChangesOnly (live.now.output.now ∷ live.now.journal.now ∷ []) (F.held files.old) (F.held files.new) }
    ensures counts { KeepsCounts (outside F.Files Y.Say files.old files.new say.old say.new) }
{
    let Opening {
        session,
        blocks,
        band,
    } = opening;
    let Input { rate, sound } = match read_input(
        alloc,
        files,
        live.input,
        session.channels,
        session.length,
    ) {
        Ok(input) => input,
        Err(status) => return (band, Err(status)),
    };
    let Ok(frames) = list_frames(alloc, sound) else {
        return (band, Err(Status::Memory));
    };
    let Blocks { sizes, .. } = blocks;
    let session = sized(session, sizes);
    play_frames(
        rt, alloc, live, session, band, gate, frames, rate, files, say,
    )
}

/// Renders a session over its input while its editors work, and writes the samples and what the editors did. All instances
/// are made and ended.
///
/// A call of `raised_by_sum` does nothing: the proof uses what it ensures.
pub(crate) fn live<R: Threads + Wait + Sync, F: Files, Y: Say, S: PluginSet, G: Gate + Sync>(
    rt: &R,
    alloc: Global,
    live: &Live<'_>,
    files: &mut F,
    say: &mut Y,
    set: &mut S,
    gate: &G,
) -> Result<(), Status>
    requires size { IsSize live.now.block }
    requires work { S.work set.old ≤ 2 ^ 64 - 1 }
    ensures ends { EndsUnsaid (λ calls. S.work set.new ≡ raised_by calls (S.work set.old)) (outside F.Files Y.Say files.old files.new say.old say.new)
        (live_steps (record { infos = S.infos set.old; code = S.code set.old; class_of = S.P.Processor.class_of }) (live_of live.now)) (status_of result) }
    ensures others { ChangesOnly (live.now.output.now ∷ live.now.journal.now ∷ []) (F.held files.old) (F.held files.new) }
    ensures counts { KeepsCounts (outside F.Files Y.Say files.old files.new say.old say.new) }
    ensures objects { AreEnded (S.made set.old) (S.ended set.old) (S.made set.new) (S.ended set.new) }
    ensures infos { S.infos set.new ≡ S.infos set.old }
    ensures codes { (class : ℕ) → S.code set.new class ≡ S.code set.old class }
{
    let opening = match open_session(alloc, files, set, live.session, live.block) {
        Ok(opening) => opening,
        Err(status) => return Err(status),
    };
    let (band, result) = live_band(rt, alloc, live, opening, files, say, gate);
    raised_by_sum();
    tear_down(set, band);
    result
}
