//! `render` and `replay`.

ghost use Rattle.std.specs.Prelude.{◌≡◌, ◌≤◌, ◌<◌, ◌+◌, ◌*◌, ◌-◌, ◌^◌, ◌⊎◌, ℕ, List, [], Option, length, map, replicate, sum, sum_by, All, IfOk, false};
ghost use Rattle.vh_component.specs.declared.setup.Phase.TheVariants.{Processing as AtProcessing};
ghost use Rattle.vh_cut.specs.Cut.{IsPattern};
ghost use Rattle.vh_files.specs.Store.{SameElsewhere};
ghost use Rattle.vh_journal_text.specs.Items.{items_of};
ghost use Rattle.vh_journal_text.specs.Keeps.{AreEntries, AreThere};
ghost use Rattle.vh_num.specs.Frames.{Frame};
ghost use Rattle.vh_params.specs.Nodes.{nodes_of};
ghost use Rattle.vh_plugin.specs.Counts.{raised_by};
ghost use Rattle.vh_preset.specs.Contents.{Contents};
ghost use Rattle.vh_session.specs.Names.{content_of};
ghost use Rattle.vh_meaning.specs.Scene.{node_count};
ghost use Rattle.vh_engine.specs.Kept.{scene_in, Stands, IsSameEngine};
ghost use Rattle.vh_instance.specs.Band.{IsBand, IsHeld, of_processors, of_openers};
ghost use Rattle.vh_render.specs.Playing.{HasRoom, IsPlayable};
ghost use Rattle.vh_answers.specs.Outside.{store, outside, KeepsCounts};
ghost use Rattle.vh_answers.specs.Steps.{EndsUnsaid};
ghost use Rattle.vh_answers.specs.Told.{written_in};
ghost use Rattle.vh_host.specs.Words.{Render as Asked};
ghost use Rattle.vh_host.specs.Known.{Known, plan_of, AreEnded};
ghost use Rattle.vh_host.specs.Input.{Heard, IsHeard};
ghost use Rattle.vh_host.specs.Material.{IsGathered};
ghost use Rattle.vh_host.specs.Scores.{IsScore};
ghost use Rattle.vh_host.specs.Commands.{render_steps, begun_steps, played_steps, pattern_of};
ghost use Rattle.vh_host.specs.Named.{render_of, status_of, IsSize};

use crate::blocks::Blocks;
use crate::material::{Material, read_material};
use crate::opening::{Opening, open_session};
use crate::words::Render;
use std::alloc::{AllocError, Global};
use vh_answers::{Line, Place, Report, Status};
use vh_counted::Opened;
use vh_engine::{Engine, Parts};
use vh_files::{Files, Say};
use vh_instance::laws::raised_by_sum;
use vh_instance::{Band, tear_down};
use vh_plugin::{Controller, PluginSet, Processor};
use vh_render::{Room, Score};
use vh_session::Session;

/// How each node's controller shows its values.
pub fn modes<C: Controller + Drop>(
    alloc: Global,
    edits: &[Opened<C>],
) -> Result<Vec<u32>, AllocError>
    ensures { IfOk result (λ modes. modes.items ≡ of_openers C.mode edits.now) }
{
    let mut modes = Vec::new(alloc);
    for opened in edits {
        modes.push(opened.value().mode())?;
    }
    Ok(modes)
}

/// What a rendering takes beside its engine, before anything is written: room for a piece and for a line of the report,
/// and how each node's controller shows its values.
#[derive(Drop)]
struct Supplies {
    room: Room,
    line: Line,
    modes: Vec<u32>,
}

impl Supplies {
    fn new<C: Controller + Drop>(
        alloc: Global,
        channels: u16,
        max: usize,
        edits: &[Opened<C>],
    ) -> Result<Supplies, AllocError>
        requires channels { (channels ≡ 1) ⊎ (channels ≡ 2) }
        requires most { max ≤ 8192 }
        ensures room { IfOk result (λ supplies. HasRoom channels max supplies.room) }
        ensures modes { IfOk result (λ supplies. supplies.modes.items ≡ of_openers C.mode edits.now) }
    {
        Ok(Supplies {
            room: Room::new(alloc, channels, max)?,
            line: Line::new(alloc)?,
            modes: modes(alloc, edits)?,
        })
    }
}

/// Renders what an engine has into a file, and says the report. Nothing here takes memory.
fn play<F: Files, Y: Say, P: Processor + Drop>(
    engine: &mut Engine<P>,
    score: &Score<'_>,
    output: &str,
    supplies: &mut Supplies,
    files: &mut F,
    say: &mut Y,
) -> Result<(), Status>
    requires playable { IsPlayable P.class_of engine.old score.now supplies.old.room }
    requires stands { (input : List Frame) → Stands P.class_of engine.old input [] }
    requires calls { engine.old.calls ≡ replicate (length engine.old.session.nodes) 0 }
    requires modes { length supplies.old.modes.items ≡ length engine.old.session.nodes }
    requires nodes { node_count (scene_in P.class_of engine.old) ≡ length engine.old.session.nodes }
    requires short { engine.old.session.length < 2 ^ 32 }
    requires scored { (asked : Asked) × (heard : Heard) × IsScore asked engine.old.session heard output.now score.now }
    ensures ends { (asked : Asked) (heard : Heard) → IsScore asked engine.old.session heard output.now score.now
        → EndsUnsaid (λ calls. sum engine.new.calls ≡ calls) (outside F.Files Y.Say files.old files.new say.old say.new) (played_steps (scene_in P.class_of engine.old) supplies.old.modes.items asked engine.old.session heard score.now.entries.now) (status_of result) }
    ensures same { IsSameEngine engine.old engine.new }
    ensures others { SameElsewhere output.now (F.held files.old) (F.held files.new) }
    ensures counts { KeepsCounts (outside F.Files Y.Say files.old files.new say.old say.new) }
{
    let Ok(pieces) = vh_render::render(engine, score, files, output, &mut supplies.room) else {
        return Err(Status::WriteFault(Place::Output));
    };
    let report = Report {
        pieces,
        values: engine.values(),
        modes: &supplies.modes,
        replies: engine.replies(),
        editors: &[],
    };
    match report.say(engine.session(), &mut supplies.line, say) {
        Ok(()) => Ok(()),
        Err(_) => Err(Status::WriteFault(Place::Report)),
    }
}

/// Renders a session by its instances, which come back with their processors processing.
fn render_band<F: Files, Y: Say, P: Processor + Drop, C: Controller + Drop>(
    alloc: Global,
    render: &Render<'_>,
    blocks: &Blocks,
    session: Session,
    band: Band<P, C>,
    files: &mut F,
    say: &mut Y,
) -> (Band<P, C>, Result<(), Status>)
    requires band { (known : Known) × (presets : List (Option Contents)) × (known.class_of ≡ P.class_of) × IsBand
        (record { code = P.code; values = P.values; state = P.state; calls = P.calls; phase = P.phase; setup = P.last_setup })
        (record { code = C.code; values = C.values; mode = C.mode })
        (plan_of known (content_of session) presets blocks.now.longest) band }
    requires pattern { IsPattern blocks.now.sizes.items }
    requires sizes { blocks.now.sizes.items ≡ pattern_of render.now.block (content_of session) }
    ensures held { IsHeld result.0 }
    ensures processing { All (λ phase. phase ≡ AtProcessing) (of_processors P.phase result.0.processors.items) }
    ensures components { length result.0.components.items ≡ length (nodes_of session.nodes) }
    ensures controllers { length result.0.controllers.items ≡ length (nodes_of session.nodes) }
    ensures ends { (known : Known) (presets : List (Option Contents)) → known.class_of ≡ P.class_of → IsBand
        (record { code = P.code; values = P.values; state = P.state; calls = P.calls; phase = P.phase; setup = P.last_setup })
        (record { code = C.code; values = C.values; mode = C.mode })
        (plan_of known (content_of session) presets blocks.now.longest) band
        → EndsUnsaid (λ calls. sum (of_processors P.calls result.0.processors.items) ≡ calls) (outside F.Files Y.Say files.old files.new say.old say.new)
        (begun_steps known (render_of render.now) (content_of session) presets) (status_of result.1) }
    ensures others { SameElsewhere render.now.output.now (F.held files.old) (F.held files.new) }
    ensures counts { KeepsCounts (outside F.Files Y.Say files.old files.new say.old say.new) }
{
    let max = blocks.longest as usize;
    let Ok(mut supplies) = Supplies::new(alloc, session.channels, max, &band.edits) else {
        return (band, Err(Status::Memory));
    };
    let material = match read_material(alloc, files, render, &session) {
        Ok(material) => material,
        Err(status) => return (band, Err(status)),
    };
    let score = material.score(blocks, &session);
    let Band {
        components,
        controllers,
        processors,
        edits,
        holders,
        first,
    } = band;
    let parts = Parts {
        session,
        processors,
        first,
    };
    let (parts, result) = match Engine::new(alloc, parts, max, material.stops.len()) {
        Ok(mut engine) => {
            let result = play(
                &mut engine,
                &score,
                render.output,
                &mut supplies,
                files,
                say,
            );
            (engine.finish(), result)
        }
        Err(parts) => (parts, Err(Status::Memory)),
    };
    let Parts {
        session: _,
        processors,
        first,
    } = parts;
    let band = Band {
        components,
        controllers,
        processors,
        edits,
        holders,
        first,
    };
    (band, result)
}

/// Renders a session over its input, under the entries of a journal where there is one, and says the report. All
/// instances are made and ended.
///
/// A call of `raised_by_sum` does nothing: the proof uses what it ensures.
pub(crate) fn render<F: Files, Y: Say, S: PluginSet>(
    alloc: Global,
    render: &Render<'_>,
    files: &mut F,
    say: &mut Y,
    set: &mut S,
) -> Result<(), Status>
    requires size { IsSize render.now.block }
    requires work { S.work set.old ≤ 2 ^ 64 - 1 }
    ensures ends { EndsUnsaid (λ calls. S.work set.new ≡ raised_by calls (S.work set.old)) (outside F.Files Y.Say files.old files.new say.old say.new)
        (render_steps (record { infos = S.infos set.old; code = S.code set.old; class_of = S.P.Processor.class_of }) (render_of render.now)) (status_of result) }
    ensures others { SameElsewhere render.now.output.now (F.held files.old) (F.held files.new) }
    ensures counts { KeepsCounts (outside F.Files Y.Say files.old files.new say.old say.new) }
    ensures objects { AreEnded (S.made set.old) (S.ended set.old) (S.made set.new) (S.ended set.new) }
    ensures infos { S.infos set.new ≡ S.infos set.old }
    ensures codes { (class : ℕ) → S.code set.new class ≡ S.code set.old class }
{
    let Opening {
        session,
        blocks,
        band,
    } = match open_session(alloc, files, set, render.session, render.block) {
        Ok(opening) => opening,
        Err(status) => return Err(status),
    };
    let (band, result) = render_band(alloc, render, &blocks, session, band, files, say);
    raised_by_sum();
    tear_down(set, band);
    result
}
