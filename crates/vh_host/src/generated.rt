//! `gen`.

ghost use Rattle.std.specs.Prelude.{◌≡◌, ◌≤◌, ◌*◌, ◌-◌, ◌^◌, ℕ, length, sum, All, IfOk, OnOk};
ghost use Rattle.vh_component.specs.declared.setup.Phase.TheVariants.{Processing as AtProcessing};
ghost use Rattle.vh_cut.specs.Cut.{IsPattern};
ghost use Rattle.vh_params.specs.Nodes.{nodes_of};
ghost use Rattle.vh_plugin.specs.Counts.{raised_by};
ghost use Rattle.vh_session.specs.Names.{content_of};
ghost use Rattle.vh_meaning.specs.Rendering.{stops};
ghost use Rattle.vh_instance.specs.Band.{IsBand, IsHeld, of_processors};
ghost use Rattle.vh_answers.specs.Outside.{Store, voice};
ghost use Rattle.vh_answers.specs.Steps.{EndsUnsaid};
ghost use Rattle.vh_gen.specs.Known.{BeginsBuiltIn};
ghost use Rattle.vh_gen.specs.Generated.{sizes};
ghost use Rattle.vh_gen.specs.Summary.{gen_text};
ghost use Rattle.vh_host.specs.Known.{Known, plan_of, AreEnded};
ghost use Rattle.vh_host.specs.Drawn.{IsDrawn};
ghost use Rattle.vh_host.specs.Generated.{no_presets as none_of, drawn_scene, drawn_calls, gen_steps};
ghost use Rattle.vh_host.specs.Named.{status_of};

use crate::blocks::Blocks;
use crate::journal::stops;
use std::alloc::{AllocError, Global};
use vh_answers::{Place, Status};
use vh_engine::{Engine, Parts};
use vh_files::{Say, say_all};
use vh_gen::laws::sound_is_input;
use vh_gen::{Generated, generate, render_sums, summary};
use vh_instance::laws::{raised_by_sum, without_preset};
use vh_instance::{Band, MakeRefused, make, no_presets, tear_down};
use vh_journal::Entry;
use vh_plugin::{Controller, PluginSet, Processor};
use vh_render::{Score, Sound};
use vh_session::Session;

/// Frames a second of an input that is drawn. No sample depends on it.
const RATE: u32 = 48_000;

/// What a rendering takes beside its engine: room for the samples of a piece of two channels, and the samples at which
/// pieces stop.
#[derive(Drop)]
struct Supplies {
    ins: Vec<i32>,
    outs: Vec<i32>,
    stops: Vec<u32>,
}

impl Supplies {
    fn new(alloc: Global, max: usize, entries: &[Entry]) -> Result<Supplies, AllocError>
        requires { max ≤ 8192 }
        ensures ins { IfOk result (λ supplies. 2 * max ≤ length supplies.ins.items) }
        ensures outs { IfOk result (λ supplies. 2 * max ≤ length supplies.outs.items) }
        ensures stops { IfOk result (λ supplies. supplies.stops.items ≡ stops entries.now) }
    {
        Ok(Supplies {
            ins: vec![in alloc; 0i32; 2 * max]?,
            outs: vec![in alloc; 0i32; 2 * max]?,
            stops: stops(alloc, entries)?,
        })
    }
}

/// The score of a drawn session that is played in these blocks, which end at these stops.
fn score_of<'a>(
    session: &Session,
    sound: &'a Sound,
    entries: &'a [Entry],
    blocks: &'a Blocks,
    stops: &'a [u32],
) -> Score<'a>
    ensures length { result.length ≡ session.now.length }
    ensures sound { result.sound.now ≡ sound.now }
    ensures pattern { result.pattern.now ≡ blocks.now.sizes.items }
    ensures entries { result.entries.now ≡ entries.now }
    ensures stops { result.stops.now ≡ stops.now }
    ensures bits { result.bits ≡ session.now.bits }
    ensures rate { result.rate ≡ 48000 }
{
    Score {
        length: session.length,
        sound,
        pattern: &blocks.sizes,
        entries,
        stops,
        bits: session.bits,
        rate: RATE,
    }
}

/// Renders what was drawn from a number by its instances, which come back with their processors processing, and gives
/// the summary.
///
/// A call of `sound_is_input` does nothing: the proof uses what it ensures.
fn sum_band<P: Processor + Drop, C: Controller + Drop>(
    alloc: Global,
    number: u32,
    drawn: Generated,
    blocks: &Blocks,
    band: Band<P, C>,
) -> (Band<P, C>, Result<Vec<u8>, AllocError>)
    requires band { (known : Known) × (known.class_of ≡ P.class_of) × IsDrawn known.infos number drawn × IsBand
        (record { code = P.code; values = P.values; state = P.state; calls = P.calls; phase = P.phase; setup = P.last_setup })
        (record { code = C.code; values = C.values; mode = C.mode })
        (plan_of known (content_of drawn.session) (none_of (content_of drawn.session)) blocks.now.longest) band }
    requires pattern { IsPattern blocks.now.sizes.items }
    requires sizes { blocks.now.sizes.items ≡ sizes }
    ensures held { IsHeld result.0 }
    ensures processing { All (λ phase. phase ≡ AtProcessing) (of_processors P.phase result.0.processors.items) }
    ensures components { length result.0.components.items ≡ length (nodes_of drawn.session.nodes) }
    ensures controllers { length result.0.controllers.items ≡ length (nodes_of drawn.session.nodes) }
    ensures text { (known : Known) → known.class_of ≡ P.class_of → IsDrawn known.infos number drawn → IsBand
        (record { code = P.code; values = P.values; state = P.state; calls = P.calls; phase = P.phase; setup = P.last_setup })
        (record { code = C.code; values = C.values; mode = C.mode })
        (plan_of known (content_of drawn.session) (none_of (content_of drawn.session)) blocks.now.longest) band
        → IfOk result.1 (λ text. text.items ≡ gen_text known.infos (drawn_scene known number) number) }
    ensures calls { (known : Known) → known.class_of ≡ P.class_of → IsDrawn known.infos number drawn → IsBand
        (record { code = P.code; values = P.values; state = P.state; calls = P.calls; phase = P.phase; setup = P.last_setup })
        (record { code = C.code; values = C.values; mode = C.mode })
        (plan_of known (content_of drawn.session) (none_of (content_of drawn.session)) blocks.now.longest) band
        → OnOk result.1 (sum (of_processors P.calls result.0.processors.items) ≡ drawn_calls known number) }
{
    let max = blocks.longest as usize;
    let Generated {
        session,
        entries,
        sound,
    } = drawn;
    let Ok(mut supplies) = Supplies::new(alloc, max, &entries) else {
        return (band, Err(AllocError));
    };
    let score = score_of(&session, &sound, &entries, blocks, &supplies.stops);
    let nodes = session.nodes.len();
    let Band {
        components,
        controllers,
        processors,
        edits,
        holders,
        first,
    } = band;
    let parts = Parts {
        session,
        processors,
        first,
    };
    sound_is_input();
    let (parts, text) = match Engine::new(alloc, parts, max, supplies.stops.len()) {
        Ok(mut engine) => {
            let sums = render_sums(&mut engine, &score, &mut supplies.ins, &mut supplies.outs);
            let text = summary(alloc, number, nodes, entries.len(), sums);
            (engine.finish(), text)
        }
        Err(parts) => (parts, Err(AllocError)),
    };
    let Parts {
        session: _,
        processors,
        first,
    } = parts;
    let band = Band {
        components,
        controllers,
        processors,
        edits,
        holders,
        first,
    };
    (band, text)
}

/// Renders the session that is drawn from a number, over the input and under the journal that are drawn, and says the
/// summary. All instances are made and ended.
///
/// Calls of `raised_by_sum` and `without_preset` do nothing: the proof uses what they ensure.
pub(crate) fn generated<Y: Say, S: PluginSet>(
    alloc: Global,
    number: u32,
    say: &mut Y,
    set: &mut S,
) -> Result<(), Status>
    requires classes { BeginsBuiltIn (S.infos set.old) }
    requires work { S.work set.old ≤ 2 ^ 64 - 1 }
    ensures ends { (files : Store) → EndsUnsaid (λ calls. S.work set.new ≡ raised_by calls (S.work set.old)) (record { old = files; new = files; said = voice Y.Say say.old; said_now = voice Y.Say say.new })
        (gen_steps (record { infos = S.infos set.old; code = S.code set.old; class_of = S.P.Processor.class_of }) number) (status_of result) }
    ensures faults { Y.faults say.old ≤ Y.faults say.new }
    ensures objects { AreEnded (S.made set.old) (S.ended set.old) (S.made set.new) (S.ended set.new) }
    ensures infos { S.infos set.new ≡ S.infos set.old }
    ensures codes { (class : ℕ) → S.code set.new class ≡ S.code set.old class }
{
    let Ok(drawn) = generate(alloc, number, set.classes()) else {
        return Err(Status::Memory);
    };
    let Ok(blocks) = Blocks::new(alloc, &drawn.session, None) else {
        return Err(Status::Memory);
    };
    let Ok(presets) = no_presets(alloc, drawn.session.nodes.len()) else {
        return Err(Status::Memory);
    };
    without_preset();
    let band = match make(alloc, set, &drawn.session, &presets, blocks.longest) {
        Ok(band) => band,
        Err(MakeRefused::Preset { node: _, kind: _ }) => unreachable!(),
        Err(MakeRefused::Memory) => return Err(Status::Memory),
    };
    let (band, text) = sum_band(alloc, number, drawn, &blocks, band);
    raised_by_sum();
    tear_down(set, band);
    let Ok(text) = text else {
        return Err(Status::Memory);
    };
    match say_all(say, text.as_slice()) {
        Ok(()) => Ok(()),
        Err(_) => Err(Status::WriteFault(Place::Report)),
    }
}
