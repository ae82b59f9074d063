//! `preset-save`.

ghost use Rattle.std.specs.Prelude.{◌≡◌, ◌≤◌, ◌<◌, ◌^◌, ◌+◌, ◌-◌, ℕ, List, [], ◌∷◌, Option, Some, None, length, IfOk, IfErr};
ghost use Rattle.vh_files.specs.Store.{SameElsewhere};
ghost use Rattle.vh_params.specs.ClassList.{classes_of};
ghost use Rattle.vh_params.specs.Nodes.{nodes_of};
ghost use Rattle.vh_plugin.specs.Counts.{raised_by};
ghost use Rattle.vh_preset.specs.Contents.{Contents};
ghost use Rattle.vh_preset.specs.Text.{preset_text};
ghost use Rattle.vh_session.specs.Keeps.{StandsUnder};
ghost use Rattle.vh_session.specs.Names.{content_of};
ghost use Rattle.vh_instance.specs.Plan.{Plan, component_at};
ghost use Rattle.vh_instance.specs.Band.{IsBand};
ghost use Rattle.vh_answers.specs.declared.status.Place.TheVariants.{Output as OutputPlace};
ghost use Rattle.vh_answers.specs.Outside.{Store, Said, store};
ghost use Rattle.vh_answers.specs.Steps.{Last, Halts, EndsUnsaid};
ghost use Rattle.vh_host.specs.Known.{Known, plan_of, AreEnded};
ghost use Rattle.vh_host.specs.Commands.{IsNamed, states_of, named_step, saved_text, save_steps};
ghost use Rattle.vh_host.specs.Named.{save_of, status_of};

use crate::opening::{Opening, open_session};
use crate::words::Save;
use std::alloc::{AllocError, Global};
use vh_answers::{Place, Status};
use vh_files::{Files, append_all};
use vh_ids::Tuid;
use vh_instance::laws::raised_by_sum;
use vh_instance::{Band, tear_down};
use vh_params::Classes;
use vh_plugin::{Controller, PluginSet, Processor};
use vh_preset::{Chunks, PresetRefusal, write};
use vh_session::Session;

/// What refuses a name that no node has.
const NO_SUCH_NODE: Status = Status::PresetRefused {
    node: None,
    kind: PresetRefusal::NoSuchNode,
};

/// The identifier of the class of a node's component.
fn class_of_node<'a>(classes: &'a Classes, session: &Session, node: u32) -> &'a Tuid
    requires node { node < length (nodes_of session.now.nodes) }
    requires stands { StandsUnder (classes_of classes.now) (content_of session.now) }
    ensures { (plan : Plan) → plan.infos ≡ classes_of classes.now → plan.content ≡ content_of session.now → result.now.0 ≡ component_at plan node }
{
    let class = classes.find(session.nodes.class_name(node).text()).unwrap();
    &classes.info(class).component
}

/// The canonical preset of a class that holds these states, of a component and of a controller.
fn write_states<'a>(
    alloc: Global,
    class: &Tuid,
    comp: &'a [u8],
    cont: &'a [u8],
) -> Result<Vec<u8>, AllocError>
    requires { length comp.now + length cont.now ≤ 2 ^ 30 }
    ensures { IfOk result (λ text. text.items ≡ preset_text class.now (record { comp = Some comp.now; cont = Some cont.now; prog = None; info = None })) }
{
    let chunks = Chunks {
        comp: Some(comp),
        cont: Some(cont),
        prog: None,
        info: None,
    };
    write(alloc, class, &chunks)
}

/// The canonical preset of a class that holds the states of a processor and of a controller.
fn preset_of<P: Processor, C: Controller>(
    alloc: Global,
    class: &Tuid,
    processor: &P,
    controller: &C,
) -> Result<Vec<u8>, AllocError>
    ensures { IfOk result (λ text. text.items ≡ preset_text class.now (states_of ((P.class_of (P.code processor.now)).state_text (P.values processor.now)) (C.mode controller.now))) }
{
    let state = processor.state(alloc)?;
    let mode = controller.state(alloc)?;
    write_states(alloc, class, state.as_slice(), mode.as_slice())
}

/// The preset of a band's node of this name.
fn preset_named<P: Processor + Drop, C: Controller + Drop>(
    alloc: Global,
    classes: &Classes,
    session: &Session,
    band: &Band<P, C>,
    name: &str,
) -> Result<Vec<u8>, Status>
    requires stands { StandsUnder (classes_of classes.now) (content_of session.now) }
    requires band { (plan : Plan) × (plan.infos ≡ classes_of classes.now) × (plan.content ≡ content_of session.now) × (plan.class_of ≡ P.class_of) × IsBand
        (record { code = P.code; values = P.values; state = P.state; calls = P.calls; phase = P.phase; setup = P.last_setup })
        (record { code = C.code; values = C.values; mode = C.mode })
        plan band.now }
    ensures text { IfOk result (λ text. (node : ℕ) × IsNamed (nodes_of session.now.nodes) name.now node × ((plan : Plan) → plan.infos ≡ classes_of classes.now → plan.content ≡ content_of session.now → plan.class_of ≡ P.class_of → IsBand
        (record { code = P.code; values = P.values; state = P.state; calls = P.calls; phase = P.phase; setup = P.last_setup })
        (record { code = C.code; values = C.values; mode = C.mode })
        plan band.now → text.items ≡ saved_text plan node)) }
    ensures stop { (old new : Store) → IfErr result (Halts old new (named_step (nodes_of session.now.nodes) name.now)) }
{
    let Some(node) = session.nodes.node(name.as_bytes()) else {
        return Err(NO_SUCH_NODE);
    };
    let class = class_of_node(classes, session, node);
    let processor = band.processors[node as usize].value();
    match preset_of(alloc, class, processor, band.edits[node as usize].value()) {
        Ok(text) => Ok(text),
        Err(AllocError) => Err(Status::Memory),
    }
}

/// Writes a file that has these bytes.
fn write_file<F: Files>(files: &mut F, name: &str, bytes: &[u8]) -> Result<(), Status>
    ensures ends { (said : Said) → EndsUnsaid (λ calls. calls ≡ 0) (record { old = store F.Files files.old; new = store F.Files files.new; said = said; said_now = said })
        (Last (record { place = OutputPlace; name = name.now; apart = []; text = bytes.now } ∷ []) [] 0) (status_of result) }
    ensures others { SameElsewhere name.now (F.held files.old) (F.held files.new) }
    ensures complete { F.complete files.new ≡ F.complete files.old }
    ensures reads { F.read_faults files.new ≡ F.read_faults files.old }
    ensures writes { F.write_faults files.old ≤ F.write_faults files.new }
{
    let Ok(()) = files.create(name) else {
        return Err(Status::WriteFault(Place::Output));
    };
    match append_all(files, name, bytes) {
        Ok(()) => Ok(()),
        Err(_) => Err(Status::WriteFault(Place::Output)),
    }
}

/// Saves the preset of a session's node as a file: its class, its first values, and how its controller shows them. All
/// instances are made and ended.
///
/// A call of `raised_by_sum` does nothing: the proof uses what it ensures.
pub(crate) fn preset_save<F: Files, S: PluginSet>(
    alloc: Global,
    save: &Save<'_>,
    files: &mut F,
    set: &mut S,
) -> Result<(), Status>
    requires { S.work set.old ≤ 2 ^ 64 - 1 }
    ensures ends { (said : Said) → EndsUnsaid (λ calls. S.work set.new ≡ raised_by calls (S.work set.old)) (record { old = store F.Files files.old; new = store F.Files files.new; said = said; said_now = said })
        (save_steps (record { infos = S.infos set.old; code = S.code set.old; class_of = S.P.Processor.class_of }) (save_of save.now)) (status_of result) }
    ensures others { SameElsewhere save.now.output.now (F.held files.old) (F.held files.new) }
    ensures complete { F.complete files.new ≡ F.complete files.old }
    ensures reads { F.read_faults files.old ≤ F.read_faults files.new }
    ensures writes { F.write_faults files.old ≤ F.write_faults files.new }
    ensures objects { AreEnded (S.made set.old) (S.ended set.old) (S.made set.new) (S.ended set.new) }
    ensures infos { S.infos set.new ≡ S.infos set.old }
    ensures codes { (class : ℕ) → S.code set.new class ≡ S.code set.old class }
{
    let Opening {
        session,
        blocks: _,
        band,
    } = match open_session(alloc, files, set, save.session, None) {
        Ok(opening) => opening,
        Err(status) => return Err(status),
    };
    let text = preset_named(alloc, set.classes(), &session, &band, save.node);
    raised_by_sum();
    tear_down(set, band);
    match text {
        Ok(text) => write_file(files, save.output, text.as_slice()),
        Err(status) => Err(status),
    }
}
