//! What the presets of nodes give their instances.

ghost use Rattle.std.specs.Prelude.{◌≡◌, ◌<◌, List, ℕ, length, map, replicate, Option, Some, None, IfOk, IfErr, OnOk, option_copied, option_map};
ghost use Rattle.std.specs.Option.{option_and_then};
ghost use Rattle.std.specs.Result.{result_err};
ghost use Rattle.vh_params.specs.Nodes.{nodes_of, node_at};
ghost use Rattle.vh_plugin.specs.Class.{Class, firsts_of, param_of};
ghost use Rattle.vh_preset.specs.Seen.{contents_of};
ghost use Rattle.vh_session.specs.Names.{content_of};
ghost use Rattle.vh_instance.specs.Presets.{component_state, preset_refusal, unread, values_under, mode_under};
ghost use Rattle.vh_instance.specs.Firsts.{firsts_under};

use crate::firsts::set_lines;
use std::alloc::{AllocError, Global};
use vh_ids::Tuid;
use vh_plugin::{Controller, Processor};
use vh_preset::{Preset, PresetRefusal};
use vh_session::Session;

/// No preset for any of so many nodes, as `make` takes them.
pub fn no_presets(alloc: Global, nodes: u32) -> Result<Vec<Option<Preset>>, AllocError>
    ensures size { IfOk result (λ presets. length presets.items ≡ nodes) }
    ensures none { IfOk result (λ presets. map (option_map contents_of) presets.items ≡ replicate nodes None) }
{
    let mut presets = Vec::with_capacity(alloc, nodes as usize)?;
    for _ in 0..nodes {
        presets.push_reserved(None);
    }
    Ok(presets)
}

/// The component state that a preset holds, which has to be of a class with components of this identifier.
fn state_of<'a>(preset: &'a Preset, component: &Tuid) -> Result<&'a [u8], PresetRefusal>
    ensures state { IfOk result (λ state. (class : Class) → preset_refusal class component.now.0 (contents_of preset.now) ≡ unread (class.state_of state.now)) }
    ensures bytes { IfOk result (λ state. component_state (contents_of preset.now) ≡ Some state.now) }
    ensures refused { IfErr result (λ kind. (class : Class) → preset_refusal class component.now.0 (contents_of preset.now) ≡ Some kind) }
{
    if preset.class != *component {
        return Err(PresetRefusal::OtherClass);
    }
    preset.chunk(*b"Comp").ok_or(PresetRefusal::NoComp)
}

/// Loads the controller's state of a preset, where it has one. A state that the controller doesn't take changes
/// nothing.
fn load_mode<C: Controller>(controller: &mut C, preset: &Preset)
    requires { C.mode controller.old ≡ 0 }
    ensures mode { C.mode controller.new ≡ mode_under (Some (contents_of preset.now)) }
    ensures values { C.values controller.new ≡ C.values controller.old }
    ensures code { C.code controller.new ≡ C.code controller.old }
{
    if let Some(state) = preset.chunk(*b"Cont") {
        let _ = controller.set_state(state);
    }
}

/// Loads the preset of a node, where it has one, into a controller that was created: the component's state, and the
/// controller's. The preset has to be of the class with components of this identifier.
fn load_controller<C: Controller>(
    controller: &mut C,
    preset: Option<&Preset>,
    component: &Tuid,
) -> Result<(), PresetRefusal>
    requires defaults { C.values controller.old ≡ firsts_of (C.class_of (C.code controller.old)).params }
    requires mode { C.mode controller.old ≡ 0 }
    ensures judged { result_err result ≡ option_and_then (preset_refusal (C.class_of (C.code controller.old)) component.now.0) (option_map contents_of (option_copied preset.entry)) }
    ensures values { OnOk result (C.values controller.new ≡ values_under (C.class_of (C.code controller.old)) (option_map contents_of (option_copied preset.entry))) }
    ensures mode { OnOk result (C.mode controller.new ≡ mode_under (option_map contents_of (option_copied preset.entry))) }
    ensures code { C.code controller.new ≡ C.code controller.old }
{
    let Some(preset) = preset else {
        return Ok(());
    };
    let state = state_of(preset, component)?;
    if !controller.set_component_state(state) {
        return Err(PresetRefusal::BadState);
    }
    load_mode(controller, preset);
    Ok(())
}

/// Gives a controller that was created what its node begins with: its preset, and over it the values of `param`
/// lines.
pub(crate) fn begin_controller<C: Controller>(
    controller: &mut C,
    session: &Session,
    node: u32,
    preset: Option<&Preset>,
    component: &Tuid,
) -> Result<(), PresetRefusal>
    requires node { node < length (nodes_of session.now.nodes) }
    requires params { (C.class_of (C.code controller.old)).params ≡ map param_of (node_at (nodes_of session.now.nodes) node).params }
    requires defaults { C.values controller.old ≡ firsts_of (C.class_of (C.code controller.old)).params }
    requires mode { C.mode controller.old ≡ 0 }
    ensures judged { result_err result ≡ option_and_then (preset_refusal (C.class_of (C.code controller.old)) component.now.0) (option_map contents_of (option_copied preset.entry)) }
    ensures values { OnOk result (C.values controller.new ≡ firsts_under (C.class_of (C.code controller.old)) (option_map contents_of (option_copied preset.entry)) (content_of session.now).firsts node) }
    ensures mode { OnOk result (C.mode controller.new ≡ mode_under (option_map contents_of (option_copied preset.entry))) }
    ensures code { C.code controller.new ≡ C.code controller.old }
{
    load_controller(controller, preset, component)?;
    set_lines(controller, session, node);
    Ok(())
}

/// Loads the component's state of a node's preset, where it has one, which is known to be one of the component's
/// class.
pub(crate) fn load_component<P: Processor>(processor: &mut P, preset: Option<&Preset>)
    requires { (component : List ℕ) × (option_and_then (preset_refusal (P.class_of (P.code processor.old)) component) (option_map contents_of (option_copied preset)) ≡ None) }
    ensures state { P.state processor.new ≡ P.state processor.old }
    ensures calls { P.calls processor.new ≡ P.calls processor.old }
    ensures code { P.code processor.new ≡ P.code processor.old }
    ensures phase { P.phase processor.new ≡ P.phase processor.old }
{
    let Some(preset) = preset else {
        return;
    };
    let Some(state) = preset.chunk(*b"Comp") else {
        return;
    };
    let taken = processor.set_state(state);
    prove!(taken);
}
