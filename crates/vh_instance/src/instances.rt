//! A band is made.

ghost use Rattle.std.specs.Prelude.{◌≡◌, ◌≤◌, ◌*◌, ℕ, length, OnOk, OnErr, IfOk, IfErr};
ghost use Rattle.vh_params.specs.Nodes.{nodes_of};
ghost use Rattle.vh_session.specs.Keeps.{StandsUnder};
ghost use Rattle.vh_session.specs.Names.{content_of};
ghost use Rattle.vh_instance.specs.Plan.{plan_for};
ghost use Rattle.vh_instance.specs.Presets.{AreAccepted, IsCause};
ghost use Rattle.vh_instance.specs.Raised.{raised_times, IsUndone};
ghost use Rattle.vh_instance.specs.Band.{IsBand};

use crate::band::Band;
use crate::component::{Components, make_components};
use crate::controller::{Controllers, make_controllers};
use crate::end::end_controllers;
use crate::refused::MakeRefused;
use std::alloc::{AllocError, Global};
use vh_plugin::{Controller, PluginSet, Processor};
use vh_preset::Preset;
use vh_session::Session;

/// Makes the instances of a session, with a preset or none for each node, whose processors take blocks of at most
/// `max` samples. A component gets the component state of its node's preset, the controller the same and the
/// controller's state, and both then the node's first values, in which `param` lines go over the preset.
///
/// The first node whose preset is refused is the answer's. After a refusal all that was made is ended.
pub fn make<S: PluginSet>(
    alloc: Global,
    set: &mut S,
    session: &Session,
    presets: &[Option<Preset>],
    max: u32,
) -> Result<Band<S::P, S::C>, MakeRefused>
    requires stands { StandsUnder (S.infos set.old) (content_of session.now) }
    requires presets { length presets.now ≡ length (nodes_of session.now.nodes) }
    requires some { 1 ≤ max }
    requires most { max ≤ 8192 }
    ensures band { IfOk result (λ band. IsBand
        (record { code = S.P.Processor.code; values = S.P.Processor.values; state = S.P.Processor.state; calls = S.P.Processor.calls; phase = S.P.Life.phase; setup = S.P.Life.last_setup })
        (record { code = S.C.Controller.code; values = S.C.Controller.values; mode = S.C.Controller.mode })
        (plan_for (S.infos set.old) (S.code set.old) S.P.Processor.class_of session.now presets.now max)
        band) }
    ensures accepted { OnOk result (AreAccepted (plan_for (S.infos set.old) (S.code set.old) S.P.Processor.class_of session.now presets.now max) (length (nodes_of session.now.nodes))) }
    ensures cause { IfErr result (IsCause (plan_for (S.infos set.old) (S.code set.old) S.P.Processor.class_of session.now presets.now max)) }
    ensures made { OnOk result (S.made set.new ≡ raised_times (2 * length (nodes_of session.now.nodes)) (S.made set.old)) }
    ensures kept { OnOk result (S.ended set.new ≡ S.ended set.old) }
    ensures refused { OnErr result (IsUndone (S.made set.old) (S.ended set.old) (S.work set.old) (S.made set.new) (S.ended set.new) (S.work set.new)) }
    ensures work { OnOk result (S.work set.new ≡ S.work set.old) }
    ensures infos { S.infos set.new ≡ S.infos set.old }
    ensures codes { (class : ℕ) → S.code set.new class ≡ S.code set.old class }
{
    let Controllers {
        controllers,
        edits,
        holders,
    } = make_controllers(alloc, set, session, presets)?;
    match make_components(alloc, set, session, presets, &edits, max) {
        Ok(
            Components {
                components,
                processors,
                first,
            },
        ) => Ok(Band {
            components,
            controllers,
            processors,
            edits,
            holders,
            first,
        }),
        Err(AllocError) => {
            end_controllers(set, controllers, edits, holders);
            Err(MakeRefused::Memory)
        }
    }
}
