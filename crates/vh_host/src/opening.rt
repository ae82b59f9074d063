//! A session is read, and its instances are made.

ghost use Rattle.std.specs.Prelude.{◌≡◌, ◌*◌, ℕ, List, Option, length, IfOk, OnOk, IfErr, OnErr};
ghost use Rattle.vh_cut.specs.Cut.{IsPattern};
ghost use Rattle.vh_params.specs.Nodes.{nodes_of};
ghost use Rattle.vh_preset.specs.Contents.{Contents};
ghost use Rattle.vh_session.specs.Keeps.{StandsUnder};
ghost use Rattle.vh_session.specs.Names.{content_of};
ghost use Rattle.vh_instance.specs.Band.{IsBand};
ghost use Rattle.vh_instance.specs.Raised.{raised_times};
ghost use Rattle.vh_answers.specs.Outside.{store, OnlyReads};
ghost use Rattle.vh_answers.specs.Steps.{Halted};
ghost use Rattle.vh_host.specs.Known.{plan_of, AreEnded};
ghost use Rattle.vh_host.specs.Commands.{pattern_of, session_steps, no_more};
ghost use Rattle.vh_host.specs.Named.{IsSize};
ghost use Rattle.vh_host.specs.Opened.{IsOpened};

use crate::blocks::Blocks;
use crate::session::read_session;
use std::alloc::Global;
use vh_answers::Status;
use vh_files::Files;
use vh_instance::{Band, MakeRefused, make};
use vh_plugin::PluginSet;
use vh_reading::read_presets;
use vh_session::Session;

/// A session, its blocks, and its instances.
pub struct Opening<P, C> {
    pub session: Session,
    pub blocks: Blocks,
    pub band: Band<P, C>,
}

/// Reads a session and its presets, and makes its instances for blocks of the one size that words give, of 1 to 8192
/// frames, or else of the session's sizes. After a refusal all that was made is ended.
pub fn open_session<F: Files, S: PluginSet>(
    alloc: Global,
    files: &mut F,
    set: &mut S,
    name: &str,
    block: Option<u32>,
) -> Result<Opening<S::P, S::C>, Status>
    requires { IsSize block }
    ensures opened { IfOk result (λ opening. (presets : List (Option Contents))
        × IsOpened (store F.Files files.old) (record { infos = S.infos set.old; code = S.code set.old; class_of = S.P.Processor.class_of }) name.now (content_of opening.session) presets
        × IsBand
        (record { code = S.P.Processor.code; values = S.P.Processor.values; state = S.P.Processor.state; calls = S.P.Processor.calls; phase = S.P.Life.phase; setup = S.P.Life.last_setup })
        (record { code = S.C.Controller.code; values = S.C.Controller.values; mode = S.C.Controller.mode })
        (plan_of (record { infos = S.infos set.old; code = S.code set.old; class_of = S.P.Processor.class_of }) (content_of opening.session) presets opening.blocks.longest) opening.band) }
    ensures stands { IfOk result (λ opening. StandsUnder (S.infos set.old) (content_of opening.session)) }
    ensures sizes { IfOk result (λ opening. opening.blocks.sizes.items ≡ pattern_of block (content_of opening.session)) }
    ensures pattern { IfOk result (λ opening. IsPattern opening.blocks.sizes.items) }
    ensures stop { IfErr result (Halted (store F.Files files.old) (store F.Files files.new)
        (session_steps (record { infos = S.infos set.old; code = S.code set.old; class_of = S.P.Processor.class_of }) name.now no_more)) }
    ensures only_read { OnlyReads (store F.Files files.old) (store F.Files files.new) }
    ensures made { IfOk result (λ opening. S.made set.new ≡ raised_times (2 * length (nodes_of opening.session.nodes)) (S.made set.old)) }
    ensures kept { OnOk result (S.ended set.new ≡ S.ended set.old) }
    ensures objects { OnErr result (AreEnded (S.made set.old) (S.ended set.old) (S.made set.new) (S.ended set.new)) }
    ensures work { OnOk result (S.work set.new ≡ S.work set.old) }
    ensures infos { S.infos set.new ≡ S.infos set.old }
    ensures codes { (class : ℕ) → S.code set.new class ≡ S.code set.old class }
{
    let session = match read_session(alloc, files, name, set.classes()) {
        Ok(session) => session,
        Err(status) => return Err(status),
    };
    let Ok(blocks) = Blocks::new(alloc, &session, block) else {
        return Err(Status::Memory);
    };
    let presets = match read_presets(alloc, files, &session) {
        Ok(presets) => presets,
        Err(status) => return Err(status),
    };
    match make(alloc, set, &session, &presets, blocks.longest) {
        Ok(band) => Ok(Opening {
            session,
            blocks,
            band,
        }),
        Err(MakeRefused::Preset { node, kind }) => Err(Status::PresetRefused {
            node: Some(node),
            kind,
        }),
        Err(MakeRefused::Memory) => Err(Status::Memory),
    }
}
