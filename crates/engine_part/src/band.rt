//! The parts of an engine, out of a band, and back.

ghost use Rattle.std.specs.Prelude.{◌≡◌, ◌≤◌, IfOk, All};
ghost use Rattle.vh_component.specs.declared.setup.Phase.TheVariants.{Processing as AtProcessing};
ghost use Rattle.vh_session.specs.Keeps.{StandsUnder};
ghost use Rattle.vh_session.specs.Names.{content_of};
ghost use Rattle.vh_engine.specs.Parts.{AreParts};
ghost use Rattle.vh_engine.specs.Staged.{of_all};
ghost use Rattle.engine_part.specs.Whole.{IsWhole};

use std::alloc::{AllocError, Global};
use vh_counted::{Counted, Holder, Opened};
use vh_engine::Parts;
use vh_instance::{Band, make, no_presets, tear_down};
use vh_plugin::PluginSet;
use vh_session::Session;

/// What of a band an engine doesn't take: the objects, and who holds the controllers.
pub(crate) struct Rest<P, C> {
    components: Vec<Counted<P>>,
    controllers: Vec<Counted<C>>,
    edits: Vec<Opened<C>>,
    holders: Vec<Vec<Holder<C>>>,
}

/// Makes the instances of a session without its presets, for blocks of at most `size` frames, 1 to 8192.
pub(crate) fn open<S: PluginSet>(
    alloc: Global,
    set: &mut S,
    session: Session,
    size: u32,
) -> Result<(Parts<S::P>, Rest<S::P, S::C>), AllocError>
    requires stands { StandsUnder (S.infos set.old) (content_of session) }
    requires some { 1 ≤ size }
    requires most { size ≤ 8192 }
    ensures parts { IfOk result (λ made. AreParts S.P.Processor.class_of S.P.Processor.code S.P.Processor.state S.P.Processor.values S.P.Life.phase S.P.Life.last_setup made.0 size) }
    ensures session { IfOk result (λ made. made.0.session ≡ session) }
    ensures whole { IfOk result (λ made. IsWhole made.0.processors.items made.1) }
{
    let presets = no_presets(alloc, session.nodes.len())?;
    let Ok(band) = make(alloc, set, &session, &presets, size) else {
        return Err(AllocError);
    };
    let Band {
        components,
        controllers,
        processors,
        edits,
        holders,
        first,
    } = band;
    let parts = Parts {
        session,
        processors,
        first,
    };
    let rest = Rest {
        components,
        controllers,
        edits,
        holders,
    };
    Ok((parts, rest))
}

/// Ends them.
pub(crate) fn close<S: PluginSet>(set: &mut S, parts: Parts<S::P>, rest: Rest<S::P, S::C>)
    requires whole { IsWhole parts.processors.items rest }
    requires processing { All (λ at. at ≡ AtProcessing) (of_all S.P.Life.phase parts.processors.items) }
{
    let Parts {
        session: _,
        processors,
        first,
    } = parts;
    let Rest {
        components,
        controllers,
        edits,
        holders,
    } = rest;
    let band = Band {
        components,
        controllers,
        processors,
        edits,
        holders,
        first,
    };
    tear_down(set, band);
}
