//! A session is played while its editors work.
//!
//! A call of a law does nothing: the proof uses what it ensures.

ghost use Rattle.std.specs.Prelude.{◌≡◌, ◌≢◌, ◌≤◌, ◌+◌, ◌++◌, List, [], length, map, All};
ghost use Rattle.vh_component.specs.declared.setup.Phase.TheVariants.{Processing as AtProcessing};
ghost use Rattle.vh_files.specs.Causes.{Rose};
ghost use Rattle.vh_num.specs.Frames.{Frame};
ghost use Rattle.vh_params.specs.Nodes.{nodes_of};
ghost use Rattle.vh_plugin.specs.Counts.{raised_by};
ghost use Rattle.vh_cut.specs.Cut.{pieces_of};
ghost use Rattle.vh_session.specs.Names.{content_of};
ghost use Rattle.vh_meaning.specs.Rendering.{rendering, answers, last_values};
ghost use Rattle.vh_legal.specs.Legal.{IsLegalFor, scripts_of};
ghost use Rattle.vh_engine.specs.Staged.{answer_of};
ghost use Rattle.vh_instance.specs.Band.{IsHeld, of_processors};
ghost use Rattle.vh_instance.specs.Seats.{row_seats};
ghost use Rattle.vh_live.specs.Bands.{IsMadeFor, AreSameComponents, AreSameControllers, scene_by, values_in};
ghost use Rattle.vh_hands.specs.Hands.{AreInHand};
ghost use Rattle.vh_live.specs.Heard.{IsFrontOf};
ghost use Rattle.vh_editors.specs.Journals.{IsBegunFor};
ghost use Rattle.vh_editors.specs.Scripts.{refused_by_each};

use crate::beside::perform;
use crate::close::close;
use crate::outcome::{Outcome, Played};
use crate::run::Run;
use std::alloc::Global;
use std::sync::Wait;
use std::thread::Threads;
use vh_editors::laws::{legal_is_begun, nothing_is_begun};
use vh_files::Gate;
use vh_instance::Band;
use vh_plugin::{Controller, Processor};
use vh_session::Session;
use vh_wav::Frames;

/// Plays a session by a band, while each of its editors works at its script in a thread of its own, and while the
/// controllers follow in another. Audio runs on the caller's thread. Before each block it takes what the editors did into
/// the journal, at the block's first sample; what came later is taken at the length, once the editors are done.
///
/// The band has to be one that was made for the session, with a max that no size of its pattern passes; `frames` has the
/// session's channels, such a max too, and room for all its frames, and nothing was added to it. A read or a write of
/// `frames` that fails ends the blocks; the editors are joined all the same, and the band comes back.
pub fn play<
    R: Threads + Wait + Sync,
    P: Processor + Drop,
    C: Controller + Drop + Send + Sync,
    G: Gate + Sync,
    I: Frames,
>(
    rt: &R,
    alloc: Global,
    session: Session,
    band: Band<P, C>,
    gate: &G,
    frames: &mut I,
) -> Played<P, C>
    requires band { IsMadeFor
        (record { code = P.code; values = P.values; state = P.state; calls = P.calls; phase = P.phase; setup = P.last_setup })
        (record { code = C.code; values = C.values; mode = C.mode })
        P.class_of C.class_of (content_of session) band }
    requires channels { I.channels frames.old ≡ session.channels }
    requires max { All (λ size. size ≤ I.max frames.old) (content_of session).pattern }
    requires none { I.pushed frames.old ≡ 0 }
    requires whole { I.cut frames.old ≡ [] }
    requires room { session.length ≤ I.room frames.old }
    ensures legal { result.outcome ≡ Outcome.Done → IsLegalFor session result.journal.items }
    ensures sound { (input before : List Frame) → I.reads frames.old input → I.wrote frames.old before → result.outcome ≡ Outcome.Done
        → I.wrote frames.new (before ++ rendering (scene_by P.class_of P.code (content_of session) band) input result.journal.items) }
    ensures replies { (input : List Frame) → I.reads frames.old input → result.outcome ≡ Outcome.Done
        → map answer_of result.replies.items ≡ answers (scene_by P.class_of P.code (content_of session) band) input result.journal.items }
    ensures refused { result.outcome ≡ Outcome.Done → result.refused.items ≡ refused_by_each (nodes_of session.nodes) (scripts_of session) }
    ensures values { (input : List Frame) → I.reads frames.old input → result.outcome ≡ Outcome.Done
        → values_in C.values result.band ≡ last_values (scene_by P.class_of P.code (content_of session) band) input result.journal.items }
    ensures calls { result.outcome ≡ Outcome.Done → of_processors P.calls result.band.processors.items
        ≡ map (raised_by (length (pieces_of session.length (content_of session).pattern []) + 1)) (of_processors P.calls band.processors.items) }
    ensures hands { result.outcome ≡ Outcome.Done → AreInHand (nodes_of session.nodes) (scripts_of session) (map row_seats result.band.holders.items) }
    ensures session { content_of result.session ≡ content_of session }
    ensures components { AreSameComponents P.code band result.band }
    ensures controllers { AreSameControllers C.code C.mode band result.band }
    ensures begun { IsBegunFor session result.journal.items }
    ensures processing { All (λ phase. phase ≡ AtProcessing) (of_processors P.phase result.band.processors.items) }
    ensures held { IsHeld result.band }
    ensures front { (input before : List Frame) → I.reads frames.old input → I.wrote frames.old before
        → IsFrontOf I.wrote frames.new (I.cut frames.new) before (rendering (scene_by P.class_of P.code (content_of session) band) input result.journal.items) }
    ensures cut { result.outcome ≡ Outcome.WriteFailed → I.cut frames.new ≢ [] }
    ensures read { result.outcome ≡ Outcome.ReadFailed → Rose (I.pull_faults frames.old) (I.pull_faults frames.new) }
    ensures write { result.outcome ≡ Outcome.WriteFailed → Rose (I.push_faults frames.old) (I.push_faults frames.new) }
    ensures reads_later { I.pull_faults frames.old ≤ I.pull_faults frames.new }
    ensures writes_later { I.push_faults frames.old ≤ I.push_faults frames.new }
    ensures channels { I.channels frames.new ≡ I.channels frames.old }
    ensures room { I.room frames.new ≡ I.room frames.old }
    ensures max { I.max frames.new ≡ I.max frames.old }
    ensures rest { I.rest frames.new ≡ I.rest frames.old }
{
    legal_is_begun();
    nothing_is_begun();
    let run = match Run::new(alloc, session, band) {
        Ok(run) => run,
        Err((session, band)) => return Played {
            outcome: Outcome::Memory,
            session,
            band,
            journal: Vec::new(alloc),
            refused: Vec::new(alloc),
            replies: Vec::new(alloc),
        },
    };
    let (run, blocks) = perform(rt, gate, run, frames);
    close(rt, run, blocks)
}
