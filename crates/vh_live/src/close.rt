//! The end of a run.
//!
//! A call of `legal_is_on` does nothing: the proof uses what it ensures.

ghost use Rattle.std.specs.Prelude.{◌≡◌, ◌≢◌, ℕ, List, map, OnOk};
ghost use Rattle.vh_num.specs.Frames.{Frame};
ghost use Rattle.vh_plugin.specs.Counts.{raised};
ghost use Rattle.vh_session.specs.declared.session.Session.{Session};
ghost use Rattle.vh_meaning.specs.Rendering.{answers, last_values};
ghost use Rattle.vh_engine.specs.Kept.{scene_in, Stands, IsSameEngine};
ghost use Rattle.vh_engine.specs.Staged.{answer_of};
ghost use Rattle.vh_stage.specs.Carried.{AreOn};
ghost use Rattle.vh_stage.specs.Staged.{IsAtEnd, IsTold, IsSameStage, taken_in, replies_in};
ghost use Rattle.vh_live.specs.Closing.{IsOver, IsClosed, outcome_of};

use crate::outcome::{Outcome, Played};
use crate::run::Run;
use std::sync::Wait;
use vh_editors::laws::legal_is_on;
use vh_engine::Parts;
use vh_instance::Band;
use vh_plugin::{Controller, Processor};
use vh_stage::{Finished, Stage, Stopped};

/// Ends a rendering that was played to its length, under the entries there.
fn end<P: Processor + Drop>(stage: &mut Stage<P>, blocks: Result<(), Stopped>) -> Outcome
    requires ready { OnOk blocks (IsAtEnd P.class_of stage.old) }
    requires fitted { AreOn stage.old.engine.session.nodes stage.old.journal.items }
    requires fit { blocks ≢ Err Stopped.Unfit }
    ensures outcome { result ≡ outcome_of blocks }
    ensures values { (input : List Frame) → OnOk blocks (Stands P.class_of stage.old.engine input (taken_in stage.old)
        → stage.new.engine.values ≡ last_values (scene_in P.class_of stage.old.engine) input stage.old.journal.items) }
    ensures answers { (input : List Frame) → OnOk blocks (Stands P.class_of stage.old.engine input (taken_in stage.old)
        → map answer_of (replies_in stage.new) ≡ answers (scene_in P.class_of stage.old.engine) input stage.old.journal.items) }
    ensures told { (firsts : List ℕ) → IsTold stage.old firsts → OnOk blocks (IsTold stage.new firsts) }
    ensures calls { OnOk blocks (stage.new.engine.calls ≡ map raised stage.old.engine.calls) }
    ensures journal { stage.new.journal.items ≡ stage.old.journal.items }
    ensures same { IsSameEngine stage.old.engine stage.new.engine }
    ensures same_stage { IsSameStage stage.old stage.new }
{
    match blocks {
        Ok(()) => {
            stage.end();
            Outcome::Done
        }
        Err(Stopped::ReadFailed) => Outcome::ReadFailed,
        Err(Stopped::WriteFailed) => Outcome::WriteFailed,
        Err(Stopped::Unfit) => unreachable!(),
    }
}

/// Gathers what the editors did, ends the rendering where it came to its length, and takes the run apart.
pub(crate) fn close<R: Wait, P: Processor + Drop, C: Controller + Drop>(
    rt: &R,
    run: Run<P, C>,
    blocks: Result<(), Stopped>,
) -> Played<P, C>
    requires { (session : Session) × IsOver P.class_of session run blocks }
    ensures { IsClosed P.class_of C.class_of (record { code = P.code; values = P.values; state = P.state; calls = P.calls; phase = P.phase; setup = P.last_setup }) (record { code = C.code; values = C.values; mode = C.mode }) run blocks result }
{
    legal_is_on();
    let Run {
        mut stage,
        editors,
        drain,
        mut hands,
        components,
        sizes: _sizes,
        mut refused,
    } = run;
    hands.hand_out(&editors);
    let length = stage.engine.session().length;
    editors.gather(rt, drain, length, &mut stage.journal, &mut refused);
    let outcome = end(&mut stage, blocks);
    let Finished {
        parts,
        journal,
        replies,
        sender,
    } = stage.finish();
    let Parts {
        session,
        processors,
        first,
    } = parts;
    let (controllers, edits, holders) = hands.settle(sender);
    let band = Band {
        components,
        controllers,
        processors,
        edits,
        holders,
        first,
    };
    Played {
        outcome,
        session,
        band,
        journal,
        refused,
        replies,
    }
}
