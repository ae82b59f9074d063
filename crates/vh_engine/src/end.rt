//! The end of a rendering.

ghost use Rattle.std.specs.Prelude.{◌≡◌, ◌<◌, ◌≤◌, ◌+◌, ◌*◌, ◌++◌, ℕ, true, false, List, [], length, map, slice_index_or, All};
ghost use Rattle.vh_num.specs.Frames.{Frame};
ghost use Rattle.vh_plugin.specs.Counts.{raised};
ghost use Rattle.vh_journal.specs.declared.entry.Entry.{Entry as Stored};
ghost use Rattle.vh_meaning.specs.Rendering.{answers, last_values};
ghost use Rattle.vh_engine.specs.Blocks.{AreCurrent};
ghost use Rattle.vh_engine.specs.Engine.{kept_in, IsReadyFor, IsEngine};
ghost use Rattle.vh_engine.specs.Kept.{standing_in, Stands, MayCarry, IsSameEngine};
ghost use Rattle.vh_engine.specs.Parts.{scene_by};
ghost use Rattle.vh_engine.specs.Staged.{boards_of};

use crate::block::{begin, show};
use crate::nodes::flush_nodes;
use crate::parts::Parts;
use crate::span::Span;
use crate::work::Work;
use vh_journal::Entry;
use vh_plugin::Processor;

/// Has all processors take their parameters' values at the next sample, without a frame.
fn settle_all<P: Processor + Drop>(parts: &mut Parts<P>, work: &mut Work)
    requires ready { IsReadyFor P.class_of P.code P.values P.phase P.last_setup parts.old work.old 0 }
    ensures ready { (room : ℕ) → IsReadyFor P.class_of P.code P.values P.phase P.last_setup parts.old work.old room → IsReadyFor P.class_of P.code P.values P.phase P.last_setup parts.new work.new room }
    ensures current { AreCurrent parts.new.session.lanes.items work.old.pos (boards_of work.new.boards.items) }
    ensures standing { standing_in (kept_in P.code P.state P.calls parts.new work.new) ≡ standing_in (kept_in P.code P.state P.calls parts.old work.old) }
    ensures calls { (kept_in P.code P.state P.calls parts.new work.new).calls ≡ map raised (kept_in P.code P.state P.calls parts.old work.old).calls }
    ensures same { IsSameEngine (kept_in P.code P.state P.calls parts.old work.old) (kept_in P.code P.state P.calls parts.new work.new) }
    ensures at { work.new.pos ≡ work.old.pos }
{
    let (session, processors) = (&parts.session, &mut parts.processors);
    let span = Span::sample(&session.lanes, work.pos);
    flush_nodes(&span, processors, &mut work.boards, &mut work.space.points);
}

/// Ends a rendering under the entries at its length.
pub(crate) fn finish_with<P: Processor + Drop>(
    parts: &mut Parts<P>,
    work: &mut Work,
    entries: &[Entry],
)
    requires engine { IsEngine P.class_of P.code P.values P.phase P.last_setup parts.old work.old }
    requires end { work.old.pos ≡ parts.old.session.length }
    requires entries { MayCarry (scene_by P.class_of P.code parts.old) work.old.pos (work.old.pos + 1) (kept_in P.code P.state P.calls parts.old work.old).room entries.now }
    requires going { work.old.flushed ≡ false }
    ensures engine { IsEngine P.class_of P.code P.values P.phase P.last_setup parts.new work.new }
    ensures values { (input : List Frame) (h : List Stored) → Stands P.class_of (kept_in P.code P.state P.calls parts.old work.old) input h
        → work.new.values.items ≡ last_values (scene_by P.class_of P.code parts.old) input (h ++ entries.now) }
    ensures answers { (input : List Frame) (h : List Stored) → Stands P.class_of (kept_in P.code P.state P.calls parts.old work.old) input h
        → (kept_in P.code P.state P.calls parts.new work.new).answers ≡ answers (scene_by P.class_of P.code parts.old) input (h ++ entries.now) }
    ensures calls { (kept_in P.code P.state P.calls parts.new work.new).calls ≡ map raised (kept_in P.code P.state P.calls parts.old work.old).calls }
    ensures at { work.new.pos ≡ work.old.pos }
    ensures same { IsSameEngine (kept_in P.code P.state P.calls parts.old work.old) (kept_in P.code P.state P.calls parts.new work.new) }
    ensures flushed { work.new.flushed ≡ true }
{
    begin(parts, work, entries);
    settle_all(parts, work);
    show(parts, work);
    work.flushed = true;
}
