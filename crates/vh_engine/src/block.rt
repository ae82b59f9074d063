//! A block, step by step.

ghost use Rattle.std.specs.Prelude.{◌≡◌, ◌<◌, ◌≤◌, ◌+◌, ◌*◌, ◌++◌, ◌^◌, ℕ, nat_lt, false, List, length, map, position, slice_index_or, All};
ghost use Rattle.vh_num.specs.Frames.{Frame, frame_at};
ghost use Rattle.vh_num.specs.Laws.{mixed};
ghost use Rattle.vh_plugin.specs.Counts.{raised};
ghost use Rattle.vh_journal.specs.declared.entry.Entry.{Entry as Stored};
ghost use Rattle.vh_meaning.specs.Edits.{up_to};
ghost use Rattle.vh_meaning.specs.Frames.{out_of};
ghost use Rattle.vh_meaning.specs.Rendering.{seen_at, seen_before, of_all, stops};
ghost use Rattle.vh_meaning.specs.Steps.{applied, values_in};
ghost use Rattle.vh_meaning.specs.World.{input_at};
ghost use Rattle.vh_engine.specs.Between.{IsUpTo, AreBetween, AreWithinOne};
ghost use Rattle.vh_engine.specs.Blocks.{HasGoneOver, AreCurrent};
ghost use Rattle.vh_engine.specs.Buses.{rows_of, frames_at, IsSource, HaveRoom, sources_of};
ghost use Rattle.vh_engine.specs.Engine.{kept_in, IsReadyFor, IsEngine};
ghost use Rattle.vh_engine.specs.Kept.{scene_in, standing_in, Stands, IsFor, MayCarry, AreInput, AreOut, IsSameEngine, IsSameCount};
ghost use Rattle.vh_engine.specs.Parts.{scene_by};
ghost use Rattle.vh_engine.specs.Staged.{AreSame, boards_of};

use crate::bus::mix;
use crate::nodes::run_nodes;
use crate::parts::Parts;
use crate::seen::see;
use crate::span::Span;
use crate::told::apply_all;
use crate::work::Work;
use vh_journal::Entry;
use vh_plugin::Processor;
use vh_session::End;

/// The place of the first entry behind a sample.
fn first_behind(entries: &[Entry], sample: u32) -> Option<usize>
    ensures { result ≡ position (λ entry. nat_lt sample entry.sample) entries.now }
{
    entries.iter().position(|entry| sample < entry.sample)
}

/// How many of these entries stand at a block's first sample.
fn head_of(entries: &[Entry], first: u32) -> usize
    requires rising { (i j : ℕ) (d : Stored) → i < j → j < length entries.now → (slice_index_or entries.now i d).sample ≤ (slice_index_or entries.now j d).sample }
    ensures up_to { IsUpTo entries.now result first }
    ensures count { length entries.now < 2 ^ 64 }
{
    first_behind(entries, first).unwrap_or(entries.len())
}

/// Applies the entries at the next sample.
pub(crate) fn begin<P: Processor + Drop>(parts: &mut Parts<P>, work: &mut Work, entries: &[Entry])
    requires ready { IsReadyFor P.class_of P.code P.values P.phase P.last_setup parts.old work.old (length entries.now) }
    requires commands { All (λ entry. IsFor (scene_by P.class_of P.code parts.old) entry.command) entries.now }
    requires few { length (stops entries.now) ≤ (kept_in P.code P.state P.calls parts.old work.old).room }
    ensures ready { (room : ℕ) → IsReadyFor P.class_of P.code P.values P.phase P.last_setup parts.old work.old (length entries.now + room) → IsReadyFor P.class_of P.code P.values P.phase P.last_setup parts.new work.new room }
    ensures applied { AreSame (scene_by P.class_of P.code parts.old) (applied (scene_by P.class_of P.code parts.old) work.old.pos entries.now (standing_in (kept_in P.code P.state P.calls parts.old work.old))) (standing_in (kept_in P.code P.state P.calls parts.new work.new)) }
    ensures room { (kept_in P.code P.state P.calls parts.new work.new).room + length (stops entries.now) ≡ (kept_in P.code P.state P.calls parts.old work.old).room }
    ensures same { IsSameEngine (kept_in P.code P.state P.calls parts.old work.old) (kept_in P.code P.state P.calls parts.new work.new) }
    ensures count { IsSameCount (kept_in P.code P.state P.calls parts.old work.old) (kept_in P.code P.state P.calls parts.new work.new) }
{
    let (session, processors) = (&parts.session, &mut parts.processors);
    apply_all(
        entries,
        work.pos,
        &session.lanes,
        processors,
        &mut work.boards,
        &mut work.given,
        &mut work.replies,
    );
}

/// Runs all nodes over a block, under the edits that lie ahead in it.
fn run<P: Processor + Drop>(
    parts: &mut Parts<P>,
    work: &mut Work,
    n: usize,
    entries: &[Entry],
    ins: &[i32],
)
    requires ready { IsReadyFor P.class_of P.code P.values P.phase P.last_setup parts.old work.old (length entries.now) }
    requires some { 1 ≤ n }
    requires most { n ≤ work.old.max }
    requires within { work.old.pos + n ≤ parts.old.session.length }
    requires between { AreBetween work.old.pos (work.old.pos + n) entries.now }
    requires commands { All (λ entry. IsFor (scene_by P.class_of P.code parts.old) entry.command) entries.now }
    requires ins { length ins.now ≡ parts.old.session.channels * n }
    ensures ready { (room : ℕ) → IsReadyFor P.class_of P.code P.values P.phase P.last_setup parts.old work.old (length entries.now + room) → IsReadyFor P.class_of P.code P.values P.phase P.last_setup parts.new work.new room }
    ensures over { HasGoneOver (scene_by P.class_of P.code parts.old) (standing_in (kept_in P.code P.state P.calls parts.old work.old)) (standing_in (kept_in P.code P.state P.calls parts.new work.new)) work.old.pos n ins.now entries.now (rows_of work.new.rows.items) }
    ensures current { (s : ℕ) → s + 1 ≡ work.old.pos + n → AreCurrent parts.new.session.lanes.items s (boards_of work.new.boards.items) }
    ensures calls { (kept_in P.code P.state P.calls parts.new work.new).calls ≡ map raised (kept_in P.code P.state P.calls parts.old work.old).calls }
    ensures same { IsSameEngine (kept_in P.code P.state P.calls parts.old work.old) (kept_in P.code P.state P.calls parts.new work.new) }
    ensures at { work.new.pos ≡ work.old.pos }
    ensures flushed { work.new.flushed ≡ work.old.flushed }
    ensures room { (kept_in P.code P.state P.calls parts.new work.new).room ≡ (kept_in P.code P.state P.calls parts.old work.old).room }
{
    let (session, processors) = (&parts.session, &mut parts.processors);
    let span = Span {
        lanes: &session.lanes,
        entries,
        from: work.pos,
        frames: n as u32,
    };
    run_nodes(
        &work.order,
        &work.seats,
        &span,
        ins,
        processors,
        &mut work.boards,
        &mut work.rows,
        &mut work.space,
    );
}

/// Mixes what these ends bring into `outs`. `sums` and `room` have room for as many samples as come in.
fn mix_out(
    ends: &[End],
    ins: &[i32],
    rows: &[Vec<i32>],
    sums: &mut [i64],
    room: &mut [i32],
    outs: &mut [i32],
)
    requires few { length ends.now ≤ 256 }
    requires sources { All (IsSource (length rows.now)) ends.now }
    requires rows { HaveRoom (length ins.now) (rows_of rows.now) }
    requires sums { length ins.now ≤ length sums.old }
    requires room { length ins.now ≤ length room.old }
    requires outs { length outs.old ≡ length ins.now }
    ensures { outs.new ≡ mixed (length ins.now) (sources_of ins.now (rows_of rows.now) (length ins.now) ends.now) }
{
    let size = ins.len();
    outs.copy_from_slice(mix(ends, ins, rows, &mut sums[..size], &mut room[..size]));
}

/// Puts out what reaches the output.
fn put_out<P: Processor + Drop>(
    parts: &Parts<P>,
    work: &mut Work,
    n: usize,
    ins: &[i32],
    outs: &mut [i32],
)
    requires ready { IsReadyFor P.class_of P.code P.values P.phase P.last_setup parts.now work.old 0 }
    requires most { n ≤ work.old.max }
    requires ins { length ins.now ≡ parts.now.session.channels * n }
    requires outs { length outs.old ≡ parts.now.session.channels * n }
    ensures ready { (room : ℕ) → IsReadyFor P.class_of P.code P.values P.phase P.last_setup parts.now work.old room → IsReadyFor P.class_of P.code P.values P.phase P.last_setup parts.now work.new room }
    ensures out { (at : ℕ) (input : List Frame) → AreInput (scene_by P.class_of P.code parts.now) input at n ins.now
        → (place : ℕ) → place < n → frame_at parts.now.session.channels n outs.new place
        ≡ out_of (scene_by P.class_of P.code parts.now) (input_at (scene_by P.class_of P.code parts.now) input (at + place)) (frames_at parts.now.session.channels n (rows_of work.old.rows.items) place) }
    ensures kept { kept_in P.code P.state P.calls parts.now work.new ≡ kept_in P.code P.state P.calls parts.now work.old }
    ensures boards { work.new.boards.items ≡ work.old.boards.items }
    ensures long { length outs.new ≡ length outs.old }
{
    mix_out(
        &work.ends,
        ins,
        &work.rows,
        &mut work.space.sums,
        &mut work.space.main,
        outs,
    );
}

/// Writes what is seen of all parameters.
pub(crate) fn show<P: Processor + Drop>(parts: &Parts<P>, work: &mut Work)
    requires ready { IsReadyFor P.class_of P.code P.values P.phase P.last_setup parts.now work.old 0 }
    ensures ready { (room : ℕ) → IsReadyFor P.class_of P.code P.values P.phase P.last_setup parts.now work.old room → IsReadyFor P.class_of P.code P.values P.phase P.last_setup parts.now work.new room }
    ensures values { (s : ℕ) → AreCurrent parts.now.session.lanes.items s (boards_of work.old.boards.items)
        → work.new.values.items ≡ of_all (scene_by P.class_of P.code parts.now) (seen_at (scene_by P.class_of P.code parts.now) (standing_in (kept_in P.code P.state P.calls parts.now work.old)).states
        (values_in (scene_by P.class_of P.code parts.now) (standing_in (kept_in P.code P.state P.calls parts.now work.old)) s)) }
    ensures standing { standing_in (kept_in P.code P.state P.calls parts.now work.new) ≡ standing_in (kept_in P.code P.state P.calls parts.now work.old) }
    ensures at { work.new.pos ≡ work.old.pos }
    ensures max { work.new.max ≡ work.old.max }
    ensures flushed { work.new.flushed ≡ work.old.flushed }
    ensures room { (kept_in P.code P.state P.calls parts.now work.new).room ≡ (kept_in P.code P.state P.calls parts.now work.old).room }
{
    see(&parts.processors, &work.boards, &mut work.values);
}

/// Renders a block.
pub(crate) fn render<P: Processor + Drop>(
    parts: &mut Parts<P>,
    work: &mut Work,
    n: usize,
    entries: &[Entry],
    ins: &[i32],
    outs: &mut [i32],
)
    requires engine { IsEngine P.class_of P.code P.values P.phase P.last_setup parts.old work.old }
    requires some { 1 ≤ n }
    requires most { n ≤ work.old.max }
    requires within { work.old.pos + n ≤ parts.old.session.length }
    requires entries { MayCarry (scene_by P.class_of P.code parts.old) work.old.pos (work.old.pos + n) (kept_in P.code P.state P.calls parts.old work.old).room entries.now }
    requires ins { length ins.now ≡ parts.old.session.channels * n }
    requires outs { length outs.old ≡ parts.old.session.channels * n }
    requires going { work.old.flushed ≡ false }
    ensures engine { IsEngine P.class_of P.code P.values P.phase P.last_setup parts.new work.new }
    ensures out { (input : List Frame) (h : List Stored) → Stands P.class_of (kept_in P.code P.state P.calls parts.old work.old) input h → AreInput (scene_by P.class_of P.code parts.old) input work.old.pos n ins.now
        → AreOut (scene_by P.class_of P.code parts.old) input (h ++ entries.now) work.old.pos n outs.new }
    ensures stands { (input : List Frame) (h : List Stored) → Stands P.class_of (kept_in P.code P.state P.calls parts.old work.old) input h → AreInput (scene_by P.class_of P.code parts.old) input work.old.pos n ins.now
        → Stands P.class_of (kept_in P.code P.state P.calls parts.new work.new) input (h ++ entries.now) }
    ensures values { (input : List Frame) (h : List Stored) → Stands P.class_of (kept_in P.code P.state P.calls parts.old work.old) input h → AreInput (scene_by P.class_of P.code parts.old) input work.old.pos n ins.now
        → work.new.values.items ≡ seen_before (scene_by P.class_of P.code parts.old) input (h ++ entries.now) (work.old.pos + n) }
    ensures calls { (kept_in P.code P.state P.calls parts.new work.new).calls ≡ map raised (kept_in P.code P.state P.calls parts.old work.old).calls }
    ensures at { work.new.pos ≡ work.old.pos + n }
    ensures room { (kept_in P.code P.state P.calls parts.new work.new).room + length (stops entries.now) ≡ (kept_in P.code P.state P.calls parts.old work.old).room }
    ensures same { IsSameEngine (kept_in P.code P.state P.calls parts.old work.old) (kept_in P.code P.state P.calls parts.new work.new) }
    ensures flushed { work.new.flushed ≡ false }
    ensures long { length outs.new ≡ length outs.old }
{
    let head = head_of(entries, work.pos);
    begin(parts, work, &entries[..head]);
    run(parts, work, n, &entries[head..], ins);
    put_out(parts, work, n, ins, outs);
    show(parts, work);
    work.pos += n as u32;
}
