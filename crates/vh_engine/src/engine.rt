//! The engine.
//!
//! A call of `laws` does nothing: the proof uses what it ensures.

ghost use Rattle.std.specs.Prelude.{◌≡◌, ◌<◌, ◌≤◌, ◌+◌, ◌*◌, ◌^◌, ◌++◌, ℕ, true, false, List, [], length, map, All, IfOk, IfErr};
ghost use Rattle.vh_num.specs.Frames.{Frame};
ghost use Rattle.vh_plugin.specs.Counts.{raised};
ghost use Rattle.vh_journal.specs.declared.entry.Entry.{Entry as Stored};
ghost use Rattle.vh_session.specs.Names.{content_of};
ghost use Rattle.vh_meaning.specs.Rendering.{seen_before, last_values, answers, stops};
ghost use Rattle.vh_engine.specs.Kept.{Kept, scene_in, Stands, MayCarry, AreInput, AreOut, IsSameEngine};
ghost use Rattle.vh_engine.specs.Parts.{AreParts, IsFresh, IsGivenBack};
ghost use Rattle.vh_engine.specs.Staged.{answer_of};

use crate::block::render;
use crate::end::finish_with;
use crate::parts::Parts;
use crate::work::Work;
use std::alloc::{AllocError, Global};
use std::marker::Model;
use vh_journal::Entry;
use vh_params::Reply;
use vh_plugin::Processor;
use vh_session::Session;

/// A rendering on its way: what it has come to before the next sample.
///
/// It keeps neither its input nor its entries; all that it says holds for every input and every list of entries
/// for which it stands.
pub struct Engine<P: Processor + Drop> {
    parts: Parts<P>,
    work: Work,
}

impl<P: Processor + Drop> Model for Engine<P> {
    ghost use Rattle.vh_engine.specs.Engine.{kept_in, IsEngine};
    ghost use Rattle.vh_engine.specs.Kept.{Kept};

    ghost Value = { Kept };

    ghost view = { λ e. kept_in P.code P.state P.calls e.parts e.work };

    ghost invariant = { λ e. IsEngine P.class_of P.code P.values P.phase P.last_setup e.parts e.work };
}

impl<P: Processor + Drop> Engine<P> {
    /// An engine before its first sample, for blocks of at most `max` frames, 1 to 8192, with room for so many
    /// replies. For want of memory it gives the parts back.
    pub fn new(
        alloc: Global,
        parts: Parts<P>,
        max: usize,
        tells: usize,
    ) -> Result<Engine<P>, Parts<P>>
        requires parts { AreParts P.class_of P.code P.state P.values P.phase P.last_setup parts max }
        requires some { 1 ≤ max }
        requires most { max ≤ 8192 }
        ensures fresh { IfOk result (IsFresh P.class_of P.code P.calls parts max tells) }
        ensures stands { (input : List Frame) → IfOk result (λ made. Stands P.class_of made input []) }
        ensures back { IfErr result (λ back. back ≡ parts) }
    {
        vh_graph::laws::order_exactly_without_cycle();
        vh_meaning::laws::stands_at_first();
        match Work::new(alloc, &parts.session, &parts.first, max, tells) {
            Ok(work) => Ok(Engine { parts, work }),
            Err(AllocError) => Err(parts),
        }
    }

    /// Renders the next block: `n` frames from samples that stand channel after channel, 2^-23 of full scale
    /// each, into as many, under these further entries. Each processor is called once.
    pub fn block(&mut self, n: usize, entries: &[Entry], ins: &[i32], outs: &mut [i32])
        requires some { 1 ≤ n }
        requires most { n ≤ self.old.max }
        requires within { self.old.at + n ≤ self.old.session.length }
        requires entries { MayCarry (scene_in P.class_of self.old) self.old.at (self.old.at + n) self.old.room entries.now }
        requires ins { length ins.now ≡ self.old.session.channels * n }
        requires outs { length outs.old ≡ self.old.session.channels * n }
        requires going { self.old.flushed ≡ false }
        ensures out { (input : List Frame) (h : List Stored) → Stands P.class_of self.old input h → AreInput (scene_in P.class_of self.old) input self.old.at n ins.now
            → AreOut (scene_in P.class_of self.old) input (h ++ entries.now) self.old.at n outs.new }
        ensures stands { (input : List Frame) (h : List Stored) → Stands P.class_of self.old input h → AreInput (scene_in P.class_of self.old) input self.old.at n ins.now
            → Stands P.class_of self.new input (h ++ entries.now) }
        ensures values { (input : List Frame) (h : List Stored) → Stands P.class_of self.old input h → AreInput (scene_in P.class_of self.old) input self.old.at n ins.now
            → self.new.values ≡ seen_before (scene_in P.class_of self.old) input (h ++ entries.now) (self.old.at + n) }
        ensures calls { self.new.calls ≡ map raised self.old.calls }
        ensures at { self.new.at ≡ self.old.at + n }
        ensures room { self.new.room + length (stops entries.now) ≡ self.old.room }
        ensures same { IsSameEngine self.old self.new }
        ensures flushed { self.new.flushed ≡ false }
        ensures long { length outs.new ≡ length outs.old }
    {
        render(&mut self.parts, &mut self.work, n, entries, ins, outs);
    }

    /// Ends the rendering at its length, under the entries there. Each processor is called once more, with no
    /// frames.
    pub fn flush(&mut self, entries: &[Entry])
        requires end { self.old.at ≡ self.old.session.length }
        requires entries { MayCarry (scene_in P.class_of self.old) self.old.at (self.old.at + 1) self.old.room entries.now }
        requires going { self.old.flushed ≡ false }
        ensures values { (input : List Frame) (h : List Stored) → Stands P.class_of self.old input h
            → self.new.values ≡ last_values (scene_in P.class_of self.old) input (h ++ entries.now) }
        ensures answers { (input : List Frame) (h : List Stored) → Stands P.class_of self.old input h
            → self.new.answers ≡ answers (scene_in P.class_of self.old) input (h ++ entries.now) }
        ensures calls { self.new.calls ≡ map raised self.old.calls }
        ensures at { self.new.at ≡ self.old.at }
        ensures same { IsSameEngine self.old self.new }
        ensures flushed { self.new.flushed ≡ true }
    {
        finish_with(&mut self.parts, &mut self.work, entries);
    }

    /// The session that it renders.
    pub fn session(&self) -> &Session
        ensures { content_of result.now ≡ self.now.session }
    {
        &self.parts.session
    }

    /// The most frames of a block.
    pub fn max(&self) -> usize
        ensures { result ≡ self.now.max }
    {
        self.work.max
    }

    /// The normalised values of all parameters, node by node and within each by rising id: the first values
    /// before any sample, then those of the last sample, and behind the flush the final ones. A read-only
    /// parameter has what its processor shows. None is above 1.0.
    pub fn values(&self) -> &[u32]
        ensures values { result.now ≡ self.now.values }
        ensures within { All (λ value. value ≤ 2 ^ 24) result.now }
    {
        &self.work.values
    }

    /// The replies so far, one for each message, in order.
    pub fn replies(&self) -> &[Reply]
        ensures { map answer_of result.now ≡ self.now.answers }
    {
        &self.work.replies
    }

    /// Gives the parts back, each processor still processing.
    pub fn finish(self) -> Parts<P>
        ensures { IsGivenBack P.code P.calls P.state P.phase self result }
    {
        let Engine { parts, work: _work } = self;
        parts
    }
}
