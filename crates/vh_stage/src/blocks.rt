//! All blocks.
//!
//! The call of a law does nothing: the proof uses what it ensures.

ghost use Rattle.std.specs.Prelude.{◌≡◌, ◌≢◌, ◌≤◌, ◌+◌, ℕ, List, [], length, map, All, OnOk, OnErr};
ghost use Rattle.vh_files.specs.Causes.{Rose};
ghost use Rattle.vh_num.specs.Frames.{Frame};
ghost use Rattle.vh_plugin.specs.Counts.{raised};
ghost use Rattle.vh_cut.specs.Cut.{IsPattern, pieces_of};
ghost use Rattle.vh_journal.specs.declared.entry.Entry.{Entry as Stored};
ghost use Rattle.vh_legal.specs.Blocks.{IsAtBlock};
ghost use Rattle.vh_engine.specs.Kept.{scene_in, IsSameEngine};
ghost use Rattle.vh_render.specs.Playing.{called};
ghost use Rattle.vh_stage.specs.Carried.{AreOn};
ghost use Rattle.vh_stage.specs.Playing.{IsRead, IsHeard, IsFront, IsUpTo};
ghost use Rattle.vh_stage.specs.Staged.{IsReady, IsTold, IsSameStage, AreAtBlocks};

use crate::block::play_block;
use crate::buffers::Buffers;
use crate::source::Source;
use crate::stage::{Stage, fresh};
use crate::stopped::Stopped;
use vh_cut::laws::pieces_lie_end_to_end;
use vh_cut::{Piece, pieces};
use vh_plugin::Processor;
use vh_wav::Frames;

impl<P: Processor + Drop> Stage<P> {
    /// Takes the entries of block number `number`, plays them, and tells what changed.
    pub(crate) fn block<S: Source, I: Frames>(
        &mut self,
        number: u32,
        piece: Piece,
        source: &mut S,
        frames: &mut I,
    ) -> Result<(), Stopped>
        requires ready { IsReady P.class_of self.old }
        requires start { piece.start ≡ self.old.engine.at }
        requires some { 1 ≤ piece.length }
        requires most { piece.length ≤ self.old.engine.max }
        requires within { piece.start + piece.length ≤ self.old.engine.session.length }
        requires gave { S.gave source.old self.old.journal.items }
        requires channels { I.channels frames.old ≡ self.old.engine.session.channels }
        requires max { piece.length ≤ I.max frames.old }
        requires whole { I.cut frames.old ≡ [] }
        requires space { I.pushed frames.old + piece.length ≤ I.room frames.old }
        ensures heard { (input before : List Frame) → IsHeard I.reads I.wrote P.class_of self.old.engine frames.old input before self.old.journal.items
            → OnOk result (IsHeard I.reads I.wrote P.class_of self.new.engine frames.new input before self.new.journal.items) }
        ensures front { (input before : List Frame) → IsHeard I.reads I.wrote P.class_of self.old.engine frames.old input before self.old.journal.items
            → OnErr result (IsFront I.wrote (scene_in P.class_of self.old.engine) frames.new (I.cut frames.new) input before self.new.journal.items self.old.engine.session.length) }
        ensures stands { (input : List Frame) → IsRead I.reads P.class_of self.old.engine frames.old input self.old.journal.items
            → OnOk result (IsRead I.reads P.class_of self.new.engine frames.new input self.new.journal.items) }
        ensures ready { OnOk result (IsReady P.class_of self.new) }
        ensures at { OnOk result (self.new.engine.at ≡ piece.start + piece.length) }
        ensures calls { OnOk result (self.new.engine.calls ≡ map raised self.old.engine.calls) }
        ensures told { (firsts : List ℕ) → IsTold self.old firsts → OnOk result (IsTold self.new firsts) }
        ensures same { IsSameEngine self.old.engine self.new.engine }
        ensures same_stage { IsSameStage self.old self.new }
        ensures gave { S.gave source.new self.new.journal.items }
        ensures rest_gave { S.rest source.new ≡ S.rest source.old }
        ensures blocks { (pattern : List ℕ) → IsAtBlock self.old.engine.session.length pattern piece.start → AreAtBlocks self.old.engine.session.length pattern self.old.journal.items
            → AreAtBlocks self.old.engine.session.length pattern self.new.journal.items }
        ensures up_to { IsUpTo self.old.engine.session.length self.new.journal.items }
        ensures pushed { OnOk result (I.pushed frames.new ≡ I.pushed frames.old + piece.length) }
        ensures uncut { OnOk result (I.cut frames.new ≡ []) }
        ensures cut { result ≡ Err Stopped.WriteFailed → I.cut frames.new ≢ [] }
        ensures read { result ≡ Err Stopped.ReadFailed → Rose (I.pull_faults frames.old) (I.pull_faults frames.new) }
        ensures write { result ≡ Err Stopped.WriteFailed → Rose (I.push_faults frames.old) (I.push_faults frames.new) }
        ensures reads_later { I.pull_faults frames.old ≤ I.pull_faults frames.new }
        ensures writes_later { I.push_faults frames.old ≤ I.push_faults frames.new }
        ensures channels { I.channels frames.new ≡ I.channels frames.old }
        ensures space { I.room frames.new ≡ I.room frames.old }
        ensures max { I.max frames.new ≡ I.max frames.old }
        ensures rest { I.rest frames.new ≡ I.rest frames.old }
        ensures unfit { result ≡ Err Stopped.Unfit → ¬ AreOn self.new.engine.session.nodes self.new.journal.items }
    {
        let Piece { start, length } = piece;
        source.take(number, start, &mut self.journal);
        let n = length as usize;
        let entries = fresh(&self.journal, self.played);
        let Buffers { ins, outs } = &mut self.buffers;
        match play_block(&mut self.engine, entries, n, frames, ins, outs) {
            Ok(()) => {}
            Err(stopped) => return Err(stopped),
        }
        self.played = self.journal.len();
        let values = self.engine.values();
        let replies = self.engine.replies();
        let after = start.saturating_add(length);
        self.echoes.offer(values, replies, after, false);
        Ok(())
    }
}

/// Plays all blocks of a rendering, whose sizes take turns: before each the entries that came are taken from a source
/// into the journal, at the block's first sample. What was added to the frames is then the rendering over the journal.
/// It stops where frames can't be read or added, or where an entry came that is on no parameter that can be set: what
/// was added, and what failed to be, is a front part of the rendering. Nothing here takes memory.
pub fn play<P: Processor + Drop, S: Source, I: Frames>(
    stage: &mut Stage<P>,
    pattern: &[u32],
    source: &mut S,
    frames: &mut I,
) -> Result<(), Stopped>
    requires ready { IsReady P.class_of stage.old }
    requires begins { stage.old.engine.at ≡ 0 }
    requires none { stage.old.journal.items ≡ [] }
    requires pattern { IsPattern pattern.now }
    requires sizes { All (λ size. size ≤ stage.old.engine.max) pattern.now }
    requires gave { S.gave source.old [] }
    requires channels { I.channels frames.old ≡ stage.old.engine.session.channels }
    requires max { All (λ size. size ≤ I.max frames.old) pattern.now }
    requires whole { I.cut frames.old ≡ [] }
    requires space { I.pushed frames.old + stage.old.engine.session.length ≤ I.room frames.old }
    ensures heard { (input before : List Frame) → IsHeard I.reads I.wrote P.class_of stage.old.engine frames.old input before []
        → OnOk result (IsHeard I.reads I.wrote P.class_of stage.new.engine frames.new input before stage.new.journal.items) }
    ensures front { (input before : List Frame) → IsHeard I.reads I.wrote P.class_of stage.old.engine frames.old input before []
        → OnErr result (IsFront I.wrote (scene_in P.class_of stage.old.engine) frames.new (I.cut frames.new) input before stage.new.journal.items stage.old.engine.session.length) }
    ensures stands { (input : List Frame) → IsRead I.reads P.class_of stage.old.engine frames.old input []
        → OnOk result (IsRead I.reads P.class_of stage.new.engine frames.new input stage.new.journal.items) }
    ensures ready { OnOk result (IsReady P.class_of stage.new) }
    ensures at { OnOk result (stage.new.engine.at ≡ stage.old.engine.session.length) }
    ensures calls { OnOk result (stage.new.engine.calls ≡ map (called (length (pieces_of stage.old.engine.session.length pattern.now []))) stage.old.engine.calls) }
    ensures told { (firsts : List ℕ) → IsTold stage.old firsts → OnOk result (IsTold stage.new firsts) }
    ensures same { IsSameEngine stage.old.engine stage.new.engine }
    ensures same_stage { IsSameStage stage.old stage.new }
    ensures gave { S.gave source.new stage.new.journal.items }
    ensures rest_gave { S.rest source.new ≡ S.rest source.old }
    ensures blocks { AreAtBlocks stage.old.engine.session.length pattern.now stage.new.journal.items }
    ensures up_to { IsUpTo stage.old.engine.session.length stage.new.journal.items }
    ensures uncut { OnOk result (I.cut frames.new ≡ []) }
    ensures cut { result ≡ Err Stopped.WriteFailed → I.cut frames.new ≢ [] }
    ensures read { result ≡ Err Stopped.ReadFailed → Rose (I.pull_faults frames.old) (I.pull_faults frames.new) }
    ensures write { result ≡ Err Stopped.WriteFailed → Rose (I.push_faults frames.old) (I.push_faults frames.new) }
    ensures reads_later { I.pull_faults frames.old ≤ I.pull_faults frames.new }
    ensures writes_later { I.push_faults frames.old ≤ I.push_faults frames.new }
    ensures channels { I.channels frames.new ≡ I.channels frames.old }
    ensures space { I.room frames.new ≡ I.room frames.old }
    ensures max { I.max frames.new ≡ I.max frames.old }
    ensures rest { I.rest frames.new ≡ I.rest frames.old }
    ensures unfit { result ≡ Err Stopped.Unfit → ¬ AreOn stage.new.engine.session.nodes stage.new.journal.items }
{
    pieces_lie_end_to_end();
    let samples = stage.engine.session().length;
    let mut number: u32 = 0;
    for piece in pieces(samples, pattern, &[]) {
        match stage.block(number, piece, source, frames) {
            Ok(()) => number = number.saturating_add(1),
            Err(stopped) => return Err(stopped),
        }
    }
    Ok(())
}
