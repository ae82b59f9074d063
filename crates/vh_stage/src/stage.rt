//! A rendering while it is played.

ghost use Rattle.std.specs.Prelude.{◌≡◌, ◌≤◌, ◌*◌, ℕ, List, [], length, map, drop, IfOk, IfErr, vec_capacity};
ghost use Rattle.vh_num.specs.Frames.{Frame};
ghost use Rattle.vh_params.specs.Nodes.{nodes_of};
ghost use Rattle.vh_plugin.specs.Counts.{raised};
ghost use Rattle.vh_meaning.specs.Rendering.{last_values, answers};
ghost use Rattle.vh_engine.specs.Kept.{scene_in, Stands, IsSameEngine};
ghost use Rattle.vh_engine.specs.Parts.{AreParts, IsFresh, IsGivenBack};
ghost use Rattle.vh_engine.specs.Staged.{answer_of};
ghost use Rattle.vh_back.specs.Items.{replies, last_value};
ghost use Rattle.vh_back.specs.Ends.{offered, new_follower};
ghost use Rattle.vh_back.specs.Follows.{followed};
ghost use Rattle.vh_stage.specs.Parameters.{all_parameters};
ghost use Rattle.vh_stage.specs.Carried.{AreOn};
ghost use Rattle.vh_stage.specs.Staged.{IsReady, IsAtEnd, IsTold, AreReplied, IsSameStage, parameters_in, ring_in, sender_in, replies_in, taken_in};

use crate::buffers::Buffers;
use crate::echoes::Echoes;
use std::alloc::{AllocError, Global};
use vh_back::{Follower, Sender};
use vh_engine::{Engine, Parts};
use vh_journal::Entry;
use vh_params::Reply;
use vh_plugin::Processor;
use vh_session::Session;

/// A rendering while it is played: the engine, the journal of what was taken so far, and the end of a link that tells
/// of changed values and replies.
pub struct Stage<P: Processor + Drop> {
    pub engine: Engine<P>,
    pub journal: Vec<Entry>,
    /// How many entries of the journal the engine has.
    pub(crate) played: usize,
    pub(crate) buffers: Buffers,
    pub(crate) echoes: Echoes,
    pub(crate) replies: Vec<Reply>,
}

/// What a rendering leaves: the engine's parts, the journal, the replies, and the end of the link.
pub struct Finished<P> {
    pub parts: Parts<P>,
    pub journal: Vec<Entry>,
    pub replies: Vec<Reply>,
    pub sender: Sender,
}

/// All memory of a stage but the engine's.
#[derive(Drop)]
struct Kit {
    journal: Vec<Entry>,
    buffers: Buffers,
    echoes: Echoes,
    replies: Vec<Reply>,
    follower: Follower,
}

impl Kit {
    fn new(
        alloc: Global,
        session: &Session,
        first: &[u32],
        max: usize,
        edits: usize,
    ) -> Result<Kit, AllocError>
        requires most { max ≤ 8192 }
        requires firsts { length first.now ≡ length (all_parameters (nodes_of session.now.nodes)) }
        ensures journal { IfOk result (λ kit. (kit.journal.items ≡ []) × (vec_capacity kit.journal ≡ edits)) }
        ensures echoed { IfOk result (λ kit. kit.echoes.echoed.items ≡ first.now) }
        ensures parameters { IfOk result (λ kit. kit.echoes.parameters.items ≡ all_parameters (nodes_of session.now.nodes)) }
        ensures follow { IfOk result (λ kit. followed (last_value (offered kit.echoes.sender)) kit.echoes.parameters.items first.now ≡ first.now) }
        ensures follower { IfOk result (λ kit. kit.follower ≡ new_follower kit.echoes.sender.ring) }
        ensures replies { IfOk result (λ kit. (length kit.replies.items ≡ 0) × (vec_capacity kit.replies ≡ edits)) }
        ensures ins { IfOk result (λ kit. length kit.buffers.ins.items ≡ session.now.channels * max) }
        ensures outs { IfOk result (λ kit. length kit.buffers.outs.items ≡ session.now.channels * max) }
        ensures none { IfOk result (λ kit. replies (offered kit.echoes.sender) ≡ []) }
        ensures tells { IfOk result (λ kit. kit.echoes.sender.tells ≡ edits) }
    {
        let (echoes, follower) = Echoes::new(alloc, &session.nodes, first, edits)?;
        Ok(Kit {
            journal: Vec::with_capacity(alloc, edits)?,
            buffers: Buffers::new(alloc, session.channels, max)?,
            echoes,
            replies: Vec::with_capacity(alloc, edits)?,
            follower,
        })
    }
}

/// The entries behind so many.
pub(crate) fn fresh(journal: &[Entry], played: usize) -> &[Entry]
    requires { played ≤ length journal.now }
    ensures { result.now ≡ drop played journal.now }
{
    &journal[played..]
}

/// Copies replies, for which there is room.
fn copy_replies(replies: &[Reply], copy: &mut Vec<Reply>)
    requires none { length copy.old.items ≡ 0 }
    requires room { length replies.now ≤ vec_capacity copy.old }
    ensures copied { copy.new.items ≡ replies.now }
{
    for i in 0..replies.len() {
        copy.push_reserved(replies[i]);
    }
}

/// A rendering before its first block, and the end of the link that follows.
fn staged<P: Processor + Drop>(engine: Engine<P>, kit: Kit) -> (Stage<P>, Follower)
    ensures engine { result.0.engine ≡ engine }
    ensures journal { result.0.journal ≡ kit.journal }
    ensures buffers { result.0.buffers ≡ kit.buffers }
    ensures echoes { result.0.echoes ≡ kit.echoes }
    ensures replies { result.0.replies ≡ kit.replies }
    ensures played { result.0.played ≡ 0 }
    ensures follower { result.1 ≡ kit.follower }
{
    let Kit {
        journal,
        buffers,
        echoes,
        replies,
        follower,
    } = kit;
    let stage = Stage {
        engine,
        journal,
        played: 0,
        buffers,
        echoes,
        replies,
    };
    (stage, follower)
}

impl<P: Processor + Drop> Stage<P> {
    /// A rendering before its first block, of blocks of at most `max` frames, 1 to 8192, for at most so many edits and
    /// messages, with the end of the link that follows. For want of memory it gives the parts back.
    pub fn new(
        alloc: Global,
        parts: Parts<P>,
        max: usize,
        edits: usize,
    ) -> Result<(Stage<P>, Follower), Parts<P>>
        requires parts { AreParts P.class_of P.code P.state P.values P.phase P.last_setup parts max }
        requires some { 1 ≤ max }
        requires most { max ≤ 8192 }
        ensures ready { IfOk result (λ made. IsReady P.class_of made.0) }
        ensures fresh { IfOk result (λ made. IsFresh P.class_of P.code P.calls parts max edits made.0.engine) }
        ensures stands { (input : List Frame) → IfOk result (λ made. Stands P.class_of made.0.engine input []) }
        ensures journal { IfOk result (λ made. made.0.journal.items ≡ []) }
        ensures parameters { IfOk result (λ made. parameters_in made.0 ≡ all_parameters (nodes_of parts.session.nodes)) }
        ensures room { IfOk result (λ made. vec_capacity made.0.journal ≡ edits) }
        ensures told { IfOk result (λ made. IsTold made.0 parts.first.items) }
        ensures follower { IfOk result (λ made. made.1 ≡ new_follower (ring_in made.0)) }
        ensures back { IfErr result (λ back. back ≡ parts) }
    {
        let kit = match Kit::new(alloc, &parts.session, &parts.first, max, edits) {
            Ok(kit) => kit,
            Err(_) => return Err(parts),
        };
        match Engine::new(alloc, parts, max, edits) {
            Ok(engine) => Ok(staged(engine, kit)),
            Err(parts) => Err(parts),
        }
    }

    /// Ends the rendering at its length, under the entries there, which were put behind those that the engine has. The
    /// final values are told, each as an echo that is a last one, and the replies that weren't told yet.
    pub fn end(&mut self)
        requires ready { IsAtEnd P.class_of self.old }
        requires fitted { AreOn self.old.engine.session.nodes self.old.journal.items }
        ensures values { (input : List Frame) → Stands P.class_of self.old.engine input (taken_in self.old)
            → self.new.engine.values ≡ last_values (scene_in P.class_of self.old.engine) input self.old.journal.items }
        ensures answers { (input : List Frame) → Stands P.class_of self.old.engine input (taken_in self.old)
            → map answer_of (replies_in self.new) ≡ answers (scene_in P.class_of self.old.engine) input self.old.journal.items }
        ensures told { (firsts : List ℕ) → IsTold self.old firsts → IsTold self.new firsts }
        ensures replied { AreReplied self.new (replies (offered (sender_in self.new))) }
        ensures calls { self.new.engine.calls ≡ map raised self.old.engine.calls }
        ensures journal { self.new.journal.items ≡ self.old.journal.items }
        ensures same { IsSameEngine self.old.engine self.new.engine }
        ensures same_stage { IsSameStage self.old self.new }
    {
        let entries = fresh(&self.journal, self.played);
        self.engine.flush(entries);
        copy_replies(self.engine.replies(), &mut self.replies);
        let after = self.engine.session().length;
        self.echoes
            .offer(self.engine.values(), self.engine.replies(), after, true);
    }

    /// Takes the rendering apart.
    pub fn finish(self) -> Finished<P>
        ensures parts { IsGivenBack P.code P.calls P.state P.phase self.engine result.parts }
        ensures journal { result.journal ≡ self.journal }
        ensures replies { result.replies.items ≡ replies_in self }
        ensures sender { result.sender ≡ sender_in self }
    {
        let Stage {
            engine,
            journal,
            played: _,
            buffers: _buffers,
            echoes,
            replies,
        } = self;
        Finished {
            parts: engine.finish(),
            journal,
            replies,
            sender: echoes.into_sender(),
        }
    }
}
