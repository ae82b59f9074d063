//! What was played is written and said.
//!
//! The calls of laws do nothing: the proofs use what they ensure.

ghost use Rattle.std.specs.Prelude.{◌≡◌, ◌≤◌, ℕ, List, [], ◌∷◌};
ghost use Rattle.vh_num.specs.Frames.{Frame};
ghost use Rattle.vh_params.specs.Nodes.{nodes_of};
ghost use Rattle.vh_session.specs.declared.session.Session.{Session as Played};
ghost use Rattle.vh_session.specs.Content.{Content};
ghost use Rattle.vh_session.specs.Names.{content_of};
ghost use Rattle.vh_meaning.specs.Scene.{Scene};
ghost use Rattle.vh_instance.specs.Band.{of_openers};
ghost use Rattle.vh_answers.specs.Outside.{outside, ChangesOnly, KeepsCounts};
ghost use Rattle.vh_answers.specs.Steps.{EndsUnsaid};
ghost use Rattle.vh_host.specs.Input.{Heard};
ghost use Rattle.vh_host.specs.Named.{status_of};
ghost use Rattle.vh_live_host.specs.Played.{in_blocks};
ghost use Rattle.vh_live_host.specs.Commands.{done_steps, calls_of};
ghost use Rattle.vh_live_host.specs.Named.{live_of};
ghost use Rattle.vh_live_host.specs.Results.{AreOf, HaveParams};

use crate::publish::publish;
use crate::results::Results;
use crate::wave::Wave;
use crate::words::Live;
use std::alloc::Global;
use vh_answers::Status;
use vh_counted::Opened;
use vh_files::{Files, Say};
use vh_journal::Entry;
use vh_legal::laws::legal_is_cut_as_played;
use vh_legal_text::laws::legal_reads_back;
use vh_params::Reply;
use vh_plugin::Controller;
use vh_session::Session;
use vh_wav::ListFrames;

/// What was played: a session whose editors made these entries, and what it came to.
#[derive(Drop)]
pub(crate) struct Done<'a, C> {
    pub(crate) session: &'a Session,
    /// The controllers' openers.
    pub(crate) edits: &'a [Opened<C>],
    pub(crate) entries: &'a [Entry],
    /// Of each editor how many words were refused.
    pub(crate) refused: &'a [u32],
    pub(crate) replies: &'a [Reply],
    /// The frames were added there.
    pub(crate) frames: &'a ListFrames,
    /// Frames a second.
    pub(crate) rate: u32,
}

/// Writes the frames and the journal, and says the report. All memory is taken before the first file is created.
pub(crate) fn finish<F: Files, Y: Say, C: Controller + Drop>(
    alloc: Global,
    live: &Live<'_>,
    done: &Done<'_, C>,
    files: &mut F,
    say: &mut Y,
) -> Result<(), Status>
    requires params { HaveParams C.class_of C.code done.now.edits.now (nodes_of done.now.session.now.nodes) }
    requires rate { done.now.rate ≤ 768000 }
    requires played { (session : Played) × (scene : Scene) × (input : List Frame) × AreOf C.values session scene input done.now }
    ensures ends { (session : Played) (scene : Scene) (heard : Heard) (content : Content) → AreOf C.values session scene heard.frames done.now
        → heard.rate ≡ done.now.rate → content_of session ≡ in_blocks live.now.block content
        → EndsUnsaid (λ calls. calls ≡ calls_of (live_of live.now) content done.now.entries.now) (outside F.Files Y.Say files.old files.new say.old say.new)
        (done_steps scene (of_openers C.mode done.now.edits.now) (live_of live.now) content heard (record { session = session; journal = done.now.entries.now })) (status_of result) }
    ensures others { ChangesOnly (live.now.output.now ∷ live.now.journal.now ∷ []) (F.held files.old) (F.held files.new) }
    ensures counts { KeepsCounts (outside F.Files Y.Say files.old files.new say.old say.new) }
{
    legal_is_cut_as_played();
    legal_reads_back();
    let session = done.session;
    let Ok(mut results) = Results::new(alloc, done) else {
        return Err(Status::Memory);
    };
    let wave = Wave {
        channels: session.channels,
        rate: done.rate,
        bits: session.bits,
        frames: session.length,
        samples: done.frames.pushed(),
        sizes: session.block_sizes(),
    };
    publish(live, session, &wave, done.replies, &mut results, files, say)
}
