//! What a live rendering tells, once it was played.
//!
//! A call of a law does nothing: the proof uses what it ensures.

ghost use Rattle.std.specs.Prelude.{◌≡◌, ◌≤◌, ◌*◌, ℕ, List, IfOk, length};
ghost use Rattle.std.specs.List.{concat};
ghost use Rattle.vh_num.specs.Frames.{Frame};
ghost use Rattle.vh_params.specs.Nodes.{nodes_of};
ghost use Rattle.vh_journal_text.specs.Items.{items_of};
ghost use Rattle.vh_journal_text.specs.Text.{journal_text};
ghost use Rattle.vh_session.specs.declared.session.Session.{Session as Played};
ghost use Rattle.vh_meaning.specs.Scene.{Scene};
ghost use Rattle.vh_instance.specs.Band.{of_openers};
ghost use Rattle.vh_live_host.specs.Played.{counts_in};
ghost use Rattle.vh_live_host.specs.Results.{AreOf, HaveParams};

use crate::counts::counts;
use crate::done::Done;
use crate::values::values;
use crate::wave::piece_room;
use std::alloc::{AllocError, Global};
use vh_answers::{EditorCounts, Line};
use vh_host::modes;
use vh_journal_text::print;
use vh_legal_text::laws::legal_reads_back;
use vh_plugin::Controller;

/// All that is written and said beside the frames, and room for a piece and for a line of the report: so no memory is
/// taken once the first file is created.
#[derive(Drop)]
pub(crate) struct Results {
    /// The journal's text.
    pub(crate) journal: Vec<u8>,
    /// The controllers' values, node by node and within each by rising id.
    pub(crate) values: Vec<u32>,
    /// How each node's controller shows its values.
    pub(crate) modes: Vec<u32>,
    /// What became of the editors' words.
    pub(crate) editors: Vec<EditorCounts>,
    pub(crate) room: Vec<u8>,
    pub(crate) line: Line,
}

impl Results {
    /// The results of what was played.
    pub(crate) fn new<C: Controller + Drop>(
        alloc: Global,
        done: &Done<'_, C>,
    ) -> Result<Results, AllocError>
        requires params { HaveParams C.class_of C.code done.now.edits.now (nodes_of done.now.session.now.nodes) }
        requires played { (session : Played) × (scene : Scene) × (input : List Frame) × AreOf C.values session scene input done.now }
        ensures journal { IfOk result (λ results. results.journal.items ≡ journal_text (nodes_of done.now.session.now.nodes) (items_of done.now.entries.now)) }
        ensures values { IfOk result (λ results. results.values.items ≡ concat (of_openers C.values done.now.edits.now)) }
        ensures modes { IfOk result (λ results. results.modes.items ≡ of_openers C.mode done.now.edits.now) }
        ensures editors { IfOk result (λ results. (session : Played) (scene : Scene) (input : List Frame) → AreOf C.values session scene input done.now
            → results.editors.items ≡ counts_in (nodes_of session.nodes) (record { session = session; journal = done.now.entries.now })) }
        ensures room { IfOk result (λ results. length results.room.items ≡ 24576 * done.now.session.now.channels) }
    {
        legal_reads_back();
        Ok(Results {
            journal: print(alloc, done.entries, &done.session.nodes)?,
            values: values(alloc, done.session, done.edits)?,
            modes: modes(alloc, done.edits)?,
            editors: counts(alloc, done.entries, done.refused)?,
            room: piece_room(alloc, done.session.channels)?,
            line: Line::new(alloc)?,
        })
    }
}
