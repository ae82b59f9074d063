//! The entries so far, and what the rules ask of them.

ghost use Rattle.std.specs.Prelude.{◌≡◌, ◌≤◌, ◌<◌, ◌++◌, ◌∷◌, [], not, length, IfOk, OnOk};
ghost use Rattle.vh_text.specs.Chains.{fault_if};
ghost use Rattle.vh_journal_text.specs.declared.fault.JournalKind.TheVariants.{NotOpen, AlreadyOpen};
ghost use Rattle.vh_params.specs.Nodes.{nodes_of};
ghost use Rattle.vh_journal_text.specs.Items.{item_of};
ghost use Rattle.vh_journal_text.specs.Rules.{last_sample, in_place, the_node, on_writable, in_turn, in_gesture, is_open, item_after};
ghost use Rattle.vh_journal_text.specs.Standing.{StandsFor, IsKept};
ghost use Rattle.vh_journal_text.specs.Steps.{KeepsTurns};
ghost use Rattle.vh_journal_text.specs.View.{act_told, line_told, item_answer, so_far};

use crate::fault::JournalKind;
use crate::line::{Act, Line};
use std::alloc::{AllocError, Global};
use std::collections::HashSet;
use vh_journal::Entry;
use vh_params::{Command, NodeTable};

/// The most entries of a journal.
const MOST_ENTRIES: usize = 4096;

/// An editor's gesture on a parameter.
#[derive(Clone, Copy, PartialEq, Eq, Hash)]
pub(crate) struct Gesture {
    pub(crate) editor: u32,
    pub(crate) node: u32,
    pub(crate) id: u32,
}

/// The entries so far, how many of them are each editor's, and the gestures that are open.
#[derive(Drop)]
pub(crate) struct Standing {
    pub(crate) entries: Vec<Entry>,
    pub(crate) counts: [u32; 8],
    pub(crate) open: HashSet<Gesture>,
}

/// Whether an act may be done to a parameter: the node has it, and it can be set.
fn check_parameter(nodes: &NodeTable, node: u32, act: &Act) -> Result<(), JournalKind>
    ensures { result ≡ on_writable (nodes_of nodes.now) node (act_told act.now) }
{
    let id = match *act {
        Act::Begin { id } => id,
        Act::Perform { id, value: _ } => id,
        Act::End { id } => id,
        Act::Tell { words: _ } => return Ok(()),
    };
    let Some(param) = nodes.info(node, id) else {
        return Err(JournalKind::UnknownParam);
    };
    if param.is_read_only() {
        return Err(JournalKind::ReadOnlyParam);
    }
    Ok(())
}

/// The number of the node of a name.
fn the_node(nodes: &NodeTable, name: &[u8]) -> Result<u32, JournalKind>
    ensures value { result ≡ the_node (nodes_of nodes.now) name.now }
    ensures within { IfOk result (λ node. node < length (nodes_of nodes.now)) }
{
    match nodes.node(name) {
        Some(node) => Ok(node),
        None => Err(JournalKind::UnknownNode),
    }
}

/// Keeps the gesture that a command of an editor begins, and gives up the one that it ends.
fn keep_gestures(
    open: &mut HashSet<Gesture>,
    editor: u32,
    command: &Command,
) -> Result<(), AllocError>
    ensures { OnOk result (IsKept open.old open.new editor command.now) }
{
    match *command {
        Command::Begin { node, id } => {
            open.insert(Gesture { editor, node, id })?;
            Ok(())
        }
        Command::End { node, id } => {
            open.remove(&Gesture { editor, node, id });
            Ok(())
        }
        Command::Perform { .. } => Ok(()),
        Command::Tell { .. } => Ok(()),
    }
}

impl Standing {
    /// No entries.
    pub(crate) fn new(alloc: Global) -> Standing
        ensures none { so_far result ≡ [] }
        ensures stands { StandsFor result }
    {
        Standing {
            entries: Vec::new(alloc),
            counts: [0; 8],
            open: HashSet::new(alloc),
        }
    }

    /// The sample of the last entry, 0 before the first.
    fn last_sample(&self) -> u32
        ensures { result ≡ last_sample (so_far self.now) }
    {
        match self.entries.last() {
            Some(entry) => entry.sample,
            None => 0,
        }
    }

    /// Whether an entry may stand at a sample.
    fn check_place(&self, frames: u32, sample: u32) -> Result<(), JournalKind>
        ensures { result ≡ in_place frames (so_far self.now) sample }
    {
        if self.entries.len() >= MOST_ENTRIES {
            return Err(JournalKind::TooMany);
        }
        if sample > frames {
            return Err(JournalKind::SampleOver);
        }
        if sample < self.last_sample() {
            return Err(JournalKind::SampleFalls);
        }
        Ok(())
    }

    /// Whether an editor's next entry has this number.
    fn check_turn(&self, editor: u32, seq: u32) -> Result<(), JournalKind>
        requires editor { editor < 8 }
        requires stands { StandsFor self.now }
        ensures { result ≡ in_turn (so_far self.now) editor seq }
    {
        let expected = self.counts[editor as usize];
        if seq != expected {
            return Err(JournalKind::SeqWrong(expected));
        }
        Ok(())
    }

    /// Whether a gesture of an editor is open on a parameter.
    fn is_open(&self, editor: u32, node: u32, id: u32) -> bool
        requires { StandsFor self.now }
        ensures { result ≡ is_open (so_far self.now) editor node id }
    {
        self.open.contains(&Gesture { editor, node, id })
    }

    /// Whether an editor may begin a gesture.
    fn check_begin(&self, editor: u32, node: u32, id: u32) -> Result<(), JournalKind>
        requires { StandsFor self.now }
        ensures { result ≡ fault_if (is_open (so_far self.now) editor node id) AlreadyOpen (Ok tt) }
    {
        if self.is_open(editor, node, id) {
            return Err(JournalKind::AlreadyOpen);
        }
        Ok(())
    }

    /// Whether an editor is in a gesture.
    fn check_within(&self, editor: u32, node: u32, id: u32) -> Result<(), JournalKind>
        requires { StandsFor self.now }
        ensures { result ≡ fault_if (not (is_open (so_far self.now) editor node id)) NotOpen (Ok tt) }
    {
        if self.is_open(editor, node, id) {
            return Ok(());
        }
        Err(JournalKind::NotOpen)
    }

    /// Whether an act of an editor fits its gestures.
    fn check_gesture(&self, editor: u32, node: u32, act: &Act) -> Result<(), JournalKind>
        requires { StandsFor self.now }
        ensures { result ≡ in_gesture (so_far self.now) editor node (act_told act.now) }
    {
        match *act {
            Act::Begin { id } => self.check_begin(editor, node, id),
            Act::Perform { id, value: _ } => self.check_within(editor, node, id),
            Act::End { id } => self.check_within(editor, node, id),
            Act::Tell { words: _ } => Ok(()),
        }
    }

    /// The entry of a line behind these entries, or the first rule that it breaks.
    pub(crate) fn judge(
        &self,
        nodes: &NodeTable,
        frames: u32,
        line: &Line<'_>,
    ) -> Result<Entry, JournalKind>
        requires editor { line.now.editor < 8 }
        requires stands { StandsFor self.now }
        ensures says { item_answer result ≡ item_after (nodes_of nodes.now) frames (so_far self.now) (line_told line.now) }
        ensures few { OnOk result (length self.now.entries.items < 4096) }
        ensures editor { IfOk result (λ entry. entry.editor < 8) }
        ensures turns { IfOk result (λ entry. KeepsTurns (so_far self.now) entry.editor (item_of entry).node (item_of entry).act) }
    {
        self.check_place(frames, line.sample)?;
        let node = the_node(nodes, line.name)?;
        check_parameter(nodes, node, &line.act)?;
        self.check_turn(line.editor, line.seq)?;
        self.check_gesture(line.editor, node, &line.act)?;
        Ok(Entry {
            sample: line.sample,
            editor: line.editor,
            seq: line.seq,
            command: line.act.at(node),
        })
    }

    /// Adds an entry.
    pub(crate) fn add(&mut self, entry: Entry) -> Result<(), AllocError>
        requires few { length self.old.entries.items < 4096 }
        requires editor { entry.editor < 8 }
        requires turns { KeepsTurns (so_far self.old) entry.editor (item_of entry).node (item_of entry).act }
        requires stands { StandsFor self.old }
        ensures added { OnOk result (so_far self.new ≡ so_far self.old ++ item_of entry ∷ []) }
        ensures stands { OnOk result (StandsFor self.new) }
    {
        keep_gestures(&mut self.open, entry.editor, &entry.command)?;
        self.counts[entry.editor as usize] += 1;
        self.entries.push(entry)?;
        Ok(())
    }
}
