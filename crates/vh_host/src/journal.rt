//! Reading a journal.

ghost use Rattle.std.specs.Prelude.{◌≡◌, ◌≤◌, List, length, None, Some, IfOk, IfErr};
ghost use Rattle.vh_journal_text.specs.Items.{items_of};
ghost use Rattle.vh_journal_text.specs.Keeps.{AreEntries, AreThere};
ghost use Rattle.vh_meaning.specs.Rendering.{stops};
ghost use Rattle.vh_params.specs.Nodes.{nodes_of};
ghost use Rattle.vh_answers.specs.Outside.{store, OnlyReads};
ghost use Rattle.vh_answers.specs.Steps.{Gives, Halts};
ghost use Rattle.vh_host.specs.Commands.{journal_step};

use std::alloc::{AllocError, Global};
use vh_answers::{Place, Status};
use vh_files::Files;
use vh_journal::Entry;
use vh_journal_text::{JOURNAL_LIMIT, JournalFault, JournalKind, read};
use vh_num::Refusal;
use vh_params::{Command, NodeTable};
use vh_reading::read_text;

/// What refuses a journal that has too many bytes.
const TOO_LONG: Status = Status::JournalRefused(JournalFault {
    line: 0,
    kind: JournalKind::TooLong,
});

/// Reads the entries of a journal of a session of these nodes and so many frames.
pub(crate) fn read_journal<F: Files>(
    alloc: Global,
    files: &mut F,
    name: &str,
    nodes: &NodeTable,
    frames: u32,
) -> Result<Vec<Entry>, Status>
    ensures gives { IfOk result (λ entries. Gives (store F.Files files.old) (journal_step (nodes_of nodes.now) frames name.now) entries.items) }
    ensures journal { IfOk result (λ entries. AreEntries (nodes_of nodes.now) frames (items_of entries.items)) }
    ensures there { IfOk result (λ entries. AreThere (nodes_of nodes.now) entries.items) }
    ensures stop { IfErr result (Halts (store F.Files files.old) (store F.Files files.new) (journal_step (nodes_of nodes.now) frames name.now)) }
    ensures only_read { OnlyReads (store F.Files files.old) (store F.Files files.new) }
{
    let text = read_text(alloc, files, name, Place::Journal, JOURNAL_LIMIT, TOO_LONG)?;
    match read(alloc, text.as_slice(), nodes, frames) {
        Ok(journal) => Ok(journal.entries),
        Err(Refusal::Fault(fault)) => Err(Status::JournalRefused(fault)),
        Err(Refusal::Memory) => Err(Status::Memory),
    }
}

/// The samples of messages, at which pieces stop.
pub(crate) fn stops(alloc: Global, entries: &[Entry]) -> Result<Vec<u32>, AllocError>
    ensures { IfOk result (λ samples. samples.items ≡ stops entries.now) }
{
    let mut samples = Vec::new(alloc);
    for entry in entries {
        if let Command::Tell { node: _, words: _ } = entry.command {
            samples.push(entry.sample)?;
        }
    }
    Ok(samples)
}
