//! Reading a journal, line by line.

ghost use Rattle.std.specs.Prelude.{◌≡◌, ◌<◌, ◌^◌, All, IfOk, OnOk, length};
ghost use Rattle.vh_params.specs.Nodes.{nodes_of};
ghost use Rattle.vh_text.specs.Left.{left};
ghost use Rattle.vh_text.specs.Tokens.{texts};
ghost use Rattle.vh_num.specs.declared.refusal.Refusal.TheVariants.{Fault};
ghost use Rattle.vh_journal_text.specs.Items.{items_in};
ghost use Rattle.vh_journal_text.specs.Keeps.{AreEntries, AreThere};
ghost use Rattle.vh_journal_text.specs.Reading.{fault, step_after, items_from, are_header, is_header, journal_of};
ghost use Rattle.vh_journal_text.specs.Standing.{StandsFor};
ghost use Rattle.vh_journal_text.specs.Steps.{IsRead, IsLineRead, AreLinesRead};
ghost use Rattle.vh_journal_text.specs.View.{so_far};

use crate::fault::{JournalFault, JournalKind};
use crate::line::{Said, said_by};
use crate::standing::Standing;
use std::alloc::{AllocError, Global};
use vh_journal::Journal;
use vh_num::Refusal;
use vh_params::NodeTable;
use vh_text::{Lines, words};

/// The most bytes of a journal's text.
pub const JOURNAL_LIMIT: u64 = 1_048_576;

/// A fault of a line.
fn fault(line: u32, kind: JournalKind) -> Refusal<JournalFault>
    ensures { result ≡ Fault (fault line kind) }
{
    Refusal::Fault(JournalFault { line, kind })
}

/// Whether these are the words of a journal's first line.
fn are_header(words: &[&[u8]]) -> bool
    ensures { result ≡ are_header (texts words.now) }
{
    if words.len() != 3 {
        return false;
    }
    if words[0] != b"vsthost".as_slice() {
        return false;
    }
    if words[1] != b"journal".as_slice() {
        return false;
    }
    words[2] == b"1".as_slice()
}

/// Whether this is the first line of a journal.
fn is_header(alloc: Global, text: &[u8]) -> Result<bool, AllocError>
    requires { length text.now < 2 ^ 32 }
    ensures { IfOk result (λ header. header ≡ is_header text.now) }
{
    match words(alloc, text) {
        Ok(words) => Ok(are_header(&words)),
        Err(Refusal::Fault(_)) => Ok(false),
        Err(Refusal::Memory) => Err(AllocError),
    }
}

impl Standing {
    /// Adds the entry of a line behind these, and answers whether it closes the journal instead.
    fn read_line(
        &mut self,
        alloc: Global,
        nodes: &NodeTable,
        frames: u32,
        text: &[u8],
    ) -> Result<bool, Refusal<JournalKind>>
        requires short { length text.now < 2 ^ 32 }
        requires stands { StandsFor self.old }
        ensures read { IsLineRead (step_after (nodes_of nodes.now) frames (so_far self.old) text.now) (so_far self.old) (so_far self.new) result }
        ensures stands { OnOk result (StandsFor self.new) }
    {
        let words = match words(alloc, text) {
            Ok(words) => words,
            Err(Refusal::Fault(_)) => return Err(Refusal::Fault(JournalKind::BadLine)),
            Err(Refusal::Memory) => return Err(Refusal::Memory),
        };
        let line = match said_by(&words) {
            Ok(Said::Close) => return Ok(true),
            Ok(Said::Entered(line)) => line,
            Err(kind) => return Err(Refusal::Fault(kind)),
        };
        match self.judge(nodes, frames, &line) {
            Ok(entry) => match self.add(entry) {
                Ok(()) => Ok(false),
                Err(AllocError) => Err(Refusal::Memory),
            },
            Err(kind) => Err(Refusal::Fault(kind)),
        }
    }
}

/// Reads the lines behind the first, of which the last closes the journal.
fn read_lines(
    standing: &mut Standing,
    alloc: Global,
    nodes: &NodeTable,
    frames: u32,
    lines: Lines<'_>,
) -> Result<(), Refusal<JournalFault>>
    requires count { length (left lines) < 2 ^ 31 }
    requires short { All (λ text. length text < 2 ^ 32) (left lines) }
    requires stands { StandsFor standing.old }
    ensures { AreLinesRead (items_from (nodes_of nodes.now) frames 2 (so_far standing.old) (left lines.entry)) (so_far standing.new) result }
{
    let mut line = 1;
    let mut closed = false;
    for text in lines {
        line += 1;
        if closed {
            return Err(fault(line, JournalKind::BadLine));
        }
        closed = match standing.read_line(alloc, nodes, frames, text) {
            Ok(closed) => closed,
            Err(Refusal::Fault(kind)) => return Err(fault(line, kind)),
            Err(Refusal::Memory) => return Err(Refusal::Memory),
        };
    }
    if closed {
        Ok(())
    } else {
        Err(fault(line + 1, JournalKind::NoClose))
    }
}

/// Reads a journal of a session with these nodes and this length in frames.
///
/// Refused for the first fault: too long a text, a first line that isn't a journal's, the first line that has a fault,
/// and last where no line is `close`. Of several faults of a line the first in the order of [`JournalKind`] counts.
pub fn read(
    alloc: Global,
    bytes: &[u8],
    nodes: &NodeTable,
    length: u32,
) -> Result<Journal, Refusal<JournalFault>>
    ensures says { IsRead (journal_of (nodes_of nodes.now) length bytes.now) result }
    ensures journal { IfOk result (λ journal. AreEntries (nodes_of nodes.now) length (items_in journal)) }
    ensures there { IfOk result (λ journal. AreThere (nodes_of nodes.now) journal.entries.items) }
{
    if bytes.len() as u64 > JOURNAL_LIMIT {
        return Err(fault(0, JournalKind::TooLong));
    }
    let mut lines = Lines::new(bytes);
    let Some(first) = lines.next() else {
        return Err(fault(1, JournalKind::BadHeader));
    };
    match is_header(alloc, first) {
        Ok(true) => {}
        Ok(false) => return Err(fault(1, JournalKind::BadHeader)),
        Err(AllocError) => return Err(Refusal::Memory),
    }
    let mut standing = Standing::new(alloc);
    read_lines(&mut standing, alloc, nodes, length, lines)?;
    let Standing {
        entries,
        counts: _,
        open: _,
    } = standing;
    Ok(Journal { entries })
}
