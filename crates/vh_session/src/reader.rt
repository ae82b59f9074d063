//! Reading a session, line by line.

ghost use Rattle.std.specs.Prelude.{◌≡◌, ◌≢◌, ◌<◌, ◌+◌, ◌^◌, All, OnOk, IfOk, length};
ghost use Rattle.vh_params.specs.ClassList.{classes_of};
ghost use Rattle.vh_session.specs.Ended.{IsRead};
ghost use Rattle.vh_session.specs.Lines.{line_of};
ghost use Rattle.vh_session.specs.Reading.{is_skipped, is_header, are_header, is_complete, fault, draft_of, lines_from};
ghost use Rattle.vh_text.specs.Tokens.{texts};
ghost use Rattle.vh_session.specs.Steps.{IsLineRead, AreLinesRead, IsDraftRead};
ghost use Rattle.vh_session.specs.Sound.{IsSound};
ghost use Rattle.vh_session.specs.View.{draft_in};
ghost use Rattle.vh_text.specs.Left.{left};
ghost use Rattle.vh_num.specs.declared.refusal.Refusal.TheVariants.{Fault};

use crate::draft::Draft;
use crate::fault::{SessionFault, SessionKind};
use crate::limits::SESSION_LIMIT;
use crate::session::Session;
use std::alloc::{AllocError, Global};
use vh_num::Refusal;
use vh_params::Classes;
use vh_text::{Lines, words};

/// Whether a line has nothing but spaces, or a comment.
fn is_skipped(text: &[u8]) -> bool
    ensures { result ≡ is_skipped text.now }
{
    for &b in text {
        if b != b' ' {
            return b == b'#';
        }
    }
    true
}

impl Draft {
    /// Reads a line of this number.
    fn read_line(
        &mut self,
        alloc: Global,
        classes: &Classes,
        line: u32,
        text: &[u8],
    ) -> Result<(), Refusal<SessionKind>>
        requires short { length text.now < 2 ^ 32 }
        requires sound { IsSound self.old }
        ensures read { IsLineRead line (draft_in self.old) (line_of (classes_of classes.now) (draft_in self.old) text.now) (draft_in self.new) result }
        ensures sound { OnOk result (IsSound self.new) }
    {
        let words = match words(alloc, text) {
            Ok(words) => words,
            Err(Refusal::Fault(_)) => return Err(Refusal::Fault(SessionKind::BadByte)),
            Err(Refusal::Memory) => return Err(Refusal::Memory),
        };
        let Some((first, rest)) = words.split_first() else {
            return Err(Refusal::Fault(SessionKind::UnknownWord));
        };
        match self.line_of_word(classes, first, rest) {
            Ok(entry) => Ok(self.add(alloc, line, entry)?),
            Err(kind) => Err(Refusal::Fault(kind)),
        }
    }
}

/// Reads the lines behind the first, and answers the number of the last.
fn read_lines(
    draft: &mut Draft,
    alloc: Global,
    classes: &Classes,
    lines: Lines<'_>,
) -> Result<u32, Refusal<SessionFault>>
    requires count { length (left lines) < 2 ^ 31 }
    requires short { All (λ text. length text < 2 ^ 32) (left lines) }
    requires sound { IsSound draft.old }
    ensures read { AreLinesRead (lines_from (classes_of classes.now) 2 (draft_in draft.old) (left lines.entry)) (draft_in draft.new) result }
    ensures last { IfOk result (λ line. line ≡ 1 + length (left lines.entry)) }
    ensures sound { OnOk result (IsSound draft.new) }
{
    let mut line = 1;
    for text in lines {
        line += 1;
        if is_skipped(text) {
            continue;
        }
        match draft.read_line(alloc, classes, line, text) {
            Ok(()) => {}
            Err(Refusal::Fault(kind)) => return Err(Refusal::Fault(SessionFault { line, kind })),
            Err(Refusal::Memory) => return Err(Refusal::Memory),
        }
    }
    Ok(line)
}

/// Whether these are the words of a session's first line.
fn are_header(words: &[&[u8]]) -> bool
    ensures { result ≡ are_header (texts words.now) }
{
    if words.len() != 3 {
        return false;
    }
    if words[0] != b"vsthost".as_slice() {
        return false;
    }
    if words[1] != b"session".as_slice() {
        return false;
    }
    words[2] == b"1".as_slice()
}

/// Whether this is the first line of a session.
fn is_header(alloc: Global, text: &[u8]) -> Result<bool, AllocError>
    requires { length text.now < 2 ^ 32 }
    ensures { IfOk result (λ header. header ≡ is_header text.now) }
{
    match words(alloc, text) {
        Ok(words) => Ok(are_header(&words)),
        Err(Refusal::Fault(_)) => Ok(false),
        Err(Refusal::Memory) => Err(AllocError),
    }
}

/// A fault of a line.
fn fault(line: u32, kind: SessionKind) -> Refusal<SessionFault>
    ensures { result ≡ Fault (fault line kind) }
{
    Refusal::Fault(SessionFault { line, kind })
}

impl Draft {
    /// Whether the lines stand that each session has.
    fn is_complete(&self) -> bool
        ensures { result ≡ is_complete (draft_in self.now) }
    {
        self.frames.is_some()
            && self.channels.is_some()
            && self.bits.is_some()
            && !self.pattern.is_empty()
    }
}

/// Reads the lines of a text.
fn read_draft(
    alloc: Global,
    bytes: &[u8],
    classes: &Classes,
) -> Result<Draft, Refusal<SessionFault>>
    ensures read { IsDraftRead (draft_of (classes_of classes.now) bytes.now) result }
    ensures sound { IfOk result IsSound }
{
    if bytes.len() as u64 > SESSION_LIMIT {
        return Err(fault(0, SessionKind::TooLong));
    }
    let mut lines = Lines::new(bytes);
    let Some(first) = lines.next() else {
        return Err(fault(1, SessionKind::BadHeader));
    };
    if !is_header(alloc, first)? {
        return Err(fault(1, SessionKind::BadHeader));
    }
    let mut draft = Draft::new(alloc);
    let last = read_lines(&mut draft, alloc, classes, lines)?;
    if !draft.is_complete() {
        return Err(fault(last + 1, SessionKind::NoLine));
    }
    Ok(draft)
}

/// Reads a session, whose nodes are of these classes.
///
/// Refused for the first fault: too long a text, a first line that isn't a session's, the first line that has a
/// fault, a line that each session has and that is missing, and last a cycle of the wires.
pub fn read(
    alloc: Global,
    bytes: &[u8],
    classes: &Classes,
) -> Result<Session, Refusal<SessionFault>>
    ensures { IsRead (classes_of classes.now) bytes.now result }
{
    let draft = read_draft(alloc, bytes, classes)?;
    draft.check_cycles(alloc)?;
    Ok(draft.finish(alloc)?)
}
