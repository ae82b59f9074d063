//! What the words of a line say.

ghost use Rattle.std.specs.Prelude.{◌≡◌, ◌≤◌, ◌<◌, IfOk, length};
ghost use Rattle.vh_text.specs.Tokens.{texts};
ghost use Rattle.vh_journal_text.specs.Lines.{any_number, editor_number, value_number, any_numbers, act_in, entry_line, are_close, said_by};
ghost use Rattle.vh_journal_text.specs.Steps.{IsMessage};
ghost use Rattle.vh_journal_text.specs.View.{act_answer, line_answer, said_answer, HasEditor};

use crate::fault::JournalKind;
use vh_num::ONE;
use vh_params::{Command, Words};
use vh_text::number;

/// What an editor does at a node.
#[derive(Clone, Copy)]
pub(crate) enum Act {
    Begin { id: u32 },
    Perform { id: u32, value: u32 },
    End { id: u32 },
    Tell { words: Words },
}

impl Act {
    ghost use Rattle.vh_journal_text.specs.Items.{act_of, node_of};
    ghost use Rattle.vh_journal_text.specs.View.{act_told};

    /// The command that does it at this node.
    pub(crate) fn at(self, node: u32) -> Command
        ensures act { act_of result ≡ act_told self }
        ensures node { node_of result ≡ node }
    {
        match self {
            Act::Begin { id } => Command::Begin { node, id },
            Act::Perform { id, value } => Command::Perform { node, id, value },
            Act::End { id } => Command::End { node, id },
            Act::Tell { words } => Command::Tell { node, words },
        }
    }
}

/// A line of an entry, with its node's name.
#[derive(Clone, Copy)]
pub(crate) struct Line<'a> {
    pub(crate) sample: u32,
    pub(crate) editor: u32,
    pub(crate) seq: u32,
    pub(crate) name: &'a [u8],
    pub(crate) act: Act,
}

/// What a line says.
#[derive(Clone, Copy)]
pub(crate) enum Said<'a> {
    Close,
    Entered(Line<'a>),
}

/// Any number below 2^32.
fn any_number(text: &[u8]) -> Result<u32, JournalKind>
    ensures { result ≡ any_number text.now }
{
    match number(text) {
        Some(n) => Ok(n),
        None => Err(JournalKind::BadLine),
    }
}

/// The number of an editor.
fn editor_number(text: &[u8]) -> Result<u32, JournalKind>
    ensures value { result ≡ editor_number text.now }
    ensures within { IfOk result (λ n. n < 8) }
{
    let n = any_number(text)?;
    if n > 7 {
        return Err(JournalKind::BadLine);
    }
    Ok(n)
}

/// A normalised value.
fn value_number(text: &[u8]) -> Result<u32, JournalKind>
    ensures { result ≡ value_number text.now }
{
    let n = any_number(text)?;
    if n > ONE {
        return Err(JournalKind::BadLine);
    }
    Ok(n)
}

/// The numbers of a message.
fn message(words: &[&[u8]]) -> Result<Words, JournalKind>
    requires { length words.now ≤ 4 }
    ensures { IsMessage (any_numbers (texts words.now)) result }
{
    let mut numbers = [0u32; 4];
    for i in 0..words.len() {
        numbers[i] = any_number(words[i])?;
    }
    Ok(Words::new(&numbers[..words.len()]))
}

/// What a verb does with the words behind the node.
fn act_of_verb(verb: &[u8], words: &[&[u8]]) -> Result<Act, JournalKind>
    ensures { act_answer result ≡ act_in verb.now (texts words.now) }
{
    if verb == b"begin".as_slice() {
        if words.len() != 1 {
            return Err(JournalKind::BadLine);
        }
        let id = any_number(words[0])?;
        return Ok(Act::Begin { id });
    }
    if verb == b"perform".as_slice() {
        if words.len() != 2 {
            return Err(JournalKind::BadLine);
        }
        let id = any_number(words[0])?;
        let value = value_number(words[1])?;
        return Ok(Act::Perform { id, value });
    }
    if verb == b"end".as_slice() {
        if words.len() != 1 {
            return Err(JournalKind::BadLine);
        }
        let id = any_number(words[0])?;
        return Ok(Act::End { id });
    }
    if verb == b"tell".as_slice() {
        if words.len() > 4 {
            return Err(JournalKind::BadLine);
        }
        let words = message(words)?;
        return Ok(Act::Tell { words });
    }
    Err(JournalKind::BadLine)
}

/// `SAMPLE EDITOR SEQ VERB NODE ..`.
fn entry_line<'a>(words: &[&'a [u8]]) -> Result<Line<'a>, JournalKind>
    ensures says { line_answer result ≡ entry_line (texts words.now) }
    ensures editor { IfOk result (λ line. line.editor < 8) }
{
    if words.len() < 5 {
        return Err(JournalKind::BadLine);
    }
    let sample = any_number(words[0])?;
    let editor = editor_number(words[1])?;
    let seq = any_number(words[2])?;
    let act = act_of_verb(words[3], &words[5..])?;
    Ok(Line {
        sample,
        editor,
        seq,
        name: words[4],
        act,
    })
}

/// What the words of a line say.
pub(crate) fn said_by<'a>(words: &[&'a [u8]]) -> Result<Said<'a>, JournalKind>
    ensures says { said_answer result ≡ said_by (texts words.now) }
    ensures editor { IfOk result HasEditor }
{
    if words.len() == 1 && words[0] == b"close".as_slice() {
        return Ok(Said::Close);
    }
    let line = entry_line(words)?;
    Ok(Said::Entered(line))
}
