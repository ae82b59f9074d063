//! The canonical text of a journal.

ghost use Rattle.std.specs.Prelude.{◌≡◌, ◌<◌, ◌++◌, ◌^◌, ℕ, length, map, OnOk, IfOk, Ok};
ghost use Rattle.vh_params.specs.Nodes.{nodes_of};
ghost use Rattle.vh_text.specs.Written.{written, lines_text, further_text};
ghost use Rattle.vh_text.specs.Written.{line_text};
ghost use Rattle.vh_journal_text.specs.Items.{node_of, act_of, item_of, items_of};
ghost use Rattle.vh_journal_text.specs.Keeps.{AreNamed, AreEntries, AreThere};
ghost use Rattle.vh_journal_text.specs.Reading.{journal_of};
ghost use Rattle.vh_journal_text.specs.Text.{name_of, act_words, item_words, journal_text};

use itoa::Buffer;
use std::alloc::{AllocError, Global};
use vh_journal::Entry;
use vh_params::{Command, NodeTable};
use vh_text::Writer;

/// Writes what a command says behind a line's numbers.
fn write_command(text: &mut Writer, nodes: &NodeTable, command: &Command) -> Result<(), AllocError>
    requires { node_of command.now < length (nodes_of nodes.now) }
    ensures { OnOk result (written text.new ≡ written text.old ++ further_text (act_words (name_of (nodes_of nodes.now) (node_of command.now)) (act_of command.now))) }
{
    match *command {
        Command::Begin { node, id } => {
            text.word(b"begin")?;
            text.word(nodes.name(node).text())?;
            text.last_numbers(&[id])
        }
        Command::Perform { node, id, value } => {
            text.word(b"perform")?;
            text.word(nodes.name(node).text())?;
            text.last_numbers(&[id, value])
        }
        Command::End { node, id } => {
            text.word(b"end")?;
            text.word(nodes.name(node).text())?;
            text.last_numbers(&[id])
        }
        Command::Tell { node, words } => {
            text.word(b"tell")?;
            text.word(nodes.name(node).text())?;
            text.last_numbers(words.numbers())
        }
    }
}

/// Writes the line of an entry.
fn write_entry(text: &mut Writer, nodes: &NodeTable, entry: &Entry) -> Result<(), AllocError>
    requires { node_of entry.now.command < length (nodes_of nodes.now) }
    ensures { OnOk result (written text.new ≡ written text.old ++ line_text (item_words (nodes_of nodes.now) (item_of entry.now))) }
{
    let mut digits = Buffer::new();
    text.begin(digits.format(entry.sample).as_bytes())?;
    text.number(entry.editor)?;
    text.number(entry.seq)?;
    write_command(text, nodes, &entry.command)
}

/// Writes the lines of entries.
fn write_entries(text: &mut Writer, nodes: &NodeTable, entries: &[Entry]) -> Result<(), AllocError>
    requires { AreThere (nodes_of nodes.now) entries.now }
    ensures { OnOk result (written text.new ≡ written text.old ++ lines_text (map (item_words (nodes_of nodes.now)) (items_of entries.now))) }
{
    for entry in entries {
        write_entry(text, nodes, entry)?;
    }
    Ok(())
}

/// The nodes' names are names, and differ.
fn names_differ(nodes: &NodeTable)
    ensures { AreNamed (nodes_of nodes.now) }
{
    let _ = nodes.len();
}

/// The canonical text of a journal with these entries, whose nodes are there: single spaces, no leading zeros, and a
/// line feed behind each line. Read under its session's nodes and length, it is this journal again.
pub fn print(alloc: Global, entries: &[Entry], nodes: &NodeTable) -> Result<Vec<u8>, AllocError>
    requires { AreThere (nodes_of nodes.now) entries.now }
    ensures text { IfOk result (λ text. text.items ≡ journal_text (nodes_of nodes.now) (items_of entries.now)) }
    ensures reads_back { IfOk result (λ text. (most : ℕ) → most < 2 ^ 32 → AreEntries (nodes_of nodes.now) most (items_of entries.now) → journal_of (nodes_of nodes.now) most text.items ≡ Ok (items_of entries.now)) }
{
    names_differ(nodes);
    let mut text = Writer::new(alloc);
    text.begin(b"vsthost journal 1\n")?;
    write_entries(&mut text, nodes, entries)?;
    text.begin(b"close\n")?;
    Ok(text.finish())
}
