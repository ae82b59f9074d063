//! An editor's script against the entries of a journal.

ghost use Rattle.std.specs.Prelude.{◌≡◌, ◌↔◌, IsTrue, All, IfOk, map};
ghost use Rattle.std.specs.List.{enumerate_from};
ghost use Rattle.vh_params.specs.Nodes.{nodes_of};
ghost use Rattle.vh_gesture.specs.Rules.{NamesNode};
ghost use Rattle.vh_gesture.specs.Scripts.{edits};
ghost use Rattle.vh_legal.specs.Legal.{by_editor, numbered, HasPlayed};

use std::alloc::{AllocError, Global};
use vh_gesture::Gestures;
use vh_journal::Entry;
use vh_params::{Command, NodeTable, Word};

/// Whether the entries of an editor are what its script comes to: each edit and message once, in order, numbered
/// from 0.
pub(crate) fn has_played(
    alloc: Global,
    nodes: &NodeTable,
    script: &[Word],
    editor: u32,
    entries: &[Entry],
) -> Result<bool, AllocError>
    requires { All (NamesNode (nodes_of nodes.now)) script.now }
    ensures { IfOk result (λ played. IsTrue played ↔ HasPlayed (nodes_of nodes.now) script.now editor entries.now) }
{
    let commands = edits(alloc, nodes, script)?;
    let own = by_editor(alloc, entries, editor)?;
    Ok(are_numbered(&own, &commands))
}

/// The edits and messages that a script comes to.
fn edits(alloc: Global, nodes: &NodeTable, script: &[Word]) -> Result<Vec<Command>, AllocError>
    requires { All (NamesNode (nodes_of nodes.now)) script.now }
    ensures { IfOk result (λ commands. commands.items ≡ edits (nodes_of nodes.now) script.now) }
{
    vh_gesture::laws::table_gives_edits();
    let mut gestures = Gestures::new(alloc, nodes)?;
    let mut commands = Vec::new(alloc);
    for word in script {
        if gestures.check(nodes, word).is_err() {
            continue;
        }
        gestures.apply(word);
        if let Word::Edit(command) = *word {
            commands.push(command)?;
        }
    }
    Ok(commands)
}

/// The entries of an editor, in order.
fn by_editor(alloc: Global, entries: &[Entry], editor: u32) -> Result<Vec<Entry>, AllocError>
    ensures { IfOk result (λ own. own.items ≡ by_editor editor entries.now) }
{
    let mut own = Vec::new(alloc);
    for entry in entries {
        if entry.editor == editor {
            own.push(*entry)?;
        }
    }
    Ok(own)
}

/// Whether entries carry these commands, each once, in order, numbered from 0.
fn are_numbered(entries: &[Entry], commands: &[Command]) -> bool
    ensures { IsTrue result ↔ (map numbered entries.now ≡ enumerate_from 0 commands.now) }
{
    if entries.len() != commands.len() {
        return false;
    }
    for i in 0..entries.len() {
        if entries[i].seq as usize != i || !are_same(&entries[i].command, &commands[i]) {
            return false;
        }
    }
    true
}

/// Whether two commands are the same.
fn are_same(one: &Command, other: &Command) -> bool
    ensures { IsTrue result ↔ (one.now ≡ other.now) }
{
    one == other
}
