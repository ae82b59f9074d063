//! Which words are accepted.

ghost use Rattle.std.specs.Prelude.{◌≡◌, ◌<◌, ◌≤◌, ◌-◌, ◌^◌, length, IfOk, if◌then◌else◌};
ghost use Rattle.std.specs.Option.{option_to_list};
ghost use Rattle.vh_params.specs.Nodes.{nodes_of};
ghost use Rattle.vh_gesture.specs.Tables.{IsOf, after, fresh, table_after};
ghost use Rattle.vh_core.specs.Accepting.{names_node, words_by, edits_by, sent_by};
ghost use Rattle.vh_core.specs.Heard.{is_heard, table_with, edits_with};

use crate::sent::Sent;
use std::alloc::{AllocError, Global};
use vh_gesture::Gestures;
use vh_params::{Command, NodeTable, Word};

/// Whether a word's node is there.
fn names_node(nodes: &NodeTable, word: &Word) -> bool
    ensures { result ≡ names_node (nodes_of nodes.now) word.now }
{
    let count = nodes.len();
    match *word {
        Word::Edit(Command::Begin { node, .. }) => node < count,
        Word::Edit(Command::Perform { node, .. }) => node < count,
        Word::Edit(Command::End { node, .. }) => node < count,
        Word::Edit(Command::Tell { node, .. }) => node < count,
        Word::Hold(node) | Word::Unhold(node) => node < count,
        Word::Wait(_) => true,
    }
}

/// Hears a word: whether it is let through, which is then counted.
fn hear(nodes: &NodeTable, gestures: &mut Gestures, word: &Word) -> bool
    requires { IsOf (nodes_of nodes.now) gestures.old }
    ensures heard { result ≡ is_heard (nodes_of nodes.now) gestures.old word.now }
    ensures table { gestures.new ≡ (if result then after gestures.old word.now else gestures.old) }
    ensures nodes { IsOf (nodes_of nodes.now) gestures.new }
{
    if !names_node(nodes, word) || gestures.check(nodes, word).is_err() {
        return false;
    }
    gestures.apply(word);
    true
}

/// Hears what was put, where it is the editor's, and answers how many edits it adds.
fn hear_put(nodes: &NodeTable, editor: u32, gestures: &mut Gestures, put: &(u32, Word)) -> u32
    requires { IsOf (nodes_of nodes.now) gestures.old }
    ensures edits { result ≡ edits_with (nodes_of nodes.now) editor gestures.old put.now }
    ensures few { result ≤ 1 }
    ensures table { gestures.new ≡ table_with (nodes_of nodes.now) editor gestures.old put.now }
    ensures nodes { IsOf (nodes_of nodes.now) gestures.new }
{
    if put.0 != editor || !hear(nodes, gestures, &put.1) {
        return 0;
    }
    match put.1 {
        Word::Edit(_) => 1,
        _ => 0,
    }
}

/// What an editor has behind what was put, and how many edits it made. It judges the editor's words anew.
fn editor_behind(
    alloc: Global,
    nodes: &NodeTable,
    puts: &[(u32, Word)],
    editor: u32,
) -> Result<(Gestures, u32), AllocError>
    requires { length puts.now < 2 ^ 32 - 1 }
    ensures nodes { IfOk result (λ made. IsOf (nodes_of nodes.now) made.0) }
    ensures table { IfOk result (λ made. made.0 ≡ table_after (nodes_of nodes.now) (fresh (nodes_of nodes.now)) (words_by (nodes_of nodes.now) editor puts.now)) }
    ensures edits { IfOk result (λ made. made.1 ≡ length (edits_by (nodes_of nodes.now) editor puts.now)) }
{
    vh_gesture::laws::table_gives_edits();
    let mut gestures = Gestures::new(alloc, nodes)?;
    let mut edits = 0;
    for put in puts {
        edits += hear_put(nodes, editor, &mut gestures, put);
    }
    Ok((gestures, edits))
}

/// What waits to be taken once an editor put a word behind these: an edit or a message, where it is accepted.
pub(crate) fn sent_by(
    alloc: Global,
    nodes: &NodeTable,
    puts: &[(u32, Word)],
    editor: u32,
    word: &Word,
) -> Result<Option<Sent>, AllocError>
    requires { length puts.now < 2 ^ 32 - 1 }
    ensures { IfOk result (λ sent. option_to_list sent ≡ sent_by (nodes_of nodes.now) puts.now editor word.now) }
{
    vh_gesture::laws::table_counts();
    let (mut gestures, seq) = editor_behind(alloc, nodes, puts, editor)?;
    if !hear(nodes, &mut gestures, word) {
        return Ok(None);
    }
    match *word {
        Word::Edit(command) => Ok(Some(Sent {
            editor,
            seq,
            command,
        })),
        _ => Ok(None),
    }
}
