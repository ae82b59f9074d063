//! Entries that a block may carry.

ghost use Rattle.std.specs.Prelude.{◌≡◌, ◌<◌, ◌≤◌, ◌+◌, true};
ghost use Rattle.vh_params.specs.Nodes.{nodes_of};
ghost use Rattle.vh_session.specs.Keeps.{can_set};
ghost use Rattle.engine_part.specs.Carried.{IsOn, IsCarried, AreCarried};

use vh_journal::Entry;
use vh_num::ONE;
use vh_params::{Command, NodeTable};

/// Whether a parameter is there and can be set.
fn can_set(nodes: &NodeTable, node: u32, id: u32) -> bool
    ensures { result ≡ can_set (nodes_of nodes.now) node id }
{
    match nodes.info(node, id) {
        Some(param) => !param.is_read_only(),
        None => false,
    }
}

/// Whether a command is on a node that is there, and on a parameter that can be set.
fn is_on(nodes: &NodeTable, command: &Command) -> bool
    ensures { result ≡ true → IsOn (nodes_of nodes.now) command.now }
{
    match *command {
        Command::Begin { node, id } => can_set(nodes, node, id),
        Command::Perform { node, id, value } => value <= ONE && can_set(nodes, node, id),
        Command::End { node, id } => can_set(nodes, node, id),
        Command::Tell { node, words: _ } => node < nodes.len(),
    }
}

/// Whether a block from sample `at` up to `past` may carry an entry.
fn carries(nodes: &NodeTable, entry: &Entry, at: u32, past: u32) -> bool
    ensures { result ≡ true → IsCarried (nodes_of nodes.now) at past entry.now }
{
    if entry.sample < at || entry.sample >= past {
        return false;
    }
    if let Command::Tell { .. } = entry.command
        && entry.sample != at
    {
        return false;
    }
    is_on(nodes, &entry.command)
}

/// Whether it may carry these entries, whose samples never fall.
#[tactic(auto, using(crate::proofs::Carrying::one_more, crate::proofs::Carrying::all_carried))]
pub(crate) fn are_carried(nodes: &NodeTable, entries: &[Entry], at: u32, past: u32) -> bool
    ensures { result ≡ true → AreCarried (nodes_of nodes.now) at past entries.now }
{
    let mut least = at;
    for entry in entries {
        if entry.sample < least || !carries(nodes, entry, at, past) {
            return false;
        }
        least = entry.sample;
    }
    true
}
