//! Commands that a rendering may carry.

ghost use Rattle.std.specs.Prelude.{◌≡◌, ◌↔◌, true, IsTrue, All};
ghost use Rattle.vh_params.specs.Nodes.{nodes_of};
ghost use Rattle.vh_session.specs.Keeps.{can_set};
ghost use Rattle.vh_stage.specs.Carried.{IsOn, AreOn};

use vh_journal::Entry;
use vh_num::ONE;
use vh_params::{Command, NodeTable};

/// Whether a parameter is there and can be set.
fn can_set(nodes: &NodeTable, node: u32, id: u32) -> bool
    ensures { result ≡ can_set (nodes_of nodes.now) node id }
{
    match nodes.info(node, id) {
        Some(param) => !param.is_read_only(),
        None => false,
    }
}

/// Whether a command is on a node that is there, and on a parameter that can be set.
fn is_on(nodes: &NodeTable, command: &Command) -> bool
    ensures { IsTrue result ↔ IsOn (nodes_of nodes.now) command.now }
{
    match *command {
        Command::Begin { node, id } => can_set(nodes, node, id),
        Command::Perform { node, id, value } => value <= ONE && can_set(nodes, node, id),
        Command::End { node, id } => can_set(nodes, node, id),
        Command::Tell { node, words: _ } => node < nodes.len(),
    }
}

/// Whether the commands of these entries are so.
pub(crate) fn are_on(nodes: &NodeTable, entries: &[Entry]) -> bool
    ensures { IsTrue result ↔ AreOn (nodes_of nodes.now) entries.now }
{
    for entry in entries {
        if !is_on(nodes, &entry.command) {
            return false;
        }
    }
    true
}
