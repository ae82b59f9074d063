//! What the tests make bands of.

ghost use Rattle.std.specs.Prelude.{◌≡◌, IfOk};

use plugin_example::{Switches, set_of_switches};
use std::alloc::{AllocError, Global};
use vh_builtin::BuiltIn;
use vh_plugin::Both;

/// The built-in classes, and behind them the switch.
pub fn tested_set(alloc: Global) -> Result<Both<BuiltIn, Switches>, AllocError> {
    let switches = set_of_switches(alloc, b"switch")?;
    Both::new(alloc, BuiltIn::new(alloc)?, switches)
}

/// The text of a session of so many nodes and editors. By turns the nodes are a gate that an aux wire reaches, a
/// switch, whose aux bus no wire reaches, and a gain, which has none. Of node 0 the first value is 0.25.
pub fn session_text(alloc: Global, nodes: u32, editors: u32) -> Result<String, AllocError> {
    let mut text = String::from_str(
        alloc,
        "vsthost session 1\nlength 8\nchannels 2\nbits 16\npattern 64\n",
    )?;
    for node in 0..nodes {
        let line = match node % 3 {
            0 => format!(in alloc; "node n{node} gate\nwire in n{node} aux\n")?,
            1 => format!(in alloc; "node n{node} switch\nwire in n{node}\n")?,
            _ => format!(in alloc; "node n{node} gain\nwire in n{node}\n")?,
        };
        text.push_str(&line)?;
    }
    text.push_str("param n0 0 4194304\n")?;
    for editor in 0..editors {
        let line = format!(in alloc; "editor {editor}\nhold n0\n")?;
        text.push_str(&line)?;
    }
    Ok(text)
}
