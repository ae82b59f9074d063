//! The nodes under their names.

ghost use Rattle.std.specs.Prelude.{◌≡◌, ◌<◌, ◌≤◌, All, IfOk, length};
ghost use Rattle.vh_params.specs.ClassList.{classes_of};
ghost use Rattle.vh_params.specs.Nodes.{nodes_of as nodes_in};
ghost use Rattle.vh_params.specs.Short.{label_text};
ghost use Rattle.vh_gen.specs.Nodes.{name_of, nodes_of};

use std::alloc::{AllocError, Global};
use vh_params::{Classes, Label, NodeTable};

/// The name of a node: `n` and its number.
fn name_of(alloc: Global, node: u32) -> Result<Label, AllocError>
    requires { node < 64 }
    ensures { IfOk result (λ label. label_text label ≡ name_of node) }
{
    let name = format!(in alloc; "n{node}")?;
    Ok(Label::new(name.as_bytes()))
}

/// Nodes of the classes at these places.
pub(crate) fn node_table(
    alloc: Global,
    classes: &Classes,
    kinds: &[u32],
) -> Result<NodeTable, AllocError>
    requires few { length kinds.now ≤ 64 }
    requires each { All (λ kind. kind < length (classes_of classes.now)) kinds.now }
    ensures { IfOk result (λ table. nodes_in table ≡ nodes_of (classes_of classes.now) kinds.now) }
{
    let mut table = NodeTable::new(alloc);
    for (node, &kind) in kinds.iter().enumerate() {
        let name = name_of(alloc, node as u32)?;
        table.add(alloc, name, classes.info(kind))?;
    }
    Ok(table)
}
