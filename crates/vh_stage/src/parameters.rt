//! The parameters of a session.

ghost use Rattle.std.specs.Prelude.{◌≡◌, ◌++◌, IfOk};
ghost use Rattle.std.specs.List.{IsDistinct};
ghost use Rattle.vh_params.specs.Nodes.{nodes_of};
ghost use Rattle.vh_back.specs.Items.{is_same};
ghost use Rattle.vh_back.specs.declared.item.Parameter.{Parameter as Which};
ghost use Rattle.vh_stage.specs.Parameters.{infos_at, all_parameters};

use std::alloc::{AllocError, Global};
use vh_back::Parameter;
use vh_params::{NodeTable, ParamInfo};

/// Puts the parameters of a node behind these.
fn push_parameters(
    parameters: &mut Vec<Parameter>,
    node: u32,
    params: &[ParamInfo],
) -> Result<(), AllocError>
    ensures { IfOk result (λ done. parameters.new.items ≡ parameters.old.items ++ infos_at node params.now) }
{
    for i in 0..params.len() {
        let id = params[i].id;
        parameters.push(Parameter { node, id })?;
    }
    Ok(())
}

/// The parameters of all nodes, node by node and within each by rising id.
pub(crate) fn parameters(alloc: Global, nodes: &NodeTable) -> Result<Vec<Parameter>, AllocError>
    ensures parameters { IfOk result (λ made. made.items ≡ all_parameters (nodes_of nodes.now)) }
    ensures apart { IfOk result (λ made. IsDistinct is_same made.items) }
{
    let mut made = Vec::new(alloc);
    for node in 0..nodes.len() {
        push_parameters(&mut made, node, nodes.table(node).params())?;
    }
    Ok(made)
}
