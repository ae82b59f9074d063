//! First values.

ghost use Rattle.std.specs.Prelude.{◌≡◌, ◌<◌, ◌++◌, length, map, IfOk, OnOk};
ghost use Rattle.std.specs.List.{flat_map};
ghost use Rattle.vh_counted.specs.Held.{value_of_opened};
ghost use Rattle.vh_params.specs.Nodes.{nodes_of, node_at};
ghost use Rattle.vh_plugin.specs.Class.{AreValues, param_of};
ghost use Rattle.vh_session.specs.Names.{content_of};
ghost use Rattle.vh_instance.specs.Firsts.{given_in, lines_over};

use std::alloc::{AllocError, Global};
use vh_counted::Opened;
use vh_num::quant;
use vh_params::ParamInfo;
use vh_plugin::Controller;
use vh_session::Session;

/// The value that a `param` line gives a parameter of a node.
fn given(firsts: &[(u32, u32, u32)], node: u32, id: u32) -> Option<u32>
    ensures { result ≡ given_in firsts.now node id }
{
    firsts
        .iter()
        .find(|first| first.0 == node && first.1 == id)
        .map(|first| first.2)
}

/// Gives a node's controller the values of `param` lines, over those that it has.
pub(crate) fn set_lines<C: Controller>(controller: &mut C, session: &Session, node: u32)
    requires node { node < length (nodes_of session.now.nodes) }
    requires params { (C.class_of (C.code controller.old)).params ≡ map param_of (node_at (nodes_of session.now.nodes) node).params }
    ensures values { C.values controller.new ≡ lines_over (content_of session.now).firsts node (C.class_of (C.code controller.old)).params (C.values controller.old) }
    ensures mode { C.mode controller.new ≡ C.mode controller.old }
    ensures code { C.code controller.new ≡ C.code controller.old }
{
    for param in session.nodes.table(node).params() {
        let other = controller.normalized(param.id);
        let value = given(&session.firsts, node, param.id).unwrap_or(other);
        controller.set_normalized(param.id, quant(value, param.steps));
    }
}

/// Adds the values of a controller's parameters, by rising id, one for each and none above 1.0.
pub(crate) fn add_values<C: Controller>(
    controller: &C,
    params: &[ParamInfo],
    values: &mut Vec<u32>,
) -> Result<(), AllocError>
    requires { (C.class_of (C.code controller.now)).params ≡ map param_of params.now }
    ensures added { OnOk result (values.new.items ≡ values.old.items ++ C.values controller.now) }
    ensures valued { AreValues (C.class_of (C.code controller.now)).params (C.values controller.now) }
{
    for param in params {
        values.push(controller.normalized(param.id))?;
    }
    Ok(())
}

/// The values of the controllers of a session's nodes, node by node.
pub(crate) fn values_of<C: Controller + Drop>(
    alloc: Global,
    session: &Session,
    edits: &[Opened<C>],
) -> Result<Vec<u32>, AllocError>
    requires { map (λ edit. (C.class_of (C.code (value_of_opened edit))).params) edits.now ≡ map (λ node. map param_of node.params) (nodes_of session.now.nodes) }
    ensures { IfOk result (λ values. values.items ≡ flat_map (λ edit. C.values (value_of_opened edit)) edits.now) }
{
    let mut values = Vec::new(alloc);
    for (node, edit) in edits.iter().enumerate() {
        add_values(
            edit.value(),
            session.nodes.table(node as u32).params(),
            &mut values,
        )?;
    }
    Ok(values)
}
