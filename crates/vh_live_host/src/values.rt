//! What controllers show.

ghost use Rattle.std.specs.Prelude.{◌≡◌, ◌<◌, ◌++◌, length, map, IfOk, OnOk};
ghost use Rattle.std.specs.List.{concat};
ghost use Rattle.vh_params.specs.Nodes.{nodes_of};
ghost use Rattle.vh_plugin.specs.Class.{param_of};
ghost use Rattle.vh_instance.specs.Band.{of_openers};
ghost use Rattle.vh_live_host.specs.Results.{HaveParams};

use std::alloc::{AllocError, Global};
use vh_counted::Opened;
use vh_params::ParamInfo;
use vh_plugin::Controller;
use vh_session::Session;

/// Adds the values of a controller's parameters, by rising id.
fn push_values<C: Controller>(
    controller: &C,
    params: &[ParamInfo],
    values: &mut Vec<u32>,
) -> Result<(), AllocError>
    requires { (C.class_of (C.code controller.now)).params ≡ map param_of params.now }
    ensures { OnOk result (values.new.items ≡ values.old.items ++ C.values controller.now) }
{
    for param in params {
        values.push(controller.normalized(param.id))?;
    }
    Ok(())
}

/// The values of the controllers of a session's nodes, node by node and within each by rising id.
pub(crate) fn values<C: Controller + Drop>(
    alloc: Global,
    session: &Session,
    edits: &[Opened<C>],
) -> Result<Vec<u32>, AllocError>
    requires { HaveParams C.class_of C.code edits.now (nodes_of session.now.nodes) }
    ensures { IfOk result (λ values. values.items ≡ concat (of_openers C.values edits.now)) }
{
    let mut values = Vec::new(alloc);
    for (node, opened) in edits.iter().enumerate() {
        push_values(
            opened.value(),
            session.nodes.table(node as u32).params(),
            &mut values,
        )?;
    }
    Ok(values)
}
