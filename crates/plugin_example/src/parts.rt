//! What both classes need.

ghost use Rattle.std.specs.Prelude.{◌≡◌, ◌≤◌, length, IfOk};
ghost use Rattle.vh_params.specs.ClassList.{classes_of};
ghost use Rattle.vh_params.specs.Params.{AreRising};
ghost use Rattle.plugin_example.specs.Modes.{IsModeIn};
ghost use Rattle.plugin_example.specs.Wires.{TellsOne};

use std::alloc::{AllocError, Global};
use vh_ids::Tuid;
use vh_params::{ClassInfo, Classes, Label, ParamInfo, ParamTable, UnitInfo};

/// The mode that these bytes hold.
pub fn mode_in(bytes: &[u8]) -> Option<u32>
    ensures { IsModeIn bytes.now result }
{
    if bytes == [1, 0, 0, 0, 0, 0, 0, 0].as_slice() {
        Some(0)
    } else if bytes == [1, 0, 0, 0, 1, 0, 0, 0].as_slice() {
        Some(1)
    } else {
        None
    }
}

/// One class, of this name and these parameters.
pub fn one_class(
    alloc: Global,
    name: &[u8],
    params: &[ParamInfo],
    aux: bool,
    controller: Tuid,
) -> Result<Classes, AllocError>
    requires name { length name.now ≤ 32 }
    requires few { length params.now ≤ 64 }
    requires rising { AreRising params.now }
    ensures { IfOk result (λ classes. TellsOne name.now params.now aux controller.0 (classes_of classes)) }
{
    let root = UnitInfo::root(Label::new(b"Root"));
    let Ok(params) = ParamTable::new(alloc, params, &[root]) else {
        return Err(AllocError);
    };
    let mut list = Vec::new(alloc);
    list.push(ClassInfo {
        name: Label::new(name),
        component: Tuid([0; 16]),
        controller,
        aux,
        params,
    })?;
    Ok(Classes::new(alloc, list)?)
}
