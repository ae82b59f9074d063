use std::alloc::Global;
use std::process::Abort;
use std::test::Fail;
use vh_ids::Tuid;
use vh_params::{
    CAN_AUTOMATE, ClassInfo, IS_READ_ONLY, Label, NodeTable, ParamInfo, ParamTable, UnitInfo,
    is_name,
};

/// A continuous parameter.
fn param(id: u32, flags: u32) -> ParamInfo {
    ParamInfo {
        id,
        title: Label::new(b""),
        units: Label::new(b""),
        steps: 0,
        first: 0,
        unit: 0,
        flags,
    }
}

/// A class with three parameters: the second can't be automated, the third is only read.
pub fn class(alloc: Global) -> Result<ClassInfo, Fail> {
    let params = [param(0, CAN_AUTOMATE), param(7, 0), param(9, IS_READ_ONLY)];
    Ok(ClassInfo {
        name: Label::new(b"gain"),
        component: Tuid([1; 16]),
        controller: Tuid([2; 16]),
        aux: false,
        params: ParamTable::new(alloc, &params, &[UnitInfo::root(Label::new(b"Root"))])?,
    })
}

/// Two nodes of this class, `a` and `b_2`.
pub fn nodes(rt: &impl Abort, alloc: Global) -> Result<NodeTable, Fail> {
    let class = class(alloc)?;
    let mut nodes = NodeTable::new(alloc);
    for name in ["a", "b_2"] {
        let name = name.as_bytes();
        assert!(rt;
            is_name(name) && nodes.node(name).is_none() && nodes.len() < 64 && name.len() <= 32
        );
        nodes.add(alloc, Label::new(name), &class)?;
    }
    Ok(nodes)
}
