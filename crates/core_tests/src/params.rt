use std::alloc::Global;
use std::test::Fail;
use vh_ids::Tuid;
use vh_num::{Refusal, norm};
use vh_params::{
    CAN_AUTOMATE, ClassInfo, Classes, Label, NodeTable, ParamInfo, ParamTable, TableFault,
    UnitInfo, Words, is_name,
};

/// A parameter, with units where it has steps.
fn param(id: u32, steps: u32, first: u32, unit: u32) -> ParamInfo {
    ParamInfo {
        id,
        title: Label::new(b"Time"),
        units: Label::new(if steps > 1 { b"smp" } else { b"" }),
        steps,
        first,
        unit,
        flags: CAN_AUTOMATE,
    }
}

#[test]
fn texts_of_values_are_read_back(rt: HostRuntime) -> Result<(), Fail> {
    let alloc = rt.alloc();
    let params = [
        param(7, 0, 5, 0),
        param(1, 4095, 0, 0),
        param(3, 1, 0, 0),
        param(5, 15, 0, 0),
    ];
    let table = ParamTable::new(alloc, &params, &[UnitInfo::root(Label::new(b"Root"))])?;
    let rows = [
        (7, 16_777_216, "1.0000", 16_777_216),
        (7, 5_592_405, "0.3333", 5_591_847),
        (7, 0, "0.0000", 0),
        (1, 4097, "1 smp", 4097),
        (1, 16_777_216, "4095 smp", 16_777_216),
        (3, 8_388_607, "Off", 0),
        (3, 8_388_608, "On", 16_777_216),
    ];
    for (id, value, text, read) in rows {
        assert!(rt; table.find(id).is_some() && value <= 16_777_216);
        assert_eq!(rt;
            table.value_text(alloc, id, value)?.as_slice(),
            text.as_bytes()
        );
        assert_eq!(rt; table.text_value(id, text.as_bytes()), Some(read), "{text}");
    }
    let others = [
        (7, "0.33"),
        (7, "1.0001"),
        (7, "0.33334"),
        (7, "0,3333"),
        (1, "1"),
        (1, "1 sm"),
        (1, "01 smp"),
        (1, "+1 smp"),
        (1, "4096 smp"),
        (3, "on"),
        (3, ""),
    ];
    for (id, text) in others {
        assert!(rt; table.find(id).is_some());
        assert_eq!(rt; table.text_value(id, text.as_bytes()), None, "{text}");
    }
    for step in 0..16 {
        assert!(rt; table.find(5).is_some() && step <= 15);
        let value = norm(step, 15);
        assert!(rt; value <= 16_777_216);
        assert_eq!(rt; table.quantised(5, value), value);
        let text = table.value_text(alloc, 5, value)?;
        assert_eq!(rt; table.text_value(5, text.as_slice()), Some(value));
    }
    Ok(())
}

#[test]
fn the_first_fault_is_told(rt: HostRuntime) -> Result<(), Fail> {
    let alloc = rt.alloc();
    let rows = [
        (1, 4096, 1, 9, Some(TableFault::Duplicate(1))),
        (2, 4096, 1, 9, Some(TableFault::BadStep(2))),
        (2, 4, 1, 9, Some(TableFault::BadDefault(2))),
        (2, 0, 16_777_217, 9, Some(TableFault::BadDefault(2))),
        (2, 4, 0, 9, Some(TableFault::BadUnit(2))),
        (2, 4095, 0, 0, Some(TableFault::BadStep(3))),
    ];
    for (id, steps, first, unit, fault) in rows {
        let params = [
            param(1, 0, 0, 0),
            param(id, steps, first, unit),
            param(3, 4096, 0, 0),
        ];
        let made = ParamTable::new(alloc, &params, &[UnitInfo::root(Label::new(b"Root"))]);
        assert_eq!(rt; made.err(), fault.map(Refusal::Fault));
    }
    Ok(())
}

/// A class of one parameter.
fn class(alloc: Global) -> Result<ClassInfo, Refusal<TableFault>> {
    Ok(ClassInfo {
        name: Label::new(b"delay"),
        component: Tuid([1; 16]),
        controller: Tuid([2; 16]),
        aux: false,
        params: ParamTable::new(
            alloc,
            &[param(4, 4095, 0, 0)],
            &[UnitInfo::root(Label::new(b"Root"))],
        )?,
    })
}

#[test]
fn classes_and_nodes_are_found(rt: HostRuntime) -> Result<(), Fail> {
    let alloc = rt.alloc();
    let mut list = Vec::new(alloc);
    list.push(class(alloc)?)?;
    let classes = Classes::new(alloc, list)?;
    assert_eq!(rt;
        (classes.find(b"delay"), classes.find(b"dela")),
        (Some(0), None)
    );
    let mut nodes = NodeTable::new(alloc);
    let class = classes.info(0);
    for name in ["echo", "tail_2"] {
        let name = name.as_bytes();
        assert!(rt;
            is_name(name) && nodes.node(name).is_none() && nodes.len() < 64 && name.len() <= 32
        );
        nodes.add(alloc, Label::new(name), class)?;
    }
    let copy = nodes.copy(alloc)?;
    assert_eq!(rt; copy.len(), 2);
    assert_eq!(rt; (copy.node(b"tail_2"), copy.node(b"tail")), (Some(1), None));
    assert_eq!(rt; copy.name(1).text(), b"tail_2".as_slice());
    assert!(rt; copy.info(1, 4).is_some() && copy.info(1, 5).is_none());
    Ok(())
}

#[test]
fn names_and_words_keep_their_form(rt: HostRuntime) {
    for name in [
        "",
        "in",
        "out",
        "1a",
        "_a",
        "A",
        "a-b",
        "a23456789012345678901234567890123",
    ] {
        assert_eq!(rt; is_name(name.as_bytes()), false, "{name}");
    }
    assert_eq!(rt; Words::new(&[1, 2]).numbers(), [1, 2].as_slice());
}
