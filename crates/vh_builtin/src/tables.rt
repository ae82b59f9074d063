//! What the set tells of its classes.

ghost use Rattle.std.specs.Prelude.{◌≡◌, ◌≤◌, IfOk, [], length, map, codes};
ghost use Rattle.vh_params.specs.Params.{AreRising, AreUnits};
ghost use Rattle.vh_params.specs.Short.{label_text};
ghost use Rattle.vh_params.specs.Tables.{params_of, units_of};
ghost use Rattle.vh_builtin.specs.Builtins.{class_rows, class_units};
ghost use Rattle.vh_builtin.specs.Infos.{IsBuiltIn, name_text};
ghost use Rattle.vh_builtin.specs.Kinds.{kind_number};
ghost use Rattle.vh_builtin.specs.Rows.{row, row_of, unit_row, root_unit, hold_unit};

use crate::kind::Kind;
use std::alloc::{AllocError, Global};
use vh_num::ONE;
use vh_params::{
    CAN_AUTOMATE, ClassInfo, IS_BYPASS, IS_READ_ONLY, Label, ParamInfo, ParamTable, UnitInfo,
};

/// A parameter of the root unit, without units of values.
fn param(id: u32, title: &[u8], steps: u32, first: u32, flags: u32) -> ParamInfo
    requires { length title.now ≤ 32 }
    ensures { row_of result ≡ row id title.now [] steps first 0 flags }
{
    ParamInfo {
        id,
        title: Label::new(title),
        units: Label::new(b""),
        steps,
        first,
        unit: 0,
        flags,
    }
}

/// A number of samples up to 4,095.
fn samples(id: u32, title: &[u8]) -> ParamInfo
    requires { length title.now ≤ 32 }
    ensures { row_of result ≡ row id title.now (codes "smp") 4095 0 0 1 }
{
    ParamInfo {
        units: Label::new(b"smp"),
        ..param(id, title, 4095, 0, CAN_AUTOMATE)
    }
}

/// The bypass of a class.
fn bypass(id: u32) -> ParamInfo
    ensures { row_of result ≡ row id (codes "Bypass") [] 1 0 0 65537 }
{
    param(id, b"Bypass", 1, 0, CAN_AUTOMATE | IS_BYPASS)
}

/// The crusher's Hold, in a unit of its own.
fn hold(id: u32) -> ParamInfo
    ensures { row_of result ≡ row id (codes "Hold") [] 63 0 1 1 }
{
    ParamInfo {
        unit: 1,
        ..param(id, b"Hold", 63, 0, CAN_AUTOMATE)
    }
}

/// The root unit.
fn root() -> UnitInfo
    ensures { unit_row result ≡ root_unit }
{
    UnitInfo::root(Label::new(b"Root"))
}

/// The unit of the crusher's Hold.
fn hold_unit() -> UnitInfo
    ensures { unit_row result ≡ hold_unit }
{
    UnitInfo {
        id: 1,
        parent: Some(0),
        name: Label::new(b"Hold"),
    }
}

/// A table of these parameters and units.
fn table(alloc: Global, params: &[ParamInfo], units: &[UnitInfo]) -> Result<ParamTable, AllocError>
    requires few { length params.now ≤ 64 }
    requires rising { AreRising params.now }
    requires units { AreUnits units.now }
    ensures params { IfOk result (λ made. params_of made ≡ params.now) }
    ensures units { IfOk result (λ made. units_of made ≡ units.now) }
{
    match ParamTable::new(alloc, params, units) {
        Ok(made) => Ok(made),
        Err(_) => Err(AllocError),
    }
}

/// The table of a kind's parameters.
fn table_of(alloc: Global, kind: Kind) -> Result<ParamTable, AllocError>
    ensures params { IfOk result (λ made. map row_of (params_of made) ≡ class_rows (kind_number kind)) }
    ensures units { IfOk result (λ made. map unit_row (units_of made) ≡ class_units (kind_number kind)) }
{
    match kind {
        Kind::Gain => table(
            alloc,
            &[param(0, b"Level", 0, ONE / 2, CAN_AUTOMATE), bypass(1)],
            &[root()],
        ),
        Kind::Balance => table(
            alloc,
            &[param(0, b"Position", 0, ONE / 2, CAN_AUTOMATE)],
            &[root()],
        ),
        Kind::Delay => table(
            alloc,
            &[
                samples(0, b"Time"),
                param(1, b"Mix", 0, ONE / 2, CAN_AUTOMATE),
                param(2, b"Feedback", 0, 0, CAN_AUTOMATE),
            ],
            &[root()],
        ),
        Kind::OnePole => table(
            alloc,
            &[param(0, b"Cutoff", 0, ONE, CAN_AUTOMATE)],
            &[root()],
        ),
        Kind::Crusher => table(
            alloc,
            &[param(0, b"Depth", 15, ONE, CAN_AUTOMATE), hold(1)],
            &[root(), hold_unit()],
        ),
        Kind::Gate => table(
            alloc,
            &[
                param(0, b"Threshold", 0, 0, CAN_AUTOMATE),
                samples(1, b"Hold"),
                bypass(2),
            ],
            &[root()],
        ),
        Kind::Meter => table(
            alloc,
            &[
                param(0, b"Peak left", 0, 0, IS_READ_ONLY),
                param(1, b"Peak right", 0, 0, IS_READ_ONLY),
            ],
            &[root()],
        ),
        Kind::Tap => table(alloc, &[param(0, b"Marker", 0, 0, CAN_AUTOMATE)], &[root()]),
    }
}

/// The name of a kind.
fn name_of(kind: Kind) -> Label
    ensures { label_text result ≡ name_text (kind_number kind) }
{
    match kind {
        Kind::Gain => Label::new(b"gain"),
        Kind::Balance => Label::new(b"balance"),
        Kind::Delay => Label::new(b"delay"),
        Kind::OnePole => Label::new(b"onepole"),
        Kind::Crusher => Label::new(b"crusher"),
        Kind::Gate => Label::new(b"gate"),
        Kind::Meter => Label::new(b"meter"),
        Kind::Tap => Label::new(b"tap"),
    }
}

/// What is known of a kind.
#[tactic(auto, using(crate::proofs::Rowed::class_means))]
pub fn info_of(alloc: Global, kind: Kind) -> Result<ClassInfo, AllocError>
    ensures { IfOk result (IsBuiltIn (kind_number kind)) }
{
    Ok(ClassInfo {
        name: name_of(kind),
        component: kind.component(),
        controller: kind.controller(),
        aux: matches!(kind, Kind::Gate),
        params: table_of(alloc, kind)?,
    })
}
