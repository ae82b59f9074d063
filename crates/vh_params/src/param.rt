ghost use Rattle.std.specs.Prelude.{◌≡◌, None};
ghost use Rattle.vh_params.specs.Flags.{is_read_only, is_automatable};

use crate::label::Label;

/// The host may change the parameter over time (the SDK's `kCanAutomate`).
pub const CAN_AUTOMATE: u32 = 1;

/// The parameter is shown and can't be set (`kIsReadOnly`).
pub const IS_READ_ONLY: u32 = 2;

/// The value wraps around at its ends (`kIsWrapAround`).
pub const IS_WRAP_AROUND: u32 = 4;

/// The values are those of a list (`kIsList`).
pub const IS_LIST: u32 = 8;

/// The parameter is not shown (`kIsHidden`).
pub const IS_HIDDEN: u32 = 16;

/// The parameter chooses a program (`kIsProgramChange`).
pub const IS_PROGRAM_CHANGE: u32 = 32_768;

/// The parameter is the plug-in's bypass (`kIsBypass`).
pub const IS_BYPASS: u32 = 65_536;

/// What a plug-in says of a parameter (the SDK's `ParameterInfo`).
#[derive(Clone, Copy, Debug, PartialEq, Eq)]
pub struct ParamInfo {
    pub id: u32,
    pub title: Label,
    /// The name of the unit that its values have, as `smp`, or nothing.
    pub units: Label,
    /// 0 where the parameter is continuous, 1 for a switch, n for n + 1 values.
    pub steps: u32,
    /// The normalised value, 0 to 2^24, that the parameter has at first.
    pub first: u32,
    /// The id of the unit that the parameter belongs to.
    pub unit: u32,
    pub flags: u32,
}

impl ParamInfo {
    /// Whether the parameter is shown and can't be set.
    pub fn is_read_only(&self) -> bool
        ensures { result ≡ is_read_only self.now.flags }
    {
        self.flags & IS_READ_ONLY != 0
    }

    /// Whether the host may change the parameter over time.
    pub fn can_automate(&self) -> bool
        ensures { result ≡ is_automatable self.now.flags }
    {
        self.flags & CAN_AUTOMATE != 0
    }
}

/// A unit of a plug-in, to which parameters belong (the SDK's `UnitInfo`).
#[derive(Clone, Copy, Debug, PartialEq, Eq)]
pub struct UnitInfo {
    pub id: u32,
    /// The id of the unit that it stands in; the root unit has none.
    pub parent: Option<u32>,
    pub name: Label,
}

impl UnitInfo {
    /// The root unit, in which all others stand.
    pub fn root(name: Label) -> UnitInfo
        ensures id { result.id ≡ 0 }
        ensures parent { result.parent ≡ None }
        ensures name { result.name ≡ name }
    {
        UnitInfo {
            id: 0,
            parent: None,
            name,
        }
    }
}
