//! Why a preset is refused.

ghost use Rattle.std.specs.Prelude.{◌≡◌};

use thiserror::Error;

/// Why bytes are no preset file. Of several faults the first in this order counts.
#[derive(Clone, Copy, Debug, PartialEq, Eq, Error)]
pub enum PresetFault {
    /// The file has fewer than 48 bytes.
    #[error("fewer than 48 bytes")]
    Short,
    /// The file doesn't begin with `VST3`.
    #[error("not a preset file")]
    BadMagic,
    /// The version is none of 1 to 2^31 - 1.
    #[error("a version out of range")]
    BadVersion,
    /// The byte at this place, 8 to 39, is the first of the class that is no hexadecimal digit.
    #[error("byte {0} of the class is no hexadecimal digit")]
    BadClassId(usize),
    /// The chunk list begins in the head or passes the file's end.
    #[error("the chunk list is outside of the file")]
    BadListOffset,
    /// The chunk list doesn't begin with `List`.
    #[error("no chunk list where it should be")]
    BadListId,
    /// The list has this many entries, which are more than 128 or pass the file's end.
    #[error("{0} entries are too many")]
    BadCount(u32),
    /// The chunk of this entry, from 0, is the first that begins in the head or passes the file's end.
    #[error("the chunk of entry {0} is outside of the file")]
    BadRange(u32),
}

impl PresetFault {
    ghost use Rattle.vh_preset.specs.Numbers.{fault_number};

    /// The number of the fault in refusals, 1 to 8.
    pub fn number(self) -> u8
        ensures { result ≡ fault_number self }
    {
        match self {
            PresetFault::Short => 1,
            PresetFault::BadMagic => 2,
            PresetFault::BadVersion => 3,
            PresetFault::BadClassId(_) => 4,
            PresetFault::BadListOffset => 5,
            PresetFault::BadListId => 6,
            PresetFault::BadCount(_) => 7,
            PresetFault::BadRange(_) => 8,
        }
    }
}

/// Why the host doesn't take a preset.
#[derive(Clone, Copy, Debug, PartialEq, Eq, Error)]
pub enum PresetRefusal {
    /// The file is no preset file.
    #[error("{0}")]
    Fault(PresetFault),
    /// The preset is of another class than the node.
    #[error("a preset of another class")]
    OtherClass,
    /// The preset has no component state.
    #[error("no component state")]
    NoComp,
    /// The component refuses the state.
    #[error("a component state that isn't read")]
    BadState,
    /// The file has more bytes than [`PRESET_LIMIT`](crate::PRESET_LIMIT).
    #[error("too many bytes")]
    TooLong,
    /// No node has the name that was given.
    #[error("an unknown node")]
    NoSuchNode,
}

impl PresetRefusal {
    ghost use Rattle.vh_preset.specs.Numbers.{refusal_number};

    /// The number of the kind in refusals, 1 to 13.
    pub fn number(self) -> u8
        ensures { result ≡ refusal_number self }
    {
        match self {
            PresetRefusal::Fault(fault) => fault.number(),
            PresetRefusal::OtherClass => 9,
            PresetRefusal::NoComp => 10,
            PresetRefusal::BadState => 11,
            PresetRefusal::TooLong => 12,
            PresetRefusal::NoSuchNode => 13,
        }
    }
}
