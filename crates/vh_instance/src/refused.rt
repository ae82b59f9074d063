//! Why a band isn't made.

use std::alloc::AllocError;
use thiserror::Error;
use vh_preset::PresetRefusal;

/// Why the instances of a session aren't made.
#[derive(Clone, Copy, Debug, PartialEq, Eq, Error)]
pub enum MakeRefused {
    /// The preset of this node, by number the first such, is of another class, holds no component state, or
    /// holds one that the class doesn't take; the first of these causes counts.
    #[error("the preset of node {node}: {kind}")]
    Preset { node: u32, kind: PresetRefusal },
    /// There was no memory for the instances.
    #[error("out of memory")]
    Memory,
}

impl From<AllocError> for MakeRefused {
    ghost use Rattle.std.specs.Prelude.{◌≡◌};
    ghost use Rattle.vh_instance.specs.declared.refused.MakeRefused.TheVariants.{Memory};

    ghost from_gives = { λ _ refused. refused ≡ Memory };

    fn from(_: AllocError) -> MakeRefused {
        MakeRefused::Memory
    }
}
