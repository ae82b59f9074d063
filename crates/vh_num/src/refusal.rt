ghost use Rattle.std.specs.Prelude.{◌≡◌};
ghost use Rattle.vh_num.specs.declared.refusal.Refusal.TheVariants.{Memory as OfMemory};

use std::alloc::AllocError;
use std::fmt::Display;
use thiserror::Error;

/// Why a call that takes memory gave no value: a fault of what it was given, or want of memory.
#[derive(Clone, Copy, Debug, PartialEq, Eq, Error)]
#[error_bound(E: Display)]
pub enum Refusal<E> {
    /// What was given is refused for this reason.
    #[error("{0}")]
    Fault(E),
    /// There was no memory for the answer.
    #[error("out of memory")]
    Memory,
}

impl<E> From<AllocError> for Refusal<E> {
    ghost from_gives = { λ _ refusal. refusal ≡ OfMemory };

    fn from(_: AllocError) -> Refusal<E> {
        Refusal::Memory
    }
}
