//! The memory of a link.

ghost use Rattle.std.specs.Prelude.{◌≡◌, ◌≤◌, ◌⊎◌, IfOk};

use std::alloc::{AllocError, Global};
use std::marker::Model;

/// The memory of a link of one channel or two, for calls of so many frames.
#[derive(Drop)]
pub struct Buffers {
    pub(crate) channels: u16,
    pub(crate) max: u32,
    pub(crate) bytes: Vec<u8>,
    pub(crate) cut: Vec<i32>,
}

impl Model for Buffers {
    ghost use Rattle.vh_link.specs.Buffers.{Sized, sized, HaveSpace};

    ghost Value = { Sized };

    ghost view = { λ b. sized b.channels b.max };

    ghost invariant = { λ b. HaveSpace b.channels b.max b.bytes.items b.cut.items };
}

impl Buffers {
    /// Memory for calls of at most `max` frames, 1 to 8192.
    pub fn new(alloc: Global, channels: u16, max: u32) -> Result<Buffers, AllocError>
        requires channels { (channels ≡ 1) ⊎ (channels ≡ 2) }
        requires some { 1 ≤ max }
        requires most { max ≤ 8192 }
        ensures { IfOk result (λ made. made ≡ record { channels = channels; max = max }) }
    {
        Ok(Buffers {
            channels,
            max,
            bytes: vec![in alloc; 0u8; 6 * max as usize]?,
            cut: vec![in alloc; 0i32; usize::from(channels) * max as usize]?,
        })
    }
}
