//! Room for the samples of a block.

ghost use Rattle.std.specs.Prelude.{◌≡◌, ◌≤◌, ◌*◌, ◌⊎◌, length, IfOk};

use std::alloc::{AllocError, Global};

/// Room for the samples that go into a block and for those that come out.
#[derive(Drop)]
pub(crate) struct Buffers {
    pub(crate) ins: Vec<i32>,
    pub(crate) outs: Vec<i32>,
}

impl Buffers {
    /// Room for blocks of at most so many frames, of 1 to 8192.
    pub(crate) fn new(alloc: Global, channels: u16, max: usize) -> Result<Buffers, AllocError>
        requires channels { (channels ≡ 1) ⊎ (channels ≡ 2) }
        requires most { max ≤ 8192 }
        ensures ins { IfOk result (λ buffers. length buffers.ins.items ≡ channels * max) }
        ensures outs { IfOk result (λ buffers. length buffers.outs.items ≡ channels * max) }
    {
        let size = usize::from(channels) * max;
        Ok(Buffers {
            ins: vec![in alloc; 0i32; size]?,
            outs: vec![in alloc; 0i32; size]?,
        })
    }
}
