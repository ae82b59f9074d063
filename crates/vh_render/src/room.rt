//! Room for a piece.

ghost use Rattle.std.specs.Prelude.{◌≤◌, ◌*◌, ◌⊎◌, ◌≡◌, length, IfOk};
ghost use Rattle.vh_render.specs.Playing.{HasRoom};

use std::alloc::{AllocError, Global};

/// Room for the samples and the bytes of a piece.
#[derive(Drop)]
pub struct Room {
    pub(crate) ins: Vec<i32>,
    pub(crate) outs: Vec<i32>,
    pub(crate) bytes: Vec<u8>,
}

impl Room {
    /// Room for pieces of at most so many frames, of 1 to 8192.
    pub fn new(alloc: Global, channels: u16, max: usize) -> Result<Room, AllocError>
        requires channels { (channels ≡ 1) ⊎ (channels ≡ 2) }
        requires most { max ≤ 8192 }
        ensures { IfOk result (HasRoom channels max) }
    {
        let size = usize::from(channels) * max;
        Ok(Room {
            ins: vec![in alloc; 0i32; size]?,
            outs: vec![in alloc; 0i32; size]?,
            bytes: vec![in alloc; 0u8; 3 * size]?,
        })
    }
}
