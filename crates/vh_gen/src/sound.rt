//! The input.

ghost use Rattle.std.specs.Prelude.{◌≡◌, ◌<◌, ◌++◌, ℕ, map, IfOk};
ghost use Rattle.std.specs.List.{range_with_len};
ghost use Rattle.vh_num.specs.Frames.{frame_at};
ghost use Rattle.vh_gen.specs.Sound.{HasDrawn};

use crate::draws::Draws;
use std::alloc::{AllocError, Global};
use vh_render::Sound;

/// The frames of a rendering.
pub(crate) const FRAMES: u32 = 65_536;

/// The input's frames, of two channels.
pub(crate) fn draw_sound(alloc: Global, draws: &mut Draws) -> Result<Sound, AllocError>
    ensures { IfOk result (HasDrawn draws.old.state) }
{
    let mut samples = Vec::with_capacity(alloc, 2 * FRAMES as usize)?;
    let mut right = Vec::with_capacity(alloc, FRAMES as usize)?;
    for _ in 0..FRAMES {
        samples.push(draws.sample())?;
        right.push(draws.sample())?;
    }
    samples.extend_from_slice(&right)?;
    Ok(Sound {
        channels: 2,
        frames: FRAMES,
        samples,
    })
}
