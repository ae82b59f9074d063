//! Room that the nodes use in turn.

ghost use Rattle.std.specs.Prelude.{◌≤◌, IfOk};
ghost use Rattle.vh_engine.specs.Runs.{IsSpacious};

use std::alloc::{AllocError, Global};
use vh_points::Points;

/// Points, sums, and samples of a main bus, of an aux bus and of an output.
#[derive(Drop)]
pub(crate) struct Space {
    pub(crate) points: Points,
    pub(crate) sums: Vec<i64>,
    pub(crate) main: Vec<i32>,
    pub(crate) aux: Vec<i32>,
    pub(crate) out: Vec<i32>,
}

impl Space {
    /// Room for so many samples of all channels, and for 64 parameters in so many frames.
    pub(crate) fn new(alloc: Global, samples: usize, frames: usize) -> Result<Space, AllocError>
        requires { frames ≤ 8192 }
        ensures { IfOk result (λ space. IsSpacious space samples 64 frames) }
    {
        Ok(Space {
            points: Points::new(alloc, 64, 64 * frames)?,
            sums: vec![in alloc; 0i64; samples]?,
            main: vec![in alloc; 0i32; samples]?,
            aux: vec![in alloc; 0i32; samples]?,
            out: vec![in alloc; 0i32; samples]?,
        })
    }
}
