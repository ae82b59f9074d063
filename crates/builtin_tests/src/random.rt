//! Numbers that look random.

ghost use Rattle.std.specs.Prelude.{◌<◌, ◌≡◌, ◌+◌, IfOk, length};
ghost use Rattle.vh_points.specs.Model.{queues_of};

use std::alloc::{AllocError, Global};
use vh_num::ONE;
use vh_params::Words;
use vh_points::Points;

/// A linear congruence.
#[derive(Drop)]
pub struct Random {
    state: u32,
}

impl Random {
    pub fn new(seed: u32) -> Random {
        Random { state: seed }
    }

    /// A number below a bound.
    pub fn below(&mut self, bound: u32) -> u32
        requires { 0 < bound }
        ensures { result < bound }
    {
        self.state = self
            .state
            .wrapping_mul(1_664_525)
            .wrapping_add(1_013_904_223);
        (self.state / 8) % bound
    }

    /// A sample, often one of the greatest, the least, or a small one.
    fn sample(&mut self) -> i32 {
        match self.below(8) {
            0 => i32::MIN,
            1 => i32::MAX,
            2 => 0,
            3 => -1,
            4 => (self.below(2000) as i32).wrapping_sub(1000),
            _ => (self.below(1 << 24) as i32)
                .wrapping_mul(256)
                .wrapping_add(self.below(256) as i32),
        }
    }

    /// So many samples.
    pub fn samples(&mut self, alloc: Global, n: usize) -> Result<Vec<i32>, AllocError>
        ensures { IfOk result (λ samples. length samples.items ≡ n) }
    {
        let mut samples = vec![in alloc; 0i32; n]?;
        for i in 0..n {
            samples[i] = self.sample();
        }
        Ok(samples)
    }

    /// A message, which some class answers.
    pub fn message(&mut self) -> Words {
        match self.below(6) {
            0 => Words::new(&[0]),
            1 => Words::new(&[1]),
            2 => Words::new(&[2]),
            3 => Words::new(&[3]),
            4 => Words::new(&[1, 1]),
            _ => Words::new(&[]),
        }
    }

    /// Points at any offset below a size, of the first parameters.
    pub fn fill(&mut self, points: &mut Points, ids: u32, n: u32) {
        points.clear();
        let often = self.below(5) + 1;
        for id in 0..ids {
            if points.free_queues() > 0 && points.lacks(id) && self.below(4) > 0 {
                let q = points.add_queue(id);
                self.fill_queue(points, q, n, often);
            }
        }
    }

    /// Points of the last queue.
    fn fill_queue(&mut self, points: &mut Points, q: usize, n: u32, often: u32)
        requires last { q + 1 ≡ length (queues_of points.old) }
        requires often { 0 < often }
    {
        for offset in 0..n {
            let value = self.below(ONE + 1);
            if self.below(often) == 0
                && points.free_points() > 0
                && points.may_follow(q, offset, value)
            {
                points.add_point(q, offset, value);
            }
        }
    }
}
