//! The one-pole filter.

ghost use Rattle.std.specs.Prelude.{◌≡◌, [], ◌∷◌, pos};
ghost use Rattle.vh_builtin.specs.OnePole.{onepole};

use crate::arithmetic::toward;
use vh_plugin::Kernel;

/// Lets each channel's state go a part of the way to the sample.
#[derive(Drop)]
pub struct OnePole {
    left: i32,
    right: i32,
}

impl OnePole {
    /// The state at first.
    pub fn new() -> OnePole
        ensures left { result.left ≡ pos 0 }
        ensures right { result.right ≡ pos 0 }
    {
        OnePole { left: 0, right: 0 }
    }
}

impl Kernel for OnePole {
    ghost class = { onepole };

    ghost state = { λ it. it.left ∷ it.right ∷ [] };

    fn mono(&mut self, values: &[u32], main: &[i32], aux: &[i32], out: &mut [i32]) {
        let _ = aux;
        let cutoff = values[0];
        let mut left = self.left;
        for i in 0..out.len() {
            left = toward(cutoff, left, main[i]);
            out[i] = left;
        }
        self.left = left;
    }

    fn stereo(
        &mut self,
        values: &[u32],
        left: &[i32],
        right: &[i32],
        aux_left: &[i32],
        aux_right: &[i32],
        out_left: &mut [i32],
        out_right: &mut [i32],
    ) {
        let _ = aux_left;
        let _ = aux_right;
        let cutoff = values[0];
        let (mut z, mut w) = (self.left, self.right);
        for i in 0..out_left.len() {
            z = toward(cutoff, z, left[i]);
            w = toward(cutoff, w, right[i]);
            out_left[i] = z;
            out_right[i] = w;
        }
        self.left = z;
        self.right = w;
    }
}
