//! The gain.

ghost use Rattle.std.specs.Prelude.{◌≡◌, ◌≤◌, ◌^◌, [], length};
ghost use Rattle.vh_builtin.specs.Each.{AreEach};
ghost use Rattle.vh_builtin.specs.Gain.{gain, gain_of};

use crate::arithmetic::{halved_unit, product};
use vh_num::{clamp, index};
use vh_plugin::Kernel;

/// Multiplies each sample by a level, where its bypass is off.
#[derive(Drop)]
pub struct Gain {}

/// The samples times a level, of which 2^23 changes nothing.
fn amplify(level: u32, main: &[i32], out: &mut [i32])
    requires level { level ≤ 2 ^ 24 }
    requires out { length out.old ≡ length main.now }
    ensures { AreEach (gain_of level) (length main.now) main.now out.new }
{
    for i in 0..out.len() {
        out[i] = clamp(halved_unit(product(main[i], level)));
    }
}

impl Kernel for Gain {
    ghost class = { gain };

    ghost state = { λ _. [] };

    #[tactic(auto, using(crate::proofs::Stands::gain_stands))]
    fn mono(&mut self, values: &[u32], main: &[i32], aux: &[i32], out: &mut [i32]) {
        let _ = aux;
        if index(values[1], 1) == 1 {
            out.copy_from_slice(main);
        } else {
            amplify(values[0], main, out);
        }
    }

    #[tactic(auto, using(crate::proofs::Stands::gain_stands))]
    fn stereo(
        &mut self,
        values: &[u32],
        left: &[i32],
        right: &[i32],
        aux_left: &[i32],
        aux_right: &[i32],
        out_left: &mut [i32],
        out_right: &mut [i32],
    ) {
        let _ = aux_left;
        let _ = aux_right;
        if index(values[1], 1) == 1 {
            out_left.copy_from_slice(left);
            out_right.copy_from_slice(right);
        } else {
            amplify(values[0], left, out_left);
            amplify(values[0], right, out_right);
        }
    }
}
