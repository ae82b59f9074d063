//! The balance.

ghost use Rattle.std.specs.Prelude.{◌≡◌, ◌≤◌, ◌^◌, [], length};
ghost use Rattle.vh_builtin.specs.Each.{AreEach};
ghost use Rattle.vh_builtin.specs.Balance.{balance, share_of};

use crate::arithmetic::{halved_unit, narrowed, product};
use vh_num::ONE;
use vh_plugin::Kernel;

/// The share that lowers nothing.
const WHOLE: u32 = 8_388_608;

/// Lowers one of two channels.
#[derive(Drop)]
pub struct Balance {}

/// A share, at most 2^23, of a sample.
#[inline(always)]
#[tactic(auto, using(crate::proofs::Shares::share_is_sample))]
fn share(x: i32, share: u32) -> i32
    requires { share ≤ 8388608 }
    ensures { result ≡ share_of share x }
{
    narrowed(halved_unit(product(x, share)))
}

/// This share of each sample.
fn lower(factor: u32, main: &[i32], out: &mut [i32])
    requires factor { factor ≤ 8388608 }
    requires out { length out.old ≡ length main.now }
    ensures { AreEach (share_of factor) (length main.now) main.now out.new }
{
    for i in 0..out.len() {
        out[i] = share(main[i], factor);
    }
}

impl Kernel for Balance {
    ghost class = { balance };

    ghost state = { λ _. [] };

    #[tactic(auto, using(crate::proofs::Stands::balance_stands))]
    fn mono(&mut self, values: &[u32], main: &[i32], aux: &[i32], out: &mut [i32]) {
        let _ = values;
        let _ = aux;
        out.copy_from_slice(main);
    }

    #[tactic(auto, using(crate::proofs::Stands::balance_stands))]
    fn stereo(
        &mut self,
        values: &[u32],
        left: &[i32],
        right: &[i32],
        aux_left: &[i32],
        aux_right: &[i32],
        out_left: &mut [i32],
        out_right: &mut [i32],
    ) {
        let _ = aux_left;
        let _ = aux_right;
        lower(WHOLE.min(ONE - values[0]), left, out_left);
        lower(WHOLE.min(values[0]), right, out_right);
    }
}
