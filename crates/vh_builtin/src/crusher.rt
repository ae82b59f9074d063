//! The crusher.

ghost use Rattle.std.specs.Prelude.{◌≡◌, ◌≤◌, ◌^◌, [], ◌∷◌, pos};
ghost use Rattle.vh_num.specs.Samples.{floor_div};
ghost use Rattle.vh_builtin.specs.Crusher.{crusher, held_of, counter_of, crushed_of};

use vh_num::index;
use vh_plugin::Kernel;

/// Holds samples, and cuts off their low bits.
#[derive(Drop)]
pub struct Crusher {
    count: u32,
    left: i32,
    right: i32,
}

/// The sample where the counter is 0, else what was held.
#[inline(always)]
fn hold_sample(count: u32, held: i32, x: i32) -> i32
    ensures { result ≡ held_of (pos count) held x }
{
    if count == 0 { x } else { held }
}

/// The counter after a sample.
#[inline(always)]
fn count_on(hold: u32, count: u32) -> u32
    ensures { pos result ≡ counter_of hold (pos count) }
{
    if count >= hold { 0 } else { count + 1 }
}

/// The number of values of so many bits.
#[tactic(auto, using(crate::proofs::Powers::power_within))]
fn unit_of(bits: u32) -> i32
    requires { bits ≤ 15 }
    ensures { result ≡ pos (2 ^ bits) }
{
    1 << bits
}

/// The quotient by this number of values, rounded down.
#[inline(always)]
fn cut(bits: u32, x: i32) -> i32
    requires { bits ≤ 15 }
    ensures { result ≡ floor_div x (2 ^ bits) }
{
    x >> bits
}

/// A sample without its lowest bits.
#[inline(always)]
fn crush(bits: u32, unit: i32, x: i32) -> i32
    requires bits { bits ≤ 15 }
    requires unit { unit ≡ pos (2 ^ bits) }
    ensures { result ≡ crushed_of bits x }
{
    cut(bits, x) * unit
}

impl Crusher {
    /// The state at first.
    pub fn new() -> Crusher
        ensures count { result.count ≡ 0 }
        ensures left { result.left ≡ pos 0 }
        ensures right { result.right ≡ pos 0 }
    {
        Crusher {
            count: 0,
            left: 0,
            right: 0,
        }
    }
}

impl Kernel for Crusher {
    ghost class = { crusher };

    ghost state = { λ it. pos it.count ∷ it.left ∷ it.right ∷ [] };

    fn mono(&mut self, values: &[u32], main: &[i32], aux: &[i32], out: &mut [i32]) {
        let _ = aux;
        let bits = 15 - index(values[0], 15);
        let unit = unit_of(bits);
        let hold = index(values[1], 63);
        let (mut count, mut held) = (self.count, self.left);
        for i in 0..out.len() {
            held = hold_sample(count, held, main[i]);
            out[i] = crush(bits, unit, held);
            count = count_on(hold, count);
        }
        self.count = count;
        self.left = held;
    }

    fn stereo(
        &mut self,
        values: &[u32],
        left: &[i32],
        right: &[i32],
        aux_left: &[i32],
        aux_right: &[i32],
        out_left: &mut [i32],
        out_right: &mut [i32],
    ) {
        let _ = aux_left;
        let _ = aux_right;
        let bits = 15 - index(values[0], 15);
        let unit = unit_of(bits);
        let hold = index(values[1], 63);
        let (mut count, mut held, mut held_right) = (self.count, self.left, self.right);
        for i in 0..out_left.len() {
            held = hold_sample(count, held, left[i]);
            held_right = hold_sample(count, held_right, right[i]);
            let y = crush(bits, unit, held);
            let z = crush(bits, unit, held_right);
            out_left[i] = y;
            out_right[i] = z;
            count = count_on(hold, count);
        }
        self.count = count;
        self.left = held;
        self.right = held_right;
    }
}
