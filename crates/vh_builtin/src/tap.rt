//! The tap.

ghost use Rattle.std.specs.Prelude.{◌≡◌, ◌≤◌, ◌+◌, ◌-◌, ◌^◌, min, [], ◌∷◌, length, pos};
ghost use Rattle.vh_builtin.specs.Tap.{tap, word_of, tap_reply};
ghost use Rattle.vh_params.specs.Short.{words_in};
ghost use Rattle.vh_builtin.specs.Lasts.{last_after};

use vh_params::Words;
use vh_plugin::Kernel;

/// Counts its frames, and keeps the last one.
#[derive(Drop)]
pub struct Tap {
    seen: u32,
    left: i32,
    right: i32,
}

/// The number of frames after so many more, which stays at its last value.
fn count_on(seen: u32, more: usize) -> u32
    ensures { result ≡ min (seen + more) (2 ^ 32 - 1) }
{
    u64::from(seen)
        .saturating_add(more as u64)
        .min(u64::from(u32::MAX)) as u32
}

/// The last of these samples, where there are any.
fn last_in(before: i32, samples: &[i32]) -> i32
    ensures { result ≡ last_after before samples.now (length samples.now) }
{
    match samples.len().checked_sub(1) {
        Some(last) => samples[last],
        None => before,
    }
}

impl Tap {
    /// A tap that has seen nothing.
    pub fn new() -> Tap
        ensures seen { result.seen ≡ 0 }
        ensures left { result.left ≡ pos 0 }
        ensures right { result.right ≡ pos 0 }
    {
        Tap {
            seen: 0,
            left: 0,
            right: 0,
        }
    }

    /// Answers a message: 0 by the number of frames, 1 by the last frame, 2 by the marker's value.
    pub fn reply(&self, given: &[u32], message: &Words) -> Words
        requires { 1 ≤ length given.now }
        ensures { words_in result ≡ tap_reply (pos self.now.seen ∷ self.now.left ∷ self.now.right ∷ []) given.now (words_in message.now) }
    {
        match message.numbers() {
            [0] => Words::new(&[self.seen]),
            [1] => Words::new(&[word_of(self.left), word_of(self.right)]),
            [2] => Words::new(&[given[0]]),
            _ => Words::new(&[]),
        }
    }
}

/// A sample as a number without sign, in two's complement.
fn word_of(x: i32) -> u32
    ensures { result ≡ word_of x }
{
    x.cast_unsigned()
}

impl Kernel for Tap {
    ghost class = { tap };

    ghost state = { λ it. pos it.seen ∷ it.left ∷ it.right ∷ [] };

    #[tactic(auto, using(crate::proofs::Taps::mono_seen))]
    fn mono(&mut self, values: &[u32], main: &[i32], aux: &[i32], out: &mut [i32]) {
        let _ = values;
        let _ = aux;
        out.copy_from_slice(main);
        self.seen = count_on(self.seen, main.len());
        self.left = last_in(self.left, main);
    }

    #[tactic(auto, using(crate::proofs::Taps::stereo_seen))]
    fn stereo(
        &mut self,
        values: &[u32],
        left: &[i32],
        right: &[i32],
        aux_left: &[i32],
        aux_right: &[i32],
        out_left: &mut [i32],
        out_right: &mut [i32],
    ) {
        let _ = values;
        let _ = aux_left;
        let _ = aux_right;
        out_left.copy_from_slice(left);
        out_right.copy_from_slice(right);
        self.seen = count_on(self.seen, left.len());
        self.left = last_in(self.left, left);
        self.right = last_in(self.right, right);
    }
}
