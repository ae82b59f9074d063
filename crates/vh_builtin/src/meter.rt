//! The meter.

ghost use Rattle.std.specs.Prelude.{◌≡◌, ◌≤◌, ◌^◌, ℕ, List, [], ◌∷◌, length, pos};
ghost use Rattle.vh_builtin.specs.Meter.{meter, peak_of, meter_told, meter_reply, meter_shown};
ghost use Rattle.vh_params.specs.Short.{words_in};
ghost use Rattle.vh_builtin.specs.Peaks.{peak_after};

use vh_params::Words;
use vh_plugin::Kernel;

/// Full scale, which no peak passes.
const FULL_SCALE: u32 = 8_388_608;

/// Keeps each channel's peak.
#[derive(Drop)]
pub struct Meter {
    left: u32,
    right: u32,
    ghost left_within: { left ≤ 8388608 },
    ghost right_within: { right ≤ 8388608 },
}

/// The peak after a sample.
#[inline(always)]
fn raise(peak: u32, x: i32) -> u32
    requires { peak ≤ 8388608 }
    ensures peak { pos result ≡ peak_of (pos peak) x }
    ensures within { result ≤ 8388608 }
{
    peak.max(x.unsigned_abs().min(FULL_SCALE))
}

/// The peak after these samples.
fn raised_by(peak: u32, samples: &[i32]) -> u32
    requires { peak ≤ 8388608 }
    ensures peak { pos result ≡ peak_after (pos peak) samples.now (length samples.now) }
    ensures within { result ≤ 8388608 }
{
    let mut after = peak;
    for i in 0..samples.len() {
        after = raise(after, samples[i]);
    }
    after
}

impl Meter {
    /// A meter with no peaks.
    pub fn new() -> Meter
        ensures left { result.left ≡ 0 }
        ensures right { result.right ≡ 0 }
    {
        Meter { left: 0, right: 0 }
    }

    /// Takes a message: 1 is answered by both peaks, which then are 0.
    pub fn notify(&mut self, given: &[u32], message: &Words) -> Words
        ensures reply { words_in result ≡ meter_reply (pos self.old.left ∷ pos self.old.right ∷ []) given.now (words_in message.now) }
        ensures state { pos self.new.left ∷ pos self.new.right ∷ [] ≡ meter_told (pos self.old.left ∷ pos self.old.right ∷ []) given.now (words_in message.now) }
    {
        let _ = given;
        match message.numbers() {
            [1] => {
                let peaks = Words::new(&[self.left, self.right]);
                self.left = 0;
                self.right = 0;
                peaks
            }
            _ => Words::new(&[]),
        }
    }

    /// What a parameter shows: twice the peak of its channel.
    pub fn shown(&self, id: u32) -> u32
        requires { id ≤ 1 }
        ensures value { result ≡ meter_shown (pos self.now.left ∷ pos self.now.right ∷ []) id }
        ensures within { result ≤ 2 ^ 24 }
    {
        if id == 0 {
            2 * self.left
        } else {
            2 * self.right
        }
    }
}

impl Kernel for Meter {
    ghost class = { meter };

    ghost state = { λ it. pos it.left ∷ pos it.right ∷ [] };

    #[tactic(auto, using(crate::proofs::Meters::mono_peaks))]
    fn mono(&mut self, values: &[u32], main: &[i32], aux: &[i32], out: &mut [i32]) {
        let _ = values;
        let _ = aux;
        out.copy_from_slice(main);
        self.left = raised_by(self.left, main);
    }

    #[tactic(auto, using(crate::proofs::Meters::stereo_peaks))]
    fn stereo(
        &mut self,
        values: &[u32],
        left: &[i32],
        right: &[i32],
        aux_left: &[i32],
        aux_right: &[i32],
        out_left: &mut [i32],
        out_right: &mut [i32],
    ) {
        let _ = values;
        let _ = aux_left;
        let _ = aux_right;
        out_left.copy_from_slice(left);
        out_right.copy_from_slice(right);
        self.left = raised_by(self.left, left);
        self.right = raised_by(self.right, right);
    }
}
