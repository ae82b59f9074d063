//! The gate.

ghost use Rattle.std.specs.Prelude.{◌≡◌, ◌≤◌, ◌-◌, ◌/◌, ◌⊎◌, ℕ, Bool, [], ◌∷◌, ◌||◌, ◌==◌, nat_le, nat_lt, length, max, pos, if◌then◌else◌};
ghost use Rattle.vh_plugin.specs.Runs.{mono, stereo, aux_mono, aux_stereo};
ghost use Rattle.vh_builtin.specs.Frames.{magnitude};
ghost use Rattle.vh_builtin.specs.Gate.{gate, key_of};
ghost use Rattle.vh_builtin.specs.Marks.{mark_of, loud_at, AreMarked};

use vh_num::index;
use vh_plugin::Kernel;

/// Lets samples pass while the key is loud, and for some samples after.
#[derive(Drop)]
pub struct Gate {
    left: u32,
}

/// What opens the gate: the aux samples where there are any, else the main ones.
fn mono_key<'a>(main: &'a [i32], aux: &'a [i32]) -> &'a [i32]
    requires { (length aux.now ≡ 0) ⊎ (length aux.now ≡ length main.now) }
    ensures key { (place : ℕ) → key_of (mono main.now place) (aux_mono aux.now place) ≡ mono result.now place }
    ensures long { length result.now ≡ length main.now }
{
    if aux.is_empty() { main } else { aux }
}

/// The same for two channels.
fn stereo_key<'a>(
    left: &'a [i32],
    right: &'a [i32],
    aux_left: &'a [i32],
    aux_right: &'a [i32],
) -> (&'a [i32], &'a [i32])
    requires left { (length aux_left.now ≡ 0) ⊎ (length aux_left.now ≡ length left.now) }
    requires right { length right.now ≡ length left.now }
    requires aux_right { length aux_right.now ≡ length aux_left.now }
    ensures key { (place : ℕ) → key_of (stereo left.now right.now place) (aux_stereo aux_left.now aux_right.now place) ≡ stereo result.0.now result.1.now place }
    ensures long { length result.0.now ≡ length left.now }
    ensures long_right { length result.1.now ≡ length left.now }
{
    if aux_left.is_empty() {
        (left, right)
    } else {
        (aux_left, aux_right)
    }
}

/// The level of a key's sample.
#[inline(always)]
fn level_of(x: i32) -> u32
    ensures { result ≡ magnitude x }
{
    x.unsigned_abs()
}

/// Whether a key of this level is loud.
#[inline(always)]
fn is_loud(threshold: u32, level: u32) -> bool
    ensures { result ≡ nat_le (threshold / 2) level }
{
    level >= threshold / 2
}

/// Marks each frame by 1 where its key is loud, else by 0. This loop stands alone since no frame of it waits
/// for the one before. The marks stand in a channel that is written after: each is read before its sample.
#[inline(always)]
fn mark_loud(threshold: u32, key: &[i32], key_right: &[i32], marks: &mut [i32])
    requires long { length key.now ≡ length marks.old }
    requires long_right { length key_right.now ≡ length marks.old }
    ensures long { length marks.new ≡ length marks.old }
    ensures marks { AreMarked (loud_at threshold key.now key_right.now) 0 (length marks.old) marks.new }
{
    for i in 0..marks.len() {
        let level = level_of(key[i]).max(level_of(key_right[i]));
        marks[i] = i32::from(is_loud(threshold, level));
    }
}

/// Whether a frame is marked.
#[inline(always)]
fn is_marked(mark: i32) -> bool
    ensures { (loud : Bool) → mark ≡ mark_of loud → result ≡ loud }
{
    mark == 1
}

/// Whether the gate lets a sample pass, and how many samples more it stands open then.
#[inline(always)]
fn open_on(loud: bool, hold: u32, left: u32, bypass: u32) -> (bool, u32)
    requires { hold ≤ 4095 }
    ensures pass { result.0 ≡ (loud || nat_lt 0 left || (bypass == 1)) }
    ensures left { result.1 ≡ if loud then hold else left - 1 }
{
    let after = if loud { hold } else { left.saturating_sub(1) };
    (loud | (left > 0) | (bypass == 1), after)
}

/// A sample where it passes, else silence.
#[inline(always)]
fn gated(pass: bool, x: i32) -> i32
    ensures { result ≡ if pass then x else pos 0 }
{
    if pass { x } else { 0 }
}

impl Gate {
    /// The state at first.
    pub fn new() -> Gate
        ensures left { result.left ≡ 0 }
    {
        Gate { left: 0 }
    }
}

impl Kernel for Gate {
    ghost class = { gate };

    ghost state = { λ it. pos it.left ∷ [] };

    fn mono(&mut self, values: &[u32], main: &[i32], aux: &[i32], out: &mut [i32]) {
        let key = mono_key(main, aux);
        let hold = index(values[1], 4095);
        let bypass = index(values[2], 1);
        let mut left = self.left;
        mark_loud(values[0], key, key, out);
        for i in 0..out.len() {
            let loud = is_marked(out[i]);
            let (pass, after) = open_on(loud, hold, left, bypass);
            out[i] = gated(pass, main[i]);
            left = after;
        }
        self.left = left;
    }

    fn stereo(
        &mut self,
        values: &[u32],
        left: &[i32],
        right: &[i32],
        aux_left: &[i32],
        aux_right: &[i32],
        out_left: &mut [i32],
        out_right: &mut [i32],
    ) {
        let (key, key_right) = stereo_key(left, right, aux_left, aux_right);
        let hold = index(values[1], 4095);
        let bypass = index(values[2], 1);
        let mut open = self.left;
        mark_loud(values[0], key, key_right, out_left);
        for i in 0..out_left.len() {
            let loud = is_marked(out_left[i]);
            let (pass, after) = open_on(loud, hold, open, bypass);
            let y = gated(pass, left[i]);
            let z = gated(pass, right[i]);
            out_left[i] = y;
            out_right[i] = z;
            open = after;
        }
        self.left = open;
    }
}
