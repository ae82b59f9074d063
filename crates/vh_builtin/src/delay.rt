//! The delay.

ghost use Rattle.std.specs.Prelude.{◌≡◌, ◌≤◌, ◌<◌, ◌+◌, ◌-◌, ◌%◌, ◌^◌, ◌++◌, ℕ, ℤ, List, length, replicate, pos, IfOk};
ghost use Rattle.vh_params.specs.Short.{words_in};
ghost use Rattle.vh_builtin.specs.Delay.{delay, delayed_of, fed_of, all_silent, delay_told, delay_reply};
ghost use Rattle.vh_builtin.specs.Rings.{history, IsEcho};

use crate::arithmetic::{by_two_units, sum, summand, toward};
use std::alloc::{AllocError, Global};
use vh_num::{clamp, index};
use vh_params::Words;
use vh_plugin::Kernel;

/// The places of a ring: one more than the longest time.
const PLACES: usize = 4096;

/// What a channel keeps, in a ring that is written next at a place.
#[derive(Drop)]
struct Ring {
    places: Vec<i32>,
    at: usize,
    ghost size: { length places.items ≡ 4096 },
    ghost within: { at < 4096 },
}

impl Ring {
    /// A ring of zeros.
    fn new(alloc: Global) -> Result<Ring, AllocError>
        ensures { IfOk result (λ ring. history ring.places.items ring.at ≡ replicate 4095 (pos 0)) }
    {
        let mut ring = Ring {
            places: vec![in alloc; 0i32; PLACES]?,
            at: 0,
        };
        ring.clear();
        Ok(ring)
    }

    /// Makes all numbers 0.
    fn clear(&mut self)
        ensures { history self.new.places.items self.new.at ≡ replicate 4095 (pos 0) }
    {
        silence(&mut self.places);
    }

    /// Runs a channel's samples.
    fn run(&mut self, time: usize, mix: u32, feedback: u32, main: &[i32], out: &mut [i32])
        requires time { time ≤ 4095 }
        requires mix { mix ≤ 2 ^ 24 }
        requires feedback { feedback ≤ 2 ^ 24 }
        requires out { length out.old ≡ length main.now }
        ensures { IsEcho time mix feedback (history self.old.places.items self.old.at) main.now (length main.now) (history self.new.places.items self.new.at) out.new }
    {
        self.at = run_channel(&mut self.places, self.at, time, mix, feedback, main, out);
    }
}

/// Makes all places 0.
#[tactic(auto, using(crate::proofs::Rings::all_made_silent))]
fn silence(ring: &mut [i32])
    ensures { (at : ℕ) → history ring.new at ≡ replicate 4095 (pos 0) }
{
    for k in 0..ring.len() {
        ring[k] = 0;
    }
}

/// Mixes each sample with what came some samples ago.
#[derive(Drop)]
pub struct Delay {
    left: Ring,
    right: Ring,
}

impl Delay {
    ghost use Rattle.vh_builtin.specs.DelayState.{delay_state};

    /// A delay that keeps silence.
    #[tactic(auto, using(crate::proofs::Rings::both_silent))]
    pub fn new(alloc: Global) -> Result<Delay, AllocError>
        ensures { IfOk result (λ made. delay_state made ≡ all_silent) }
    {
        Ok(Delay {
            left: Ring::new(alloc)?,
            right: Ring::new(alloc)?,
        })
    }

    /// Takes a message: 1 makes all that is kept 0.
    #[tactic(auto, using(crate::proofs::Rings::both_silent))]
    pub fn notify(&mut self, given: &[u32], message: &Words) -> Words
        ensures reply { words_in result ≡ delay_reply (delay_state self.old) given.now (words_in message.now) }
        ensures state { delay_state self.new ≡ delay_told (delay_state self.old) given.now (words_in message.now) }
    {
        let _ = given;
        match message.numbers() {
            [1] => {
                self.left.clear();
                self.right.clear();
                Words::new(&[1])
            }
            _ => Words::new(&[]),
        }
    }
}

/// What is given out: of the sample and the number from before, by the mix.
#[inline(always)]
fn delayed(mix: u32, x: i32, w: i32) -> i32
    requires { mix ≤ 2 ^ 24 }
    ensures { result ≡ delayed_of mix x w }
{
    toward(mix, x, w)
}

/// What is kept: the sample, and a part of the number from before.
#[inline(always)]
fn fed(feedback: u32, x: i32, w: i32) -> i32
    requires { feedback ≤ 2 ^ 24 }
    ensures { result ≡ fed_of feedback x w }
{
    clamp(sum(i64::from(x), by_two_units(summand(w, feedback))))
}

/// Runs `size` samples from `from` on over places of a ring that lie in a row, from `write` on, with no time.
fn run_now(
    ring: &mut [i32],
    write: usize,
    mix: u32,
    feedback: u32,
    from: usize,
    size: usize,
    main: &[i32],
    out: &mut [i32],
)
    requires ring { length ring.old ≡ 4096 }
    requires write { write + size ≤ 4096 }
    requires mix { mix ≤ 2 ^ 24 }
    requires feedback { feedback ≤ 2 ^ 24 }
    requires main { from + size ≤ length main.now }
    requires out { length out.old ≡ length main.now }
    ensures { (us : List ℤ) → IsEcho 0 mix feedback us main.now from (history ring.old write) out.old → IsEcho 0 mix feedback us main.now (from + size) (history ring.new (write + size)) out.new }
{
    for k in 0..size {
        let x = main[from + k];
        out[from + k] = delayed(mix, x, x);
        ring[write + k] = fed(feedback, x, x);
    }
}

/// Runs `size` samples from `from` on over places of a ring that lie in a row, from `write` on, and those of
/// `time` samples ago from `read` on.
fn run_ago(
    ring: &mut [i32],
    write: usize,
    read: usize,
    time: usize,
    mix: u32,
    feedback: u32,
    from: usize,
    size: usize,
    main: &[i32],
    out: &mut [i32],
)
    requires ring { length ring.old ≡ 4096 }
    requires some { 1 ≤ time }
    requires most { time ≤ 4095 }
    requires at { read ≡ (write + 4096 - time) % 4096 }
    requires write { write + size ≤ 4096 }
    requires read { read + size ≤ 4096 }
    requires mix { mix ≤ 2 ^ 24 }
    requires feedback { feedback ≤ 2 ^ 24 }
    requires main { from + size ≤ length main.now }
    requires out { length out.old ≡ length main.now }
    ensures { (us : List ℤ) → IsEcho time mix feedback us main.now from (history ring.old write) out.old → IsEcho time mix feedback us main.now (from + size) (history ring.new (write + size)) out.new }
{
    let _ = time;
    for k in 0..size {
        let x = main[from + k];
        let w = ring[read + k];
        out[from + k] = delayed(mix, x, w);
        ring[write + k] = fed(feedback, x, w);
    }
}

/// Runs the samples of a channel, whose ring is to be written next at a place, and answers the next place.
fn run_channel(
    ring: &mut [i32],
    at: usize,
    time: usize,
    mix: u32,
    feedback: u32,
    main: &[i32],
    out: &mut [i32],
) -> usize
    requires ring { length ring.old ≡ 4096 }
    requires at { at < 4096 }
    requires time { time ≤ 4095 }
    requires mix { mix ≤ 2 ^ 24 }
    requires feedback { feedback ≤ 2 ^ 24 }
    requires out { length out.old ≡ length main.now }
    ensures at { result ≡ (at + length main.now) % 4096 }
    ensures echo { IsEcho time mix feedback (history ring.old at) main.now (length main.now) (history ring.new result) out.new }
{
    let mut write = at;
    let mut from = 0;
    while from < main.len() {
        let read = (write + PLACES - time) % PLACES;
        let size = (main.len() - from).min(PLACES - write).min(PLACES - read);
        if time == 0 {
            run_now(ring, write, mix, feedback, from, size, main, out);
        } else {
            run_ago(
                ring, write, read, time, mix, feedback, from, size, main, out,
            );
        }
        write = if write + size == PLACES {
            0
        } else {
            write + size
        };
        from += size;
    }
    write
}

impl Kernel for Delay {
    ghost class = { delay };

    ghost state = { λ it. history it.left.places.items it.left.at ++ history it.right.places.items it.right.at };

    fn mono(&mut self, values: &[u32], main: &[i32], aux: &[i32], out: &mut [i32]) {
        let _ = aux;
        let time = index(values[0], 4095) as usize;
        self.left.run(time, values[1], values[2], main, out);
    }

    fn stereo(
        &mut self,
        values: &[u32],
        left: &[i32],
        right: &[i32],
        aux_left: &[i32],
        aux_right: &[i32],
        out_left: &mut [i32],
        out_right: &mut [i32],
    ) {
        let _ = aux_left;
        let _ = aux_right;
        let time = index(values[0], 4095) as usize;
        self.left.run(time, values[1], values[2], left, out_left);
        self.right.run(time, values[1], values[2], right, out_right);
    }
}
